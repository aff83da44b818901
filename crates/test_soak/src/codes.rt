//! The codes of a run. Only the main thread changes them, and knows them by this list.
use operations::Ask;
use std::alloc::{AllocError, Global};
use test_tools::keep;

/// The codes in use, and those that are invalidated and not freed.
#[derive(Drop)]
pub struct Codes {
    in_use: Vec<Option<u64>>,
    left: Vec<u64>,
    // The serial of the code that was installed last, 0 before the first.
    last: u64,
    // The serial of the code in each slot, 0 for none.
    slots: Vec<u64>,
}

impl Codes {
    /// No code of any method. Fails only if memory is refused.
    pub fn new(alloc: Global, methods: u32, slots: u32) -> Result<Codes, AllocError> {
        let mut in_use = Vec::new(alloc);
        for _ in 0..methods {
            keep(&mut in_use, None)?;
        }
        Ok(Codes {
            in_use,
            left: Vec::new(alloc),
            last: 0,
            slots: vec![in alloc; 0; slots as usize]?,
        })
    }

    /// The serial of the method's code in use.
    pub fn current(&self, method: u32) -> Option<u64> {
        match self.in_use.get(method as usize) {
            Some(current) => *current,
            None => None,
        }
    }

    /// The serial of the code that was installed last, 0 before the first.
    pub fn last(&self) -> u64 {
        self.last
    }

    /// Whether no slot is free.
    pub fn are_full(&self) -> bool {
        let mut taken = self.left.len();
        for current in &self.in_use {
            if current.is_some() {
                taken = taken.saturating_add(1);
            }
        }
        taken >= self.slots.len()
    }

    /// Whether the code of the serial was installed and isn't freed.
    pub fn stands(&self, serial: u64) -> bool {
        serial != 0 && self.slots.contains(&serial)
    }

    /// The serial of the code in a slot, 0 for none.
    pub fn in_slot(&self, slot: u32) -> u64 {
        self.slots.get(slot as usize).copied().unwrap_or(0)
    }

    /// A code that is invalidated and not freed: the one at this index of `left`, counted in a circle. None if there is none.
    pub fn left(&self, from: usize) -> Option<u64> {
        if self.left.is_empty() {
            return None;
        }
        Some(self.left[from % self.left.len()])
    }

    /// Notes that the next code was installed in this slot.
    pub fn note_installed(&mut self, method: u32, slot: u32) {
        let serial = self.last.saturating_add(1);
        self.last = serial;
        if let Some(current) = self.in_use.get_mut(method as usize) {
            *current = Some(serial);
        }
        if let Some(stands) = self.slots.get_mut(slot as usize) {
            *stands = serial;
        }
    }

    /// Notes that the code of the method was invalidated.
    pub fn note_invalidated(&mut self, method: u32, serial: u64) -> Result<(), AllocError> {
        if let Some(current) = self.in_use.get_mut(method as usize) {
            *current = None;
        }
        keep(&mut self.left, serial)
    }

    /// Notes that a code in `left` is freed.
    pub fn note_freed(&mut self, serial: u64) {
        self.left.retain(|other| *other != serial);
        for stands in self.slots.iter_mut() {
            if *stands == serial {
                *stands = 0;
            }
        }
    }

    /// Whether a reply may be correct for a stack: a stack has at most 256 frames, and none of a freed code.
    pub fn may_answer(&self, ask: Ask, reply: u64) -> bool {
        match ask {
            Ask::Depth => reply <= 256,
            Ask::CountOf(serial) => reply == 0 || (self.stands(serial) && reply <= 256),
            Ask::Top => reply == 0 || self.stands(reply),
        }
    }
}
