//! Which code a call of a method tries first.
ghost use Rattle.std.specs.Prelude.{◌≡◌, ◌<◌, ◌≤◌, ◌^◌, IfOk, IfSome, OnSome, IfNone};

use frames::CodeId;
use std::alloc::{AllocError, Global};
use std::marker::Model;
use std::sync::atomic::{AtomicU64, Ordering};

// A word packs the serial above the slot. A board has at most 1024 slots, so the last slot number of a word means no hint.
const SLOTS: u64 = 2048;

const NO_HINT: u64 = SLOTS - 1;

/// A plain word for each method. Contracts see how many slots the codes' board has.
#[derive(Drop)]
pub struct Hints {
    words: Vec<AtomicU64>,
    methods: u32,
    slots: u32,
}

impl Model for Hints {
    ghost use Rattle.std.specs.Prelude.{◌≡◌, length};
    ghost use Rattle.thread_list.specs.Hinted.{Hinted};

    ghost Value = { Hinted };

    ghost view = { λ h. record { methods = h.methods; slots = h.slots } };

    ghost invariant = { λ h. length h.words.items ≡ h.methods };
}

impl Hints {
    /// Makes hints that are empty for each method. The error is that memory was refused.
    pub fn new(alloc: Global, methods: u32, slots: u32) -> Result<Hints, AllocError>
        ensures { IfOk result (λ h. (h.methods ≡ methods) × (h.slots ≡ slots)) }
    {
        let mut words = Vec::with_capacity(alloc, methods as usize)?;
        while words.len() < methods as usize {
            words.push(AtomicU64::new(NO_HINT)).map_err(|_| AllocError)?;
        }
        Ok(Hints {
            words,
            methods,
            slots,
        })
    }

    /// How many methods there are.
    #[inline(always)]
    pub fn methods(&self) -> u32
        ensures { result ≡ self.now.methods }
    {
        self.methods
    }

    /// How many slots the codes have.
    #[inline(always)]
    pub fn slots(&self) -> u32
        ensures { result ≡ self.now.slots }
    {
        self.slots
    }

    /// The words, as a thread keeps them.
    #[inline(always)]
    pub(crate) fn words(&self) -> HintWords<'_>
        ensures { result ≡ self.now.methods }
    {
        HintWords {
            words: self.words.as_slice(),
        }
    }

    /// The code that was set last for the method: `None` if there is no such method, `Some(None)` if no code was set or its slot
    /// isn't one of the board's.
    #[inline(always)]
    pub fn of(&self, method: u32) -> Option<Option<CodeId>>
        ensures there { OnSome result (method < self.now.methods) }
        ensures none { IfNone result (self.now.methods ≤ method) }
        ensures slot { IfSome result (λ h. IfSome h (λ c. c.slot < self.now.slots)) }
    {
        self.words().of(method, self.slots)
    }

    /// From now on, calls of the method try this code first.
    pub fn set(&self, method: u32, code: CodeId) {
        if let Some(word) = self.words.get(method as usize) {
            word.store(
                code.serial
                    .saturating_mul(SLOTS)
                    .saturating_add(code.slot as u64),
                Ordering::SeqCst,
            );
        }
    }
}

/// The hints' words as a thread keeps them, by value: their address and length can stay in registers while it calls. Contracts
/// see how many they are.
#[derive(Drop)]
pub(crate) struct HintWords<'a> {
    words: &'a [AtomicU64],
}

impl<'a> Model for HintWords<'a> {
    ghost use Rattle.std.specs.Prelude.{ℕ, length};

    ghost Value = { ℕ };

    ghost view = { λ h. length h.words.now };
}

impl<'a> HintWords<'a> {
    /// The code that was set last for the method: `None` if there is no such method, `Some(None)` if no code was set or its slot
    /// isn't below `slots`.
    #[inline(always)]
    pub(crate) fn of(&self, method: u32, slots: u32) -> Option<Option<CodeId>>
        ensures there { OnSome result (method < self.now) }
        ensures none { IfNone result (self.now ≤ method) }
        ensures slot { IfSome result (λ h. IfSome h (λ c. c.slot < slots)) }
    {
        let word = self.words.get(method as usize)?.load(Ordering::SeqCst);
        let slot = word % SLOTS;
        if slot >= slots as u64 {
            return Some(None);
        }
        Some(Some(CodeId {
            slot: slot as u32,
            serial: word / SLOTS,
        }))
    }
}
