// A direct-mapped cache of slots: for the low digits of a serial, the slot of the last code installed with such a
// serial. Mostly that code has this very serial.
ghost use Rattle.std.specs.Prelude.{◌≡◌, ◌%◌, Some, IfOk, slice_get, slice_set};
ghost use Rattle.method_table.specs.Guesses.{no_guess};

use std::alloc::{AllocError, Global};
use std::marker::Model;

const GUESSES: usize = 1024;

#[derive(Drop)]
pub(crate) struct SlotCache {
    slots: Vec<u32>,
}

impl Model for SlotCache {
    ghost use Rattle.std.specs.Prelude.{◌≡◌, ℕ, List, length};

    ghost Value = { List ℕ };

    ghost view = { λ g. g.slots.items };

    ghost invariant = { λ g. length g.slots.items ≡ 1024 };
}

impl SlotCache {
    pub(crate) fn new(alloc: Global) -> Result<SlotCache, AllocError>
        ensures { IfOk result (λ guesses. guesses ≡ no_guess) }
    {
        Ok(SlotCache {
            slots: vec![in alloc; 0; GUESSES]?,
        })
    }

    pub(crate) fn put(&mut self, serial: u64, slot: u32)
        ensures { self.new ≡ slice_set self.old (serial % 1024) slot }
    {
        self.slots[serial as usize % GUESSES] = slot;
    }

    /// A guessed slot, which may be another code's or none of the table's.
    pub(crate) fn slot_of(&self, serial: u64) -> u32
        ensures { slice_get self.now (serial % 1024) ≡ Some result }
    {
        self.slots[serial as usize % GUESSES]
    }
}
