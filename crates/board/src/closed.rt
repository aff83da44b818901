//! A closed board.
ghost use Rattle.std.specs.Prelude.{◌≡◌, ℕ, ◌+◌, ◌*◌, ◌<◌, ◌≤◌, length};
ghost use Rattle.std.specs.Mem.Slots.{slots_items, slots_len, IsFull};
ghost use Rattle.frames.specs.BoardWords.{entry_of, count_of, place_of, the_moment, unpack};
ghost use Rattle.board.specs.Boards.{words_at};
ghost use Rattle.board.specs.Closing.{WordsLeft, words_left, word_left};

use crate::words::{MOMENT, count_at, entry_at, place_at};
use atomic_table::Closed;
use frames::board_rule::Entry;
use std::alloc::Global;
use std::marker::Model;

/// The words of a closed board. Contracts see its sizes and words.
pub struct ClosedBoard {
    closed: Closed<(), Global>,
    slots: usize,
    places: usize,
}

impl Model for ClosedBoard {
    ghost Value = { WordsLeft };

    ghost view = { λ b. words_left b.slots b.places (slots_items b.closed.words) };

    ghost invariant = { λ b. (slots_len b.closed.words ≡ words_at b.slots b.places)
        × IsFull b.closed.words × (slots_len b.closed.slots ≡ 0) × (b.slots ≤ 1024)
        × (b.places ≤ 64) };
}

impl ClosedBoard {
    pub(crate) fn of(closed: Closed<(), Global>, slots: usize, places: usize) -> ClosedBoard
        requires words { (slots_len closed.words ≡ words_at slots places) × IsFull closed.words
            × (slots_len closed.slots ≡ 0) }
        requires sizes { (slots ≤ 1024) × (places ≤ 64) }
        ensures { result ≡ words_left slots places (slots_items closed.words) }
    {
        ClosedBoard {
            closed,
            slots,
            places,
        }
    }

    /// The entry of the slot, which is below the number of slots.
    pub fn entry(&self, slot: u32) -> Entry
        requires { slot < self.now.slots }
        ensures { result ≡ unpack (word_left self.now (entry_of slot)) }
    {
        Entry::unpack(self.closed.word(entry_at(slot)))
    }

    /// The count of the slot, which is below the number of slots.
    pub fn count(&self, slot: u32) -> u64
        requires { slot < self.now.slots }
        ensures { result ≡ word_left self.now (count_of slot) }
    {
        self.closed.word(count_at(self.slots, slot))
    }

    /// The moment of the place, 0 for a vacant one. The place is below the number of places.
    pub fn place(&self, place: usize) -> u64
        requires { place < self.now.places }
        ensures { result ≡ word_left self.now (place_of place) }
    {
        self.closed.word(place_at(self.slots, place))
    }

    /// The moment of the board.
    pub fn moment(&self) -> u64
        ensures { result ≡ word_left self.now the_moment }
    {
        self.closed.word(MOMENT)
    }

    /// Gives the memory back.
    pub fn free(self) {
        let ClosedBoard {
            closed,
            slots: _,
            places: _,
        } = self;
        closed.free();
    }
}
