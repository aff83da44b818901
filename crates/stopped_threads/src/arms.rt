//! The armer. It has a module of its own, so that a place is armed only with the receipt of the job or mark that its thread then
//! finds.
ghost use Rattle.std.specs.Prelude.{◌≡◌, ◌⊎◌, ◌<◌, ◌^◌, length, slice_index};
ghost use Rattle.thread_state.specs.PollRule.{armed_with};
ghost use Rattle.berths.specs.Berths.{acted};

use berths::{BerthAct, BerthReceipt};
use bodies::Name;
use poll::{Armer, PollRow};
use std::marker::Model;

/// The armer. Contracts see it.
#[derive(Drop)]
pub struct Arms {
    armer: Armer,
}

impl Model for Arms {
    ghost use Rattle.poll.specs.Rows.{ArmerSeen};

    ghost Value = { ArmerSeen };

    ghost view = { λ a. a.armer };
}

impl Arms {
    pub fn new(armer: Armer) -> Arms
        ensures { result ≡ armer }
    {
        Arms { armer }
    }

    /// The number that the place was last armed with, 0 at first.
    pub fn last(&self, place: usize) -> u64
        requires place { place < length self.now.seen.armed }
        ensures { result ≡ slice_index self.now.seen.armed place }
    {
        self.armer.last(place)
    }

    /// Arms a place with a number. The receipt says that the place's berth has the job of this number, or the mark of the census.
    #[inline(always)]
    pub fn arm<N: Name>(&mut self, row: &PollRow, place: usize, number: u64, told: &BerthReceipt<N>)
        requires row { self.old.table ≡ row.now }
        requires place { place < length self.old.seen.armed }
        requires later { slice_index self.old.seen.armed place < number }
        requires small { number < 2 ^ 40 }
        requires told { (told.now ≡ acted place told.now.name (BerthAct.Told number))
            ⊎ (told.now ≡ acted place told.now.name (BerthAct.Marked number)) }

        ensures armed { self.new.seen ≡ armed_with self.old.seen place number }
        ensures row { self.new.table ≡ self.old.table }
    {
        let _ = told;
        self.armer.arm(row, place, number);
    }
}
