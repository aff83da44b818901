//! The count words of the slots.
ghost use Rattle.std.specs.Prelude.{◌≡◌};

use crate::codes::Codes;
use crate::verdict::count_of;
use bodies::Name;
use operations::job::HandshakeOp;
use std::marker::Model;
use thread_list::Shared;

/// The count words of shared state, one for each slot. Contracts see how many there are.
#[derive(Drop)]
pub struct Words<'a, N: Name, J: HandshakeOp> {
    shared: &'a Shared<N, J>,
    slots: u32,
}

impl<'a, N: Name, J: HandshakeOp> Model for Words<'a, N, J> {
    ghost use Rattle.std.specs.Prelude.{◌≡◌, ℕ};

    ghost Value = { ℕ };

    ghost view = { λ w. w.slots };

    ghost invariant = { λ w. w.slots ≡ N.board.slots };
}

impl<'a, N: Name, J: HandshakeOp> Words<'a, N, J> {
    /// The count words of this many slots.
    pub fn new(shared: &'a Shared<N, J>, slots: u32) -> Words<'a, N, J>
        requires slots { slots ≡ N.board.slots }
    {
        Words { shared, slots }
    }

    /// Whether each word equals the census's count of the code in its slot: 0 if the census doesn't list the code, or the slot is empty.
    pub fn are(&self, list: &[(u64, u32)], codes: &Codes) -> bool {
        for slot in 0..self.slots {
            let counted = self.shared.board().peek_count(slot);
            if counted != count_of(list, codes.in_slot(slot)) {
                return false;
            }
        }
        true
    }
}
