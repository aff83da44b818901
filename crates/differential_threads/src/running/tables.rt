//! The tables that the threads of a system share, with their sizes.
ghost use Rattle.std.specs.Prelude.{◌≡◌, ◌<◌, IfSome};

use crate::faults::of_retire;
use bodies::Name;
use differential_schedule::said::Said;
use frames::CodeId;
use operations::job::HandshakeOp;
use std::marker::Model;
use std::sync::Wait;
use system::answers::Refusal;
use thread_list::Shared;

/// The shared tables. Contracts see that the sizes are those of the tables.
#[derive(Drop)]
pub struct Tables<'a, N: Name, J: HandshakeOp> {
    shared: &'a Shared<N, J>,
    places: usize,
    slots: u32,
}

impl<'a, N: Name, J: HandshakeOp> Model for Tables<'a, N, J> {
    ghost use Rattle.std.specs.Prelude.{◌≡◌, ℕ};

    ghost Value = { ℕ };

    ghost view = { λ t. t.slots };

    ghost invariant = { λ t. (t.places ≡ N.board.places) × (t.slots ≡ N.board.slots) };
}

impl<'a, N: Name, J: HandshakeOp> Tables<'a, N, J> {
    pub fn new(shared: &'a Shared<N, J>, places: usize, slots: u32) -> Tables<'a, N, J>
        requires sizes { (places ≡ N.board.places) × (slots ≡ N.board.slots) }
    {
        Tables {
            shared,
            places,
            slots,
        }
    }

    pub fn shared(&self) -> &'a Shared<N, J> {
        self.shared
    }

    /// The hint, if its slot exists.
    pub fn known(&self, hint: Option<CodeId>) -> Option<CodeId>
        ensures { IfSome result (λ c. c.slot < N.board.slots) }
    {
        match hint {
            Some(id) if id.slot < self.slots => Some(id),
            _ => None,
        }
    }

    /// The place, if it exists.
    pub fn place(&self, place: usize) -> Option<usize>
        ensures { IfSome result (λ p. p < N.board.places) }
    {
        if place < self.places {
            Some(place)
        } else {
            None
        }
    }

    /// The count word of the slot.
    pub fn count(&self, slot: u32) -> u64 {
        if slot >= self.slots {
            return 0;
        }
        self.shared.board().peek_count(slot)
    }

    /// A Look at a place. A place that doesn't exist is refused after all other refusals.
    pub fn look<R: Wait>(&self, rt: &R, serial: u64, place: usize) -> Said {
        if place >= self.places {
            return match self.weighable(rt, serial) {
                Said::Done => Said::Refused(Refusal::NoSuchPlace),
                other => other,
            };
        }
        let mut desk = self.shared.desk().lock(rt);
        match desk.look(self.shared.board(), serial, place) {
            Ok(true) => Said::Clear,
            Ok(false) => Said::Late,
            Err(fault) => Said::Refused(of_retire(fault)),
        }
    }

    /// Why the code can't be weighed; Done if it can.
    pub fn weighable<R: Wait>(&self, rt: &R, serial: u64) -> Said {
        let desk = self.shared.desk().lock(rt);
        match desk.weigh_fault(serial) {
            None => Said::Done,
            Some(fault) => Said::Refused(of_retire(fault)),
        }
    }
}
