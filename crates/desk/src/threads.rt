//! Starts and exits of threads, and the list of live threads.
ghost use Rattle.std.specs.Prelude.{◌≡◌, ℕ, ◌+◌, ◌<◌, true, false, Some, IfOk, IfErr, OnOk, OnErr};
ghost use Rattle.desk.specs.Machine.{is_taken, names_of, lawful};
ghost use Rattle.desk.specs.Refusals.{start_refused, MayStart};
ghost use Rattle.desk.specs.Fields.{at, Enters};
ghost use Rattle.desk.specs.Targets.{name_at, live_after};

use crate::desk::Desk;
use crate::entries::{Entry, Live};
use crate::faults::{NotLive, StartFault};
use crate::lists::{has_census, least_free, lives, make_room, names_of, take_off_live};
use crate::log::Receipt;
use crate::targets::{live_after, name_at};
use bodies::Name;
use frames::LAST;
use operations::job::HandshakeOp;
use std::alloc::AllocError;

impl<N: Name, J: HandshakeOp> Desk<N, J> {
    /// Enters the Start of the next name in the least free place, and returns the name, the place and the receipt.
    /// `has_image`: there is memory for the thread's stack image. Refusals in the order of `StartFault`.
    pub fn start(&mut self, has_image: bool) -> Result<(u64, usize, Receipt<N>), StartFault>
        ensures ok { IfOk result (λ r.
            Enters self.old self.new (Entry.Start r.0 r.1) r.2
            × (r.1 < N.board.places)
            × (0 < r.0)) }
        ensures accepted { OnOk result (MayStart (at self.old) N.board.places self.old.book) }
        ensures image { OnOk result (has_image ≡ true) }
        ensures least { IfOk result (λ r.
            (k : ℕ) → k < r.1 → is_taken k (at self.old).live ≡ true) }
        ensures reserved { IfOk result (λ r.
            (self.new.book.reserved ≡ self.old.book.reserved + 1)
            × (self.new.keeper ≡ self.old.keeper)) }
        ensures jobs { self.new.jobs ≡ self.old.jobs }

        ensures err { IfErr result (λ e.
            (self.new ≡ self.old) × start_refused (at self.old) N.board.places self.old.book e) }
    {
        if has_census(self.opened.as_slice()) {
            return Err(StartFault::SafepointOpen);
        }
        let Some(place) = least_free(self.live.as_slice(), self.places) else {
            return Err(StartFault::PlacesFull);
        };
        if self.next_name > LAST {
            return Err(StartFault::Spent);
        }
        if !self.log.keep(2) {
            return Err(StartFault::HistoryFull);
        }
        if !make_room(&mut self.live, has_image) {
            self.log.give_back(2);
            return Err(StartFault::NoMemory);
        }
        let name = self.next_name;
        self.live.push_reserved(Live { name, place });
        self.next_name += 1;
        Ok((name, place, self.log.enter(Entry::Start(name, place))))
    }

    /// Enters the Exit of a live name. Refused with `NotLive`.
    pub fn exit(&mut self, name: u64) -> Result<Receipt<N>, NotLive>
        ensures ok { IfOk result (λ r. Enters self.old self.new (Entry.Exit name) r) }
        ensures reserved { OnOk result
            ((self.new.book.reserved + 1 ≡ self.old.book.reserved)
            × (self.new.keeper ≡ self.old.keeper)) }
        ensures jobs { self.new.jobs ≡ self.old.jobs }
        ensures err { OnErr result
            ((self.new ≡ self.old) × (lawful (at self.old) (Entry.Exit name) ≡ false)) }
    {
        if !lives(self.live.as_slice(), name) {
            return Err(NotLive);
        }
        take_off_live(&mut self.live, name);
        Ok(self.log.enter(Entry::Exit(name)))
    }

    /// Returns the live names, in the order in which they started. Refused only if memory is refused.
    pub fn live(&self) -> Result<Vec<u64>, AllocError>
        ensures { IfOk result (λ names. names.items ≡ names_of (at self.now).live) }
    {
        names_of(self.live.as_slice(), self.alloc)
    }

    /// Returns the live name at the place.
    pub fn name_at(&self, place: usize) -> Option<u64>
        ensures { result ≡ name_at place (at self.now).live }
    {
        name_at(self.live.as_slice(), place)
    }

    /// Returns the least live name above this one.
    pub fn live_after(&self, name: u64) -> Option<u64>
        ensures { result ≡ live_after name (at self.now).live }
    {
        live_after(self.live.as_slice(), name)
    }
}
