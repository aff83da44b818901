//! The steps of the work on the open requests, over a lent desk and lent rooms.
ghost use Rattle.std.specs.Prelude.{◌≡◌, ◌<◌, [], true, false, slice_index, slice_get, Some, IfOk, IfErr, OnErr, IfSome, IfNone, OnSome};
ghost use Rattle.thread_state.specs.PollRule.{armed_with};
ghost use Rattle.berths.specs.Berths.{acted, is_told};
ghost use Rattle.desk.specs.Fields.{DeskSeen, at};
ghost use Rattle.stopped_threads.specs.Held.{is_held};
ghost use Rattle.stopped_threads.specs.Refused.{told_act, Withholds};
ghost use Rattle.coordinator_core.specs.Done.{Releases};
ghost use Rattle.coordinator_core.specs.Putting.{PutsIn};
ghost use Rattle.coordinator_core.specs.Work.{WasPending, counted};
ghost use Rattle.coordinator_core.specs.Called.{MayOpen, Takes, Calls, ServesCalled, IsLeft};

use crate::coordinator::CoordinatorCore;
use crate::drive::Drive;
use crate::listing::PendingOp;
use crate::opening::open_or_go_on;
use berths::{BerthReceipt, BodyReceipt, Room};
use board::Board;
use bodies::Name;
use desk::{Desk, Finished, Live};
use operations::job::HandshakeOp;
use poll::PollRow;
use stopped_threads::Unserved;

/// Why `call` returns no job.
#[derive(Clone, Copy, PartialEq, Eq, Debug, Drop)]
pub enum NotCalled {
    /// The thread's room has no job: the thread runs its job itself, or has run it.
    Idle,
    /// The thread's body isn't in its room.
    Away,
}

impl<N: Name> CoordinatorCore<N> {
    /// Opens the oldest waiting request if none is open, and lists the due threads and the next pending operation of
    /// each, both while the desk is lent. Returns false if no request is open or waits.
    pub fn begin<J: HandshakeOp>(&self, desk: &mut Desk<N, J>, drive: &mut Drive<J>) -> bool
        ensures opened { (mid : DeskSeen) × MayOpen desk.old mid × (desk.new.book ≡ mid.book) }
        ensures called { drive.new.called ≡ drive.old.called }
        ensures empty { result ≡ false → ((at desk.old).opened ≡ []) × ((at desk.old).waiting ≡ [])
            × (desk.new ≡ desk.old) × (drive.new ≡ drive.old) }
    {
        let Some(kind) = open_or_go_on(desk) else {
            return false;
        };
        drive.list(desk, &self.armer, self.places, kind);
        true
    }

    /// Puts the next job or mark of the list into its room, and arms the place. None if the list has ended, the room
    /// doesn't bear the name, the place was armed meanwhile, or the job is missing or has no room: nothing is done.
    pub fn arm_next<J: HandshakeOp>(
        &mut self,
        drive: &mut Drive<J>,
        room: &mut Room<N, J>,
        row: &PollRow,
    ) -> Option<BerthReceipt<N>>
        requires row { row.now ≡ N.poll_row }

        ensures armed { IfSome result (λ r. (p : PendingOp) × WasPending p
            × (slice_get drive.old.pending drive.old.at ≡ Some p)
            × (slice_index self.old.armer.armed p.target.place ≡ p.last) × (p.last < p.number)
            × (self.new ≡ record self.old { armer = armed_with self.old.armer p.target.place p.number })
            × (r ≡ acted p.target.place p.name (told_act p.target.kind p.number))
            × PutsIn p.target.kind p.number p.name room.old room.new) }
        ensures next { OnSome result (drive.new ≡ record drive.old { at = counted drive.old.at }) }
        ensures refused { IfNone result ((self.new ≡ self.old) × (room.new ≡ room.old)
            × (drive.new ≡ drive.old)) }
    {
        drive.arm_next(&mut self.armer, self.places, room, row)
    }

    /// Returns whether the place's body is held.
    pub fn holds(&self, place: usize) -> bool
        ensures { result ≡ is_held place self.now.held }
    {
        self.bodies.has(place)
    }

    /// Returns the place of the body that was taken last, or None if no body is held.
    pub fn last_held(&self) -> Option<usize>
        ensures none { IfNone result (self.now.held ≡ []) }
        ensures held { IfSome result (λ place. (place < N.board.places)
            × (is_held place self.now.held ≡ true)) }
    {
        let held = self.bodies.as_slice();
        let last = held.last()?;
        Some(last.place())
    }

    /// Releases the body that was taken last, and returns the receipt. None if no body is held, or the body didn't come
    /// out of the lent room.
    pub fn release_last<J: HandshakeOp>(&mut self, room: &mut Room<N, J>) -> Option<BodyReceipt<N>>
        ensures released { IfSome result
            (λ r. Releases self.old self.new r.body.seat.place r) }
        ensures same { IfNone result ((self.new ≡ self.old) × (room.new ≡ room.old)) }
    {
        let count = self.bodies.as_slice().len();
        if count == 0 {
            return None;
        }
        self.bodies.release_into(count - 1, room, self.operated)
    }

    /// Holds a due thread if its body is in its room, with a job or mark. Returns the receipt that the body came out.
    pub fn hold_due<J: HandshakeOp>(
        &mut self,
        room: &mut Room<N, J>,
        who: Live,
    ) -> Option<BodyReceipt<N>>
        requires apart { is_held who.place self.old.held ≡ false }
        ensures held { IfSome result (Takes self.old self.new who.place) }
        ensures told { OnSome result (is_told room.old.jobs room.old.mark ≡ true) }
        ensures refused { IfNone result ((self.new ≡ self.old) × (room.new ≡ room.old)) }
    {
        if !room.is_told() {
            return None;
        }
        match self.bodies.hold_from(room, who.name, who.place) {
            Ok(receipt) => Some(receipt),
            Err(_) => None,
        }
    }

    /// Holds the due thread, unless it is held, if its body is in its room with a job. Returns the number of the oldest
    /// job, which runs next. Refused with `Away` if the room is another place's, then with `Idle`, then with `Away`.
    pub fn call<J: HandshakeOp>(
        &mut self,
        room: &mut Room<N, J>,
        who: Live,
    ) -> Result<u64, NotCalled>
        ensures called { IfOk result (λ n. Calls self.old self.new who.place n room.old) }
        ensures refused { OnErr result ((self.new ≡ self.old) × (room.new ≡ room.old)) }
        ensures idle { IfErr result (λ e. e ≡ NotCalled.Idle → (room.old.place ≡ who.place)
            × (room.old.jobs ≡ [])) }
        ensures away { IfErr result (λ e. e ≡ NotCalled.Away
            → Withholds room.old who.name who.place) }
    {
        if room.place() != who.place {
            return Err(NotCalled::Away);
        }
        let Some(number) = room.oldest_job() else {
            return Err(NotCalled::Idle);
        };
        if !self.bodies.has(who.place) {
            match self.bodies.hold_from(room, who.name, who.place) {
                Ok(_) => {}
                Err(_) => return Err(NotCalled::Away),
            }
        }
        Ok(number)
    }

    /// Serves the held thread of the place, whose oldest job has this number: publishes its stack, runs the job, enters
    /// the job's reply, and clears the operation. Returns the receipt of the Finish.
    ///
    /// # Errors
    /// `NoJob` if the thread isn't held or its oldest job has another number; `NotEntered` if the desk refuses the
    /// reply.
    pub fn serve_called<J: HandshakeOp>(
        &mut self,
        desk: &mut Desk<N, J>,
        room: &mut Room<N, J>,
        board: &Board,
        row: &PollRow,
        number: u64,
        place: usize,
    ) -> Result<Finished<N>, Unserved>
        requires board { board.now ≡ N.board }
        requires row { row.now ≡ N.poll_row }
        ensures served { IfOk result (ServesCalled self.old self.new place number) }
        ensures left { OnErr result (IsLeft place self.old self.new) }
    {
        let Some(index) = self.bodies.index_of(place) else {
            return Err(Unserved::NoJob);
        };
        if room.oldest_job() != Some(number) {
            return Err(Unserved::NoJob);
        }
        let (_, finished) = self.bodies.serve_lent(index, room, desk, board, row)?;
        Ok(finished)
    }
}
