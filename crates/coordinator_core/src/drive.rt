//! The state of the work on the open requests: a value that its owner keeps between two calls.
ghost use Rattle.std.specs.Prelude.{◌≡◌, ◌<◌, [], ℕ, Some, None, IfSome, IfNone, OnSome, length, slice_get, slice_index, take};
ghost use Rattle.thread_state.specs.PollRule.{armed_with};
ghost use Rattle.berths.specs.Berths.{acted};
ghost use Rattle.desk.specs.Fields.{at};
ghost use Rattle.desk.specs.Targets.{due_of, of_which};
ghost use Rattle.stopped_threads.specs.Refused.{told_act};
ghost use Rattle.coordinator_core.specs.Putting.{PutsIn};
ghost use Rattle.coordinator_core.specs.Work.{idle, counted, awaited_behind, stage_behind, WasPending};

use crate::arming::put_in;
use crate::listing::{PendingJob, PendingOp, list_untold};
use berths::{BerthReceipt, Room};
use bodies::Name;
use desk::{Desk, Live};
use operations::Kind;
use operations::job::HandshakeOp;
use poll::PollRow;
use std::alloc::{AllocError, Global};
use std::marker::Model;
use std::mem;
use stopped_threads::PollArmer;

/// The next step of the work.
#[derive(Clone, Copy, PartialEq, Eq, Debug, Drop)]
pub enum Stage {
    /// Open the oldest waiting request if none is open, and list the due threads and their pending operations.
    Begin,
    /// Arm the listed threads. Requests of this kind are open.
    Arm(Kind),
    /// Serve the targets of the open handshakes.
    Serve,
    /// Hold all live threads.
    Hold,
    /// Release the held threads and close the census, which is operated.
    Release,
}

/// A callback that the host runs while threads are held.
#[derive(Clone, Copy, PartialEq, Eq, Debug, Drop)]
pub enum Callback {
    /// The callback of the handshake of this number, for the held thread of this place.
    Handshake(u64, usize),
    /// The VM operation of the operated census of this number. All live threads are held.
    Safepoint(u64),
}

/// The work on the open requests. Contracts see the next step, the list without its jobs, whether more is pending, the
/// due threads, the index in the list or in the due threads, how many of these haven't come in this pass, how many are
/// awaited, and the host's next callback.
#[derive(Drop)]
pub struct Drive<J: HandshakeOp> {
    stage: Stage,
    list: Vec<PendingJob<J>>,
    has_more: bool,
    due: Vec<Live>,
    at: usize,
    late: usize,
    awaited: usize,
    called: Option<Callback>,
}

impl<J: HandshakeOp> Model for Drive<J> {
    ghost use Rattle.std.specs.Prelude.{map};
    ghost use Rattle.stopped_threads.specs.Refused.{told_act};
    ghost use Rattle.coordinator_core.specs.Putting.{PutsIn};
    ghost use Rattle.coordinator_core.specs.Work.{DriveSeen, ArePending};

    ghost Value = { DriveSeen };

    ghost view = { λ d. record {
      stage = d.stage;
      pending = map (λ u. u.what) d.list.items;
      has_more = d.has_more;
      due = d.due.items;
      at = d.at;
      late = d.late;
      awaited = d.awaited;
      called = d.called;
    } };

    ghost invariant = { λ d. ArePending (map (λ u. u.what) d.list.items) };
}

impl<J: HandshakeOp> Drive<J> {
    /// Makes a `Drive` without work.
    pub fn none(alloc: Global) -> Drive<J>
        ensures { result ≡ idle }
    {
        Drive {
            stage: Stage::Begin,
            list: Vec::new(alloc),
            has_more: false,
            due: Vec::new(alloc),
            at: 0,
            late: 0,
            awaited: 0,
            called: None,
        }
    }

    /// Reserves memory for lists of this many threads, unless that was done before.
    ///
    /// # Errors
    /// Memory is refused.
    pub fn reserve(&mut self, alloc: Global, places: usize) -> Result<(), AllocError>
        ensures { self.new ≡ self.old }
    {
        if self.list.is_empty() && self.list.capacity() < places {
            self.list = Vec::with_capacity(alloc, places)?;
        }
        // One more than `places`: a full list means that more threads may be due.
        if self.due.is_empty() && self.due.capacity() <= places {
            self.due = Vec::with_capacity(alloc, places.saturating_add(1))?;
        }
        Ok(())
    }

    /// Returns the next step.
    pub fn stage(&self) -> Stage
        ensures { result ≡ self.now.stage }
    {
        self.stage
    }

    /// Sets the next step.
    pub fn go(&mut self, stage: Stage)
        ensures { self.new ≡ record self.old { stage = stage } }
    {
        self.stage = stage;
    }

    /// Returns the host's next callback.
    pub fn called(&self) -> Option<Callback>
        ensures { result ≡ self.now.called }
    {
        self.called
    }

    /// Returns how many due threads the work waits for.
    pub fn awaited(&self) -> usize
        ensures { result ≡ self.now.awaited }
    {
        self.awaited
    }

    /// Returns the due threads of this pass.
    pub fn due(&self) -> &[Live]
        ensures { result.now ≡ self.now.due }
    {
        self.due.as_slice()
    }

    /// Returns how many threads haven't come in this pass so far.
    pub fn late(&self) -> usize
        ensures { result ≡ self.now.late }
    {
        self.late
    }

    /// Lists the due threads and the next pending operation of each.
    pub(crate) fn list<N: Name>(
        &mut self,
        desk: &mut Desk<N, J>,
        armer: &PollArmer,
        places: usize,
        kind: Kind,
    )
        requires places { places ≡ length armer.now.seen.armed }
        ensures listed { self.new ≡ record self.old {
          stage = Stage.Arm kind;
          pending = self.new.pending;
          has_more = self.new.has_more;
          due = self.new.due;
          at = 0;
          late = 0;
        } }
        ensures same { (desk.new.book ≡ desk.old.book) × (desk.new.keeper ≡ desk.old.keeper) }
    {
        desk.history_is_legal();
        self.has_more = list_untold(desk, armer, places, &mut self.due, &mut self.list);
        self.at = 0;
        self.late = 0;
        self.stage = Stage::Arm(kind);
    }

    /// Returns the next operation to arm, or None after the last of the list.
    pub fn next_pending(&self) -> Option<PendingOp>
        ensures next { result ≡ slice_get self.now.pending self.now.at }
        ensures found { IfSome result WasPending }
    {
        if self.at < self.list.len() {
            Some(self.list[self.at].what)
        } else {
            None
        }
    }

    /// Puts the next job or mark of the list into its room, and arms the place. None if nothing is done.
    #[inline(always)]
    pub(crate) fn arm_next<N: Name>(
        &mut self,
        armer: &mut PollArmer,
        places: usize,
        room: &mut Room<N, J>,
        row: &PollRow,
    ) -> Option<BerthReceipt<N>>
        requires row { armer.old.table ≡ row.now }
        requires places { places ≡ length armer.old.seen.armed }

        ensures armed { IfSome result (λ r. (p : PendingOp) × WasPending p
            × (slice_get self.old.pending self.old.at ≡ Some p) × (p.target.place < places)
            × (slice_index armer.old.seen.armed p.target.place ≡ p.last) × (p.last < p.number)
            × (armer.new.seen ≡ armed_with armer.old.seen p.target.place p.number)
            × (r ≡ acted p.target.place p.name (told_act p.target.kind p.number))
            × PutsIn p.target.kind p.number p.name room.old room.new) }
        ensures next { OnSome result (self.new ≡ record self.old { at = counted self.old.at }) }
        ensures table { armer.new.table ≡ armer.old.table }
        ensures refused { IfNone result ((armer.new ≡ armer.old) × (room.new ≡ room.old)
            × (self.new ≡ self.old)) }
    {
        if self.at >= self.list.len() {
            return None;
        }
        let receipt = put_in(armer, places, room, row, &mut self.list[self.at])?;
        self.at = self.at.saturating_add(1);
        Some(receipt)
    }

    /// Replaces the job of the next operation to arm, and returns the old job. After the last operation, returns `job`.
    pub fn swap_job(&mut self, job: Option<J>) -> Option<J>
        ensures { self.new ≡ self.old }
    {
        if self.at >= self.list.len() {
            return job;
        }
        mem::replace(&mut self.list[self.at].job, job)
    }

    /// Ends the arming of the list. Next is the pass over the due threads or, if more was pending than was listed, a
    /// new list.
    pub fn arm_ends(&mut self, kind: Kind)
        ensures { self.new ≡ record self.old {
          stage = stage_behind self.old.has_more kind;
          pending = [];
          at = 0;
        } }
    {
        self.list.clear();
        self.at = 0;
        self.stage = if self.has_more {
            Stage::Begin
        } else {
            match kind {
                Kind::Handshake => Stage::Serve,
                Kind::Census => Stage::Hold,
            }
        };
    }

    /// Returns the next thread of the pass, or None after the last.
    #[inline(always)]
    pub fn next_due(&self) -> Option<Live>
        ensures { result ≡ slice_get self.now.due self.now.at }
    {
        if self.at < self.due.len() {
            Some(self.due[self.at])
        } else {
            None
        }
    }

    /// Advances to the next operation of the list, or to the next thread of the pass.
    #[inline(always)]
    pub fn pass(&mut self)
        ensures { self.new ≡ record self.old { at = counted self.old.at } }
    {
        self.at = self.at.saturating_add(1);
    }

    /// Advances to the next thread, and counts one that hasn't come.
    pub fn pass_late(&mut self)
        ensures { self.new ≡ record self.old {
          at = counted self.old.at;
          late = counted self.old.late;
        } }
    {
        self.at = self.at.saturating_add(1);
        self.late = self.late.saturating_add(1);
    }

    /// Begins another pass. If `of_oldest`, it is over the threads that are due for the oldest open request, and awaits
    /// them all. Otherwise it is over those that are due for any request, and awaits as many as hadn't come in the last
    /// pass. The due threads are listed as far as the list has room.
    pub fn pass_again<N: Name>(&mut self, desk: &Desk<N, J>, of_oldest: bool)
        ensures { (room : ℕ) × (self.new ≡ record self.old {
          due = take room (due_of (of_which of_oldest (at desk.now).opened) (at desk.now).live);
          at = 0;
          awaited = awaited_behind of_oldest self.old.late (length self.new.due);
          late = 0;
        }) }
    {
        self.due.clear();
        desk.list_due(of_oldest, &mut self.due);
        self.at = 0;
        self.awaited = if of_oldest { self.due.len() } else { self.late };
        self.late = 0;
    }

    /// Sets the next callback: the handshake's, for the held thread of the place.
    #[inline(always)]
    pub fn call(&mut self, number: u64, place: usize)
        ensures { self.new ≡ record self.old { called = Some (Callback.Handshake number place) } }
    {
        self.called = Some(Callback::Handshake(number, place));
    }

    /// Sets the next callback: the census's VM operation.
    pub fn call_at_safepoint(&mut self, number: u64)
        ensures { self.new ≡ record self.old { called = Some (Callback.Safepoint number) } }
    {
        self.called = Some(Callback::Safepoint(number));
    }

    /// Sets no next callback.
    #[inline(always)]
    pub fn call_ends(&mut self)
        ensures { self.new ≡ record self.old { called = None } }
    {
        self.called = None;
    }
}
