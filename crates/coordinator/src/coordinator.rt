//! The coordinator: its state, and how it opens and closes requests.
ghost use Rattle.std.specs.Prelude.{◌≡◌, false, Some, None, IfOk, IfErr, OnOk, IfSome, IfNone, OnSome};
ghost use Rattle.poll.specs.Rows.{full_armer};
ghost use Rattle.desk.specs.declared.entries.Entry.{Entry};
ghost use Rattle.desk.specs.Machine.{State as DeskState};
ghost use Rattle.desk.specs.Refusals.{open_refused};
ghost use Rattle.stopped_threads.specs.Holding.{held_nothing};
ghost use Rattle.coordinator.specs.Driving.{WasOldest};
ghost use Rattle.stopped_threads.specs.Refused.{MayClose, not_closed};

use crate::closed::Closed;
use berths::locked;
use bodies::Name;
use coordinator_core::PendingJob;
use desk::{CloseFault, Closing, Live, OpenFault, Receipt};
use operations::Kind;
use operations::job::HandshakeOp;
use poll::Armer;
use std::alloc::Global;
use std::marker::Model;
use std::sync::Wait;
use stopped_threads::{HeldBodies, PollArmer};
use thread_list::Shared;

/// Works on requests. There is one for each `Shared`, which has only one armer. Release all held threads before you
/// drop it: a held body that is dropped with it never comes back, and its thread waits forever.
///
/// Contracts see the held bodies in the order in which they were taken, the armer's numbers, and whether the open
/// census is operated. The coordinator also has room for two lists, which `drive` fills under the desk's lock and reads
/// without it.
#[derive(Drop)]
pub struct Coordinator<'a, N: Name, J: HandshakeOp> {
    pub(crate) shared: &'a Shared<N, J>,
    pub(crate) alloc: Global,
    pub(crate) armer: PollArmer,
    pub(crate) places: usize,
    pub(crate) bodies: HeldBodies<N>,
    pub(crate) operated: bool,
    pub(crate) untold: Vec<PendingJob<J>>,
    pub(crate) due: Vec<Live>,
    /// A bit for each place whose thread had its body when it was armed. The thread comes to a poll, so there is no
    /// need to look into its berth before.
    pub(crate) out: u64,
}

impl<'a, N: Name, J: HandshakeOp> Model for Coordinator<'a, N, J> {
    ghost use Rattle.std.specs.Prelude.{◌≡◌, ◌≤◌, length};
    ghost use Rattle.stopped_threads.specs.Holding.{Holding};

    ghost Value = { Holding };

    ghost view = { λ c. record { held = c.bodies; armer = c.armer.seen; operated = c.operated } };

    ghost invariant = { λ c. (c.armer.table ≡ N.poll_row) × (c.places ≡ length c.armer.seen.armed)
        × (c.places ≡ N.board.places) × (c.places ≤ 64) };
}

impl<'a, N: Name, J: HandshakeOp> Coordinator<'a, N, J> {
    /// Makes a coordinator that holds no body, with the armer of this `Shared`.
    ///
    /// # Errors
    /// Memory is refused, and the armer is returned.
    pub fn new(
        shared: &'a Shared<N, J>,
        armer: Armer,
        alloc: Global,
    ) -> Result<Coordinator<'a, N, J>, Armer>
        requires armer { armer ≡ full_armer N.poll_row N.board.places }
        ensures made { IfOk result (λ c. c ≡ held_nothing N.poll_row N.board.places) }
        ensures handed_back { IfErr result (λ a. a ≡ armer) }
    {
        let places = armer.places(shared.row());
        let Ok(untold) = Vec::with_capacity(alloc, places) else {
            return Err(armer);
        };
        // One more than `places`: a full list means that more threads may be due.
        let Ok(due) = Vec::with_capacity(alloc, places.saturating_add(1)) else {
            return Err(armer);
        };
        let (bodies, teller) = HeldBodies::with_armer(alloc, places, armer)?;
        Ok(Coordinator {
            shared,
            alloc,
            armer: teller,
            places,
            bodies,
            operated: false,
            untold,
            due,
            out: 0,
        })
    }

    /// Opens the oldest waiting request. Returns the operation's number and the receipt of its Open. Refusals in the
    /// order of `OpenFault`.
    pub fn open<R: Wait>(&mut self, rt: &R) -> Result<(u64, Receipt<N>), OpenFault>
        ensures opened { IfOk result (λ r. r.1.entry ≡ Entry.Open r.0) }
        ensures refused { IfErr result (λ e. (s : DeskState) × open_refused s e) }
        ensures same { self.new ≡ self.old }
    {
        let mut desk = self.shared.desk().lock(rt);
        let opened = desk.open()?;
        Ok(opened)
    }

    /// Closes the oldest open request, and drops the jobs of targets that are gone. Returns the operation's number and
    /// the receipt of its Close, which shows that it was the oldest. Refusals in the order of `CloseFault`.
    pub fn close<R: Wait>(&mut self, rt: &R) -> Result<(u64, Closing<N>), CloseFault>
        ensures closed { IfOk result (λ r. (r.1.stands.entry ≡ Entry.Close r.0)
            × MayClose self.old None r.0) }
        ensures oldest { IfOk result (λ r. r.1.oldest ≡ r.0) }
        ensures same { OnOk result (self.new ≡ record self.old { operated = false }) }
        ensures refused { IfErr result (λ e. not_closed self.old None e × (self.new ≡ self.old)) }
    {
        self.close_chosen(rt, None)
    }

    /// Closes the open request of this number, and drops the jobs of targets that are gone. Returns the receipt of its
    /// Close. Refusals in the order of `CloseFault`.
    pub fn close_of<R: Wait>(&mut self, rt: &R, number: u64) -> Result<Closing<N>, CloseFault>
        ensures closed { IfOk result (λ r. (r.stands.entry ≡ Entry.Close number)
            × MayClose self.old (Some number) number) }
        ensures same { OnOk result (self.new ≡ record self.old { operated = false }) }
        ensures refused { IfErr result (λ e. not_closed self.old (Some number) e
            × (self.new ≡ self.old)) }
    {
        let (closed, receipt) = self.close_chosen(rt, Some(number))?;
        let _ = closed;
        Ok(receipt)
    }

    fn close_chosen<R: Wait>(
        &mut self,
        rt: &R,
        number: Option<u64>,
    ) -> Result<(u64, Closing<N>), CloseFault>
        ensures closed { IfOk result (λ r. (r.1.stands.entry ≡ Entry.Close r.0)
            × MayClose self.old number r.0) }
        ensures oldest { number ≡ None → IfOk result (λ r. r.1.oldest ≡ r.0) }
        ensures same { OnOk result (self.new ≡ record self.old { operated = false }) }
        ensures refused { IfErr result (λ e. not_closed self.old number e × (self.new ≡ self.old)) }
    {
        let closed = self.try_close(rt, number)?;
        self.operated = false;
        Ok(closed)
    }

    fn try_close<R: Wait>(
        &self,
        rt: &R,
        number: Option<u64>,
    ) -> Result<(u64, Closing<N>), CloseFault>
        ensures closed { IfOk result (λ r. (r.1.stands.entry ≡ Entry.Close r.0)
            × MayClose self.now number r.0) }
        ensures oldest { number ≡ None → IfOk result (λ r. r.1.oldest ≡ r.0) }
        ensures refused { IfErr result (not_closed self.now number) }
    {
        let mut desk = locked!(self.shared.desk(), rt);
        let closed = match desk.close(number, self.bodies.as_slice()) {
            Ok(closed) => closed,
            Err(fault) => return Err(fault),
        };
        let (op, jobs, receipt) = closed;
        drop(desk);
        drop(jobs);
        Ok((op, receipt))
    }

    // Closes the oldest open request if it is of this kind, and of this number if one is given.
    pub(crate) fn close_kind<R: Wait>(
        &mut self,
        rt: &R,
        kind: Kind,
        number: Option<u64>,
    ) -> Option<Closed<N>>
        ensures closed { IfSome result (λ c. c.shown.stands.entry ≡ Entry.Close c.number) }
        ensures oldest { IfSome result (λ c. WasOldest kind c.number c.shown) }
        ensures numbered { IfSome result (λ c. IfSome number (λ n. c.number ≡ n)) }
        ensures same { OnSome result (self.new ≡ record self.old { operated = false }) }
        ensures open { IfNone result (self.new ≡ self.old) }
    {
        let closed = self.try_close_kind(rt, kind, number)?;
        self.operated = false;
        Some(closed)
    }

    fn try_close_kind<R: Wait>(&self, rt: &R, kind: Kind, number: Option<u64>) -> Option<Closed<N>>
        ensures closed { IfSome result (λ c. c.shown.stands.entry ≡ Entry.Close c.number) }
        ensures oldest { IfSome result (λ c. WasOldest kind c.number c.shown) }
        ensures numbered { IfSome result (λ c. IfSome number (λ n. c.number ≡ n)) }
    {
        let mut desk = locked!(self.shared.desk(), rt);
        let closed = match Closed::close(&mut desk, self.bodies.as_slice(), kind, number) {
            Some(closed) => closed,
            None => return None,
        };
        let (closed, jobs) = closed;
        drop(desk);
        drop(jobs);
        Some(closed)
    }
}
