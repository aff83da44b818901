//! Works on one request from its Open to its Close: how it begins, and how all held bodies go back.
ghost use Rattle.std.specs.Prelude.{◌≡◌, [], Some, IfOk, OnOk, IfErr, IfSome, IfNone, OnSome, false, length};
ghost use Rattle.desk.specs.declared.entries.Entry.{Entry};
ghost use Rattle.desk.specs.Machine.{State as DeskState};
ghost use Rattle.desk.specs.Fields.{at};
ghost use Rattle.desk.specs.Targets.{open_kind};
ghost use Rattle.stopped_threads.specs.Holding.{ArmsOn};
ghost use Rattle.coordinator.specs.Driving.{number_of, IsWorked, IsListed, drive_refused};
ghost use Rattle.coordinator_core.specs.Telling.{IsListing};

use crate::all_armed::AllArmed;
use crate::closed::Worked;
use crate::coordinator::Coordinator;
use crate::faults::{DriveFault, Driven};
use berths::{Unwoken, locked};
use bodies::Name;
use coordinator_core::{Listed, open_or_go_on};
use operations::Kind;
use operations::job::HandshakeOp;
use std::sync::Wait;
use stopped_threads::HeldBodies;
use thread_list::Shared;

impl<'a, N: Name, J: HandshakeOp> Coordinator<'a, N, J> {
    /// Works on the oldest open request or, if none is open, on the oldest waiting one, until it is closed. It arms all
    /// targets before it serves any, and in a handshake holds one thread at a time. Returns the request, with the
    /// receipts that show it: of its Close and, for a census, of its Operate. Nothing is held then.
    /// If several requests are open, it arms the targets of all and closes only the oldest. No place's last armed
    /// number falls.
    ///
    /// If the caller has operated the census, the list is over the threads that are still held, and the caller has the
    /// receipt of the Operate.
    ///
    /// # Errors
    /// `QueueEmpty`, then `NoMemory`. After `NoMemory` the census stays open, its threads stay armed and held, and the
    /// next `drive` continues with it.
    pub fn drive<R: Wait>(&mut self, rt: &R) -> Result<(Driven, Worked<N>), DriveFault>
        ensures closed { IfOk result (λ r.
            r.1.closing.stands.entry ≡ Entry.Close (number_of r.0)) }
        ensures worked { IfOk result (λ r. IsWorked r.0 r.1.closing) }
        ensures listed { IfOk result (λ r. IsListed self.old r.0 r.1) }
        ensures free { OnOk result ((self.new.held ≡ []) × (self.new.operated ≡ false)) }

        ensures refused { IfErr result (drive_refused self.old self.new) }
        ensures arms { ArmsOn self.old.armer self.new.armer }
    {
        let Some((kind, told)) = self.begin(rt) else {
            return Err(DriveFault::QueueEmpty);
        };
        match kind {
            Kind::Census => self.drive_census(rt),
            Kind::Handshake => Ok(self.drive_handshake(rt, told)),
        }
    }

    // Opens the oldest waiting request if none is open, and arms all targets of the open requests. Returns their kind.
    // None if no request is open or waits.
    #[inline(always)]
    pub(crate) fn begin<R: Wait>(&mut self, rt: &R) -> Option<(Kind, AllArmed<N, J>)>
        ensures empty { IfNone result ((self.new ≡ self.old)
            × ((s : DeskState) × (s.opened ≡ []) × (s.waiting ≡ []))) }
        ensures held { (self.new.held ≡ self.old.held) × (self.new.operated ≡ self.old.operated) }
        ensures arms { ArmsOn self.old.armer self.new.armer }
    {
        let (kind, listed) = self.open_listed(rt)?;
        Some((kind, self.tell_on(rt, listed)))
    }

    // Opens the oldest waiting request if none is open, and lists the pending operations under the same hold of the
    // desk's lock. Returns the kind of the open requests, and the list.
    fn open_listed<R: Wait>(&mut self, rt: &R) -> Option<(Kind, Listed<N, J>)>
        ensures places { OnSome result (length self.new.armer.armed ≡ N.board.places) }
        ensures listed { IfSome result (λ r. IsListing self.new.armer r.1) }
        ensures kind { IfSome result (λ r. open_kind (at r.1.seen) ≡ Some r.0) }
        ensures empty { IfNone result ((s : DeskState) × (s.opened ≡ []) × (s.waiting ≡ [])) }
        ensures same { self.new ≡ self.old }
    {
        let mut desk = locked!(self.shared.desk(), rt);
        let Some(kind) = open_or_go_on(&mut desk) else {
            return None;
        };
        Some((kind, self.list_from(&mut desk)))
    }

    // Lists the threads that are due for an open request, or only for the oldest, under one hold of the desk's lock.
    pub(crate) fn list_due<R: Wait>(&mut self, rt: &R, of_oldest: bool)
        ensures { self.new ≡ self.old }
    {
        self.due.clear();
        let desk = self.shared.desk().lock(rt);
        desk.list_due(of_oldest, &mut self.due);
    }

    // Puts all held bodies back. At the start of a handshake there are mostly none, and nothing is called.
    pub(crate) fn release_all<R: Wait>(&mut self, rt: &R)
        ensures { self.new ≡ record self.old { held = [] } }
    {
        if self.bodies.as_slice().is_empty() {
            return;
        }
        let unwoken = put_back(rt, self.shared, &mut self.bodies, self.operated);
        self.shared.wake(unwoken);
    }
}

/// Puts the bodies back into their berths, but wakes nobody yet: a woken thread may take this very processor. Returns
/// the threads that wait at these berths.
pub fn put_back<N: Name, J: HandshakeOp, R: Wait>(
    rt: &R,
    shared: &Shared<N, J>,
    bodies: &mut HeldBodies<N>,
    operated: bool,
) -> Unwoken<N>
    ensures { bodies.new ≡ [] }
{
    let mut unwoken = Unwoken::nobody();
    while let Some(body) = bodies.take_last() {
        let place = body.place();
        let (_receipt, waiters) = body.back_quietly(rt, shared, operated);
        unwoken.add(place, waiters);
    }
    unwoken
}
