//! Holds a thread, by taking its body out of its berth, and releases it.
ghost use Rattle.std.specs.Prelude.{◌≡◌, ◌≢◌, ◌<◌, ◌++◌, ◌∷◌, [], false, IfSome, IfNone, IfOk, IfErr};
ghost use Rattle.berths.specs.Berths.{Went, acted};
ghost use Rattle.stopped_threads.specs.Held.{is_held};
ghost use Rattle.stopped_threads.specs.Refused.{Holds, hold_refused, MayHold, HasNoHeld};
ghost use Rattle.coordinator.specs.Receipts.{Releases};
ghost use Rattle.coordinator.specs.Refused.{IsUnheld};

use crate::coordinator::Coordinator;
use berths::{BerthAct, BerthReceipt, BodyAct, BodyReceipt};
use bodies::Name;
use operations::job::HandshakeOp;
use std::sync::Wait;
use stopped_threads::{HoldFault, ReleaseFault, hold_fault_at};

/// Why a thread isn't held: a fault that was found first, or the receipt that its body isn't in its berth, so that it
/// isn't safe.
#[derive(Drop)]
pub enum Unheld<N: Name> {
    Fault(HoldFault),
    NotSafe(BerthReceipt<N>),
}

impl<'a, N: Name, J: HandshakeOp> Coordinator<'a, N, J> {
    /// Holds the thread of a place that was armed for an open request and isn't done with it: takes its body out of its
    /// berth. Returns the receipt of that. Refusals in the order of `HoldFault`.
    pub fn hold<R: Wait>(&mut self, rt: &R, place: usize) -> Result<BodyReceipt<N>, HoldFault>
        ensures held { IfOk result (Holds self.old self.new place) }
        ensures refused { IfErr result (λ e. hold_refused self.old N.board.places place e
            × (self.new ≡ self.old)) }
    {
        match self.take_safe(rt, place) {
            Ok(taken) => Ok(taken),
            Err(Unheld::Fault(fault)) => Err(fault),
            Err(Unheld::NotSafe(_)) => Err(HoldFault::NotSafe),
        }
    }

    // Holds the thread, or returns its berth's receipt if it isn't safe. The berth's lock is taken after the desk's. If
    // the thread got done between the two, its berth has no job or mark, and the desk is asked again.
    fn take_safe<R: Wait>(&mut self, rt: &R, place: usize) -> Result<BodyReceipt<N>, Unheld<N>>
        ensures held { IfOk result (Holds self.old self.new place) }
        ensures refused { IfErr result (λ e. IsUnheld self.old N.board.places place e
            × (self.new ≡ self.old)) }
    {
        for _ in rt.forever() {
            if let Some(said) = self.try_take(rt, place) {
                return said;
            }
        }
        unreachable!()
    }

    // One try. None if the body is in its berth, without a job or mark.
    fn try_take<R: Wait>(
        &mut self,
        rt: &R,
        place: usize,
    ) -> Option<Result<BodyReceipt<N>, Unheld<N>>>
        ensures held { IfSome result (λ r. IfOk r (Holds self.old self.new place)) }
        ensures refused { IfSome result (λ r.
            IfErr r (λ e. IsUnheld self.old N.board.places place e × (self.new ≡ self.old))) }
        ensures again { IfNone result (self.new ≡ self.old) }
    {
        let name = match self.holdable(rt, place) {
            Ok(name) => name,
            Err(fault) => return Some(Err(Unheld::Fault(fault))),
        };
        match self.hold_here(rt, name, place) {
            Ok(taken) => Some(Ok(taken)),
            Err(left) => match left.act() {
                BerthAct::Absent => Some(Err(Unheld::NotSafe(left))),
                _ => None,
            },
        }
    }

    // Holds the named thread if its body is in its berth, with a job or mark. The error is the berth's receipt.
    #[inline(always)]
    pub(crate) fn hold_here<R: Wait>(
        &mut self,
        rt: &R,
        name: u64,
        place: usize,
    ) -> Result<BodyReceipt<N>, BerthReceipt<N>>
        requires place { place < N.board.places }
        requires apart { is_held place self.old.held ≡ false }
        ensures held { IfOk result (λ r. Went place name BodyAct.Held r
            × (self.new ≡ record self.old { held = self.old.held ++ r.body ∷ [] })) }
        ensures left { IfErr result (λ r. (r ≡ acted place name r.act) × (self.new ≡ self.old)) }
    {
        self.bodies.hold(rt, self.shared, name, place)
    }

    // The name of the thread at the place, if the desk lets it be held and it isn't held; or the refusal.
    fn holdable<R: Wait>(&self, rt: &R, place: usize) -> Result<u64, HoldFault>
        ensures may { IfOk result (λ name. (place < N.board.places) × MayHold self.now place name) }
        ensures refused { IfErr result (λ e. hold_refused self.now N.board.places place e
            × (e ≢ HoldFault.NotSafe)) }
    {
        if place >= self.places {
            return Err(HoldFault::NoSuchPlace);
        }
        let last = self.armer.last(place);
        let desk = self.shared.desk().lock(rt);
        let found = hold_fault_at(&desk, place, last);
        drop(desk);
        let Some((name, fault)) = found else {
            return Err(HoldFault::Vacant);
        };
        if let Some(fault) = fault {
            return Err(fault);
        }
        if self.bodies.has(place) {
            return Err(HoldFault::Held);
        }
        Ok(name)
    }

    // Why a place has no held thread.
    pub(crate) fn unheld<R: Wait>(&self, rt: &R, place: usize) -> ReleaseFault
        ensures { HasNoHeld N.board.places place result }
    {
        if place >= self.places {
            return ReleaseFault::NoSuchPlace;
        }
        let desk = self.shared.desk().lock(rt);
        let found = desk.name_at(place);
        drop(desk);
        match found {
            None => ReleaseFault::Vacant,
            Some(_) => ReleaseFault::NotHeld,
        }
    }

    /// Puts the body of a held thread back into its berth, and returns the receipt. Refusals in the order of
    /// `ReleaseFault`.
    pub fn release<R: Wait>(&mut self, rt: &R, place: usize) -> Result<BodyReceipt<N>, ReleaseFault>
        ensures released { IfOk result (Releases self.old self.new place) }
        ensures refused { IfErr result (λ e. (is_held place self.old.held ≡ false)
            × HasNoHeld N.board.places place e × (self.new ≡ self.old)) }
    {
        let Some(index) = self.bodies.index_of(place) else {
            return Err(self.unheld(rt, place));
        };
        let body = self.bodies.take(index);
        Ok(body.back(rt, self.shared, self.operated))
    }
}
