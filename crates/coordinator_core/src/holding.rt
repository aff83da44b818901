//! Holding, serving and releasing threads.
ghost use Rattle.std.specs.Prelude.{◌≡◌, ◌≢◌, ◌<◌, ◌++◌, ◌∷◌, [], false, None, Some, length, slice_index, IfSome, IfNone, IfOk, IfErr, ℕ};
ghost use Rattle.bodies.specs.Bodies.{BodyView};
ghost use Rattle.berths.specs.declared.room.Holder.TheVariants.{Out as IsOut};
ghost use Rattle.desk.specs.declared.entries.Entry.{Entry as EntryOf};
ghost use Rattle.desk.specs.Fields.{at, Enters};
ghost use Rattle.desk.specs.Targets.{progress};
ghost use Rattle.desk.specs.declared.entries.Progress.TheVariants.{Undone as IsUndone};
ghost use Rattle.stopped_threads.specs.Held.{is_held, StandsAt};
ghost use Rattle.stopped_threads.specs.Refused.{In, HoldsBy, MayHoldBy, hold_fault, hold_refused_by, Withholds, HasNoHeldBy, IsServeFaultBy, serve_refused_by};
ghost use Rattle.stopped_threads.specs.Serves.{Runs};
ghost use Rattle.coordinator_core.specs.Done.{Releases, IsElsewhere, Leaves, ServesBy, IsUnserved};

use crate::coordinator::CoordinatorCore;
use berths::{BodyReceipt, Room};
use board::Board;
use bodies::Name;
use desk::{Desk, Finished, Progress, Standing};
use operations::job::HandshakeOp;
use poll::PollRow;
use stopped_threads::{HoldFault, ReleaseFault, ServeFault, Unserved, serve_fault_of, unserved};

// Why a thread isn't held, by its standing and a progress that isn't `Undone`.
fn refusal(said: Standing, progress: Progress) -> HoldFault
    requires { (n : ℕ) → progress ≢ IsUndone n }
    ensures { hold_fault said progress ≡ Some result }
{
    match said {
        Standing::NothingOpen => HoldFault::NothingOpen,
        Standing::NotOf => HoldFault::NotOf,
        Standing::Gone => HoldFault::NotTold,
        Standing::Asked(_) => match progress {
            Progress::NotTold => HoldFault::NotTold,
            Progress::Done => HoldFault::AlreadyDone,
            Progress::Undone(_) => unreachable!(),
        },
    }
}

impl<N: Name> CoordinatorCore<N> {
    /// Holds the thread of a place that was armed for an open request and isn't done with it: takes its body out of its
    /// room. Returns the number of the oldest operation that the thread owes, and the receipt that the body came out.
    /// Refusals in the order of `HoldFault`.
    pub fn hold<J: HandshakeOp>(
        &mut self,
        desk: &Desk<N, J>,
        room: &mut Room<N, J>,
        place: usize,
    ) -> Result<(u64, BodyReceipt<N>), HoldFault>
        ensures held { IfOk result (λ r. HoldsBy (In (at desk.now)) self.old self.new place r.1) }
        ensures number { IfOk result
            (λ r. progress (at desk.now) r.1.body.name (slice_index self.old.armer.armed place)
            ≡ IsUndone r.0) }
        ensures refused { IfErr result
            (λ e. hold_refused_by (In (at desk.now)) self.old N.board.places place e
            × (self.new ≡ self.old)) }
        ensures withheld { IfErr result
            (λ e. e ≡ HoldFault.NotSafe → (name : ℕ)
            × MayHoldBy (In (at desk.now)) self.old place name × Withholds room.old name place) }
        ensures same { IfErr result (λ e. room.new ≡ room.old) }
    {
        let (name, number) = match self.holdable(desk, place) {
            Ok(found) => found,
            Err(fault) => return Err(fault),
        };
        match self.bodies.hold_from(room, name, place) {
            Ok(taken) => Ok((number, taken)),
            Err(_) => Err(HoldFault::NotSafe),
        }
    }

    // The name of the thread at the place, if the desk lets it be held and it isn't held, and the number of the oldest
    // operation that it owes; or the refusal.
    #[tactic(auto, using(crate::proofs::Owing::owes))]
    fn holdable<J: HandshakeOp>(
        &self,
        desk: &Desk<N, J>,
        place: usize,
    ) -> Result<(u64, u64), HoldFault>
        ensures may { IfOk result
            (λ r. (place < N.board.places) × MayHoldBy (In (at desk.now)) self.now place r.0) }
        ensures number { IfOk result
            (λ r. progress (at desk.now) r.0 (slice_index self.now.armer.armed place)
            ≡ IsUndone r.1) }
        ensures refused { IfErr result
            (λ e. hold_refused_by (In (at desk.now)) self.now N.board.places place e
            × (e ≢ HoldFault.NotSafe)) }
    {
        if place >= self.places {
            return Err(HoldFault::NoSuchPlace);
        }
        let last = self.armer.last(place);
        let Some(name) = desk.name_at(place) else {
            return Err(HoldFault::Vacant);
        };
        // A thread that owes a request is its target, so only other threads need their standing.
        let progress = desk.progress(name, last);
        match progress {
            Progress::Undone(_) if self.bodies.has(place) => Err(HoldFault::Held),
            Progress::Undone(number) => Ok((name, number)),
            Progress::Done | Progress::NotTold => Err(refusal(desk.standing(name), progress)),
        }
    }

    /// Returns why a place has no held thread.
    pub fn unheld<J: HandshakeOp>(&self, desk: &Desk<N, J>, place: usize) -> ReleaseFault
        ensures { HasNoHeldBy (In (at desk.now)) N.board.places place result }
    {
        if place >= self.places {
            return ReleaseFault::NoSuchPlace;
        }
        match desk.name_at(place) {
            None => ReleaseFault::Vacant,
            Some(_) => ReleaseFault::NotHeld,
        }
    }

    /// Puts the held body of a place back into its room, and returns the receipt. None if the body didn't come out of
    /// the lent room: nothing is done. Refusals in the order of `ReleaseFault`.
    pub fn release<J: HandshakeOp>(
        &mut self,
        desk: &Desk<N, J>,
        room: &mut Room<N, J>,
        place: usize,
    ) -> Result<Option<BodyReceipt<N>>, ReleaseFault>
        ensures released { IfOk result (λ o. IfSome o (Releases self.old self.new place)) }
        ensures again { IfOk result
            (λ o. IfNone o ((self.new ≡ self.old) × (room.new ≡ room.old))) }
        ensures elsewhere { IfOk result (λ o. IfNone o (IsElsewhere self.old place room.old)) }
        ensures refused { IfErr result
            (λ e. (is_held place self.old.held ≡ false)
            × HasNoHeldBy (In (at desk.now)) N.board.places place e × (self.new ≡ self.old)
            × (room.new ≡ room.old)) }
    {
        match self.release_held(room, place) {
            Some(released) => Ok(released),
            None => Err(self.unheld(desk, place)),
        }
    }

    /// Releases a thread as `release` does, without the desk. None if no thread of the place is held: `unheld` returns
    /// why.
    #[inline(always)]
    pub fn release_held<J: HandshakeOp>(
        &mut self,
        room: &mut Room<N, J>,
        place: usize,
    ) -> Option<Option<BodyReceipt<N>>>
        ensures released { IfSome result (λ o. IfSome o (Releases self.old self.new place)) }
        ensures again { IfSome result
            (λ o. IfNone o ((self.new ≡ self.old) × (room.new ≡ room.old))) }
        ensures elsewhere { IfSome result (λ o. IfNone o (IsElsewhere self.old place room.old)) }
        ensures refused { IfNone result ((is_held place self.old.held ≡ false)
            × (self.new ≡ self.old) × (room.new ≡ room.old)) }
    {
        let index = self.bodies.index_of(place)?;
        Some(self.bodies.release_into(index, room, self.operated))
    }

    /// Serves the held thread of a place that was armed for an open handshake and isn't done with it: publishes its
    /// stack, runs its oldest job, enters the job's reply, and clears the operation. Returns the operation's number and
    /// the receipt of the Finish.
    ///
    /// # Errors
    /// The outer error is a refusal, in the order of `ServeFault`. The inner one is `NoJob`, or `NotEntered` if the
    /// desk refuses the reply.
    pub fn serve<J: HandshakeOp>(
        &mut self,
        desk: &mut Desk<N, J>,
        room: &mut Room<N, J>,
        board: &Board,
        row: &PollRow,
        place: usize,
    ) -> Result<Result<(u64, Finished<N>), Unserved>, ServeFault>
        requires board { board.now ≡ N.board }
        requires row { row.now ≡ N.poll_row }

        ensures served { IfOk result
            (λ r. IfOk r (λ f. ServesBy (In (at desk.old)) self.old self.new place f.0 f.1)) }
        ensures entered { IfOk result
            (λ r. IfOk r (λ f. (e : EntryOf) × Enters desk.old desk.new e f.1.stands)) }
        ensures ran { IfOk result
            (λ r. IfOk r
            (λ f. Runs J.number J.whom J.asks J.may_answer f.0 f.1.ask f.1.body room.old
            room.new)) }
        ensures left { IfOk result
            (λ r. IfErr r
            (Leaves J.number J.whom J.asks J.may_answer self.old self.new place room.old
            room.new)) }
        ensures unserved { IfOk result
            (λ r. IfErr r
            (λ e. IsUnserved (at desk.old) self.old place room.old e × (desk.new ≡ desk.old))) }

        ensures refused { IfErr result
            (λ e. serve_refused_by (In (at desk.old)) self.old N.board.places place e
            × (self.new ≡ self.old) × (desk.new ≡ desk.old) × (room.new ≡ room.old)) }
        ensures others { (self.new.armer ≡ self.old.armer)
            × (self.new.operated ≡ self.old.operated) }
    {
        let Some(index) = self.bodies.index_of(place) else {
            return Err(unserved(self.unheld(desk, place)));
        };
        if let Some(fault) = self.serve_refusal(desk, index, place) {
            return Err(fault);
        }
        Ok(self.bodies.serve_lent(index, room, desk, board, row))
    }

    // Why the held thread at this index and place isn't served.
    fn serve_refusal<J: HandshakeOp>(
        &self,
        desk: &Desk<N, J>,
        index: usize,
        place: usize,
    ) -> Option<ServeFault>
        requires index { index < length self.now.held }
        requires place { place < N.board.places }
        ensures { IsServeFaultBy (In (at desk.now)) self.now index place result }
    {
        let name = self.bodies.as_slice()[index].name();
        let last = self.armer.last(place);
        serve_fault_of(desk, name, last)
    }
}
