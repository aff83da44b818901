//! Arms a thread by its name: puts its job, or the mark of a census, into its room, and arms its place.
ghost use Rattle.std.specs.Prelude.{◌≡◌, ◌<◌, ◌≤◌, None, slice_index, IfSome, IfNone, IfOk, IfErr, OnSome};
ghost use Rattle.thread_state.specs.PollRule.{armed_with};
ghost use Rattle.berths.specs.Berths.{acted};
ghost use Rattle.desk.specs.declared.entries.Target.{Target as TargetOf};
ghost use Rattle.desk.specs.Fields.{at};
ghost use Rattle.stopped_threads.specs.Refused.{IsAsked, IsUntold, tell_stays, told_act};
ghost use Rattle.coordinator_core.specs.Putting.{at_hand, CameFrom, HasNoJob, IsPut, IsNotPut, PutsIn};

use crate::coordinator::CoordinatorCore;
use crate::listing::PendingOp;
use berths::{BerthReceipt, Room};
use bodies::Name;
use desk::Desk;
use frames::LAST;
use operations::Kind;
use operations::job::HandshakeOp;
use poll::PollRow;
use stopped_threads::{Found, TellFault, Told, look_up};

// The operation's job for the name: the one in hand or, with none in hand, the desk's. Another job stays in hand.
fn job_in<N: Name, J: HandshakeOp>(
    desk: &mut Desk<N, J>,
    untold: &PendingOp,
    hand: &mut Option<J>,
) -> Option<J>
    ensures job { IfSome result
        (λ j. (J.whom j ≡ untold.now.name) × (J.number j ≡ untold.now.number)) }
    ensures from { IfSome result
        (λ j. CameFrom untold.now.number untold.now.name (at_hand desk.old hand.old) desk.new j) }
    ensures gone { OnSome result (hand.new ≡ None) }
    ensures none { IfNone result
        (HasNoJob J.number J.whom untold.now.number untold.now.name (at_hand desk.old hand.old)
        (at_hand desk.new hand.new)) }
    ensures same { (desk.new.book ≡ desk.old.book) × (desk.new.keeper ≡ desk.old.keeper) }
{
    match hand.take() {
        None => desk.take_job(untold.number, untold.name),
        Some(job) => {
            if job.op_of() == untold.number && job.target_of() == untold.name {
                return Some(job);
            }
            *hand = Some(job);
            None
        }
    }
}

impl<N: Name> CoordinatorCore<N> {
    /// Finds the oldest open request to arm the named thread for. None if the desk names a place that doesn't exist.
    /// The error is the result of `tell` if nothing is to be armed.
    pub fn look_up<J: HandshakeOp>(
        &self,
        desk: &Desk<N, J>,
        name: u64,
    ) -> Result<Option<PendingOp>, Result<Told<N>, TellFault>>
        ensures said { IfErr result (tell_stays (at desk.now) name self.now.armer) }
        ensures untold { IfOk result
            (λ o. IfSome o
            (λ t. (t.name ≡ name) × IsUntold (at desk.now) name self.now.armer t.target t.number)) }
        ensures bounds { IfOk result
            (λ o. IfSome o
            (λ t. (t.target.place < N.board.places)
            × (slice_index self.now.armer.armed t.target.place < t.number))) }
        ensures no_place { IfOk result
            (λ o. IfNone o ((t : TargetOf) × IsAsked (at desk.now) name t
            × (N.board.places ≤ t.place))) }
    {
        match look_up(desk, &self.armer, self.places, name) {
            Found::Untold(target, number) => Ok(Some(PendingOp {
                name,
                target,
                number,
                last: self.armer.last(target.place),
            })),
            Found::NoPlace => Ok(None),
            Found::Said(said) => Err(said),
        }
    }

    /// Puts the job of the found request, or the mark of the census, into its room, and arms the place. Returns the
    /// receipt of the job or mark. None if the room doesn't bear the name, or the job is missing or has no room:
    /// nothing is armed. A job that came out of the desk and has no room stays in hand, and the next call for it uses
    /// it.
    pub fn put<J: HandshakeOp>(
        &mut self,
        desk: &mut Desk<N, J>,
        room: &mut Room<N, J>,
        row: &PollRow,
        untold: &PendingOp,
        hand: &mut Option<J>,
    ) -> Option<BerthReceipt<N>>
        requires row { row.now ≡ N.poll_row }
        requires place { untold.now.target.place < N.board.places }
        requires later { slice_index self.old.armer.armed untold.now.target.place <
            untold.now.number }

        ensures armed { OnSome result (self.new.armer
            ≡ armed_with self.old.armer untold.now.target.place untold.now.number) }
        ensures receipt { IfSome result
            (λ r. r
            ≡ acted untold.now.target.place untold.now.name
            (told_act untold.now.target.kind untold.now.number)) }
        ensures there { OnSome result
            (PutsIn untold.now.target.kind untold.now.number untold.now.name room.old room.new) }

        ensures refused { IfNone result ((self.new ≡ self.old) × (room.new ≡ room.old)) }
        ensures why { IfNone result
            (IsNotPut J.number J.whom untold.now.target.kind untold.now.number untold.now.name
            untold.now.target.place room.old (at_hand desk.old hand.old)
            (at_hand desk.new hand.new)) }
        ensures hand { OnSome result
            (IsPut J.number J.whom untold.now.target.kind untold.now.number untold.now.name
            (at_hand desk.old hand.old) (at_hand desk.new hand.new)) }
        ensures held { (self.new.held ≡ self.old.held) × (self.new.operated ≡ self.old.operated) }
        ensures book { (desk.new.book ≡ desk.old.book) × (desk.new.keeper ≡ desk.old.keeper) }
    {
        let place = untold.target.place;
        if room.place() != place || untold.number > LAST || room.name() != untold.name {
            return None;
        }
        let job = match untold.target.kind {
            Kind::Census => return self.armer.mark(room, row, untold.name, untold.number),
            Kind::Handshake => job_in(desk, untold, hand)?,
        };
        match self.armer.tell(room, row, job) {
            Ok(receipt) => Some(receipt),
            Err(back) => {
                *hand = Some(back);
                None
            }
        }
    }
}
