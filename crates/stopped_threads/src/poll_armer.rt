//! Arms the poll of a target thread, after its job or a census's mark is in its berth. It has a module of its own, so that no
//! other code can arm a place.
ghost use Rattle.std.specs.Prelude.{◌≡◌, ◌≢◌, ◌<◌, ◌≤◌, ◌^◌, ◌++◌, ◌∷◌, [], length, slice_index, IfErr, IfOk, IfNone, IfSome, OnErr, OnOk, OnSome};
ghost use Rattle.thread_state.specs.PollRule.{armed_with};
ghost use Rattle.berths.specs.Berths.{acted, name_of, told_of};

use crate::arms::Arms;
use berths::{BerthAct, BerthReceipt, Room};
use bodies::Name;
use operations::job::HandshakeOp;
use poll::{Armer, PollRow};
use std::marker::Model;

/// The armer. It arms a place only after it has put a job or a census's mark into the place's berth. Contracts see the armer.
#[derive(Drop)]
pub struct PollArmer {
    arms: Arms,
}

impl Model for PollArmer {
    ghost use Rattle.poll.specs.Rows.{ArmerSeen};

    ghost Value = { ArmerSeen };

    ghost view = { λ t. t.arms };
}

impl PollArmer {
    /// Made from the one armer, together with the bodies of held threads.
    pub(crate) fn new(armer: Armer) -> PollArmer
        ensures { result ≡ armer }
    {
        PollArmer {
            arms: Arms::new(armer),
        }
    }

    /// The number that the place was last armed with, 0 at first.
    pub fn last(&self, place: usize) -> u64
        requires place { place < length self.now.seen.armed }
        ensures { result ≡ slice_index self.now.seen.armed place }
    {
        self.arms.last(place)
    }

    /// Puts a job into its target's berth, and then arms the place with the job's number. Returns the receipt that the job is in
    /// the berth. If the berth refuses the job, nothing is armed and the job is handed back.
    #[inline(always)]
    pub fn tell<N: Name, J: HandshakeOp>(
        &mut self,
        room: &mut Room<N, J>,
        row: &PollRow,
        job: J,
    ) -> Result<BerthReceipt<N>, J>
        requires row { self.old.table ≡ row.now }
        requires place { room.old.place < length self.old.seen.armed }
        requires later { slice_index self.old.seen.armed room.old.place < J.number job }
        requires small { J.number job < 2 ^ 40 }

        ensures receipt { IfOk result (λ r.
            r ≡ acted room.old.place (J.whom job) (BerthAct.Told (J.number job))) }
        ensures told { OnOk result ((name_of room.old.holder ≡ J.whom job)
            × (room.new
            ≡ record room.old { jobs = room.old.jobs ++ told_of J.number J.whom job ∷ [] })) }
        ensures armed { OnOk result
            (self.new.seen ≡ armed_with self.old.seen room.old.place (J.number job)) }
        ensures row { self.new.table ≡ self.old.table }

        ensures refused { IfErr result (λ j. (j ≡ job) × (room.new ≡ room.old)
            × (self.new ≡ self.old)) }
        ensures full { OnErr result (0 < J.whom job → name_of room.old.holder ≡ J.whom job
            → room.old.room ≤ length room.old.jobs) }
    {
        let number = job.op_of();
        let place = room.place();
        let receipt = room.tell(job)?;
        self.arms.arm(row, place, number, &receipt);
        Ok(receipt)
    }

    /// Marks the named thread's berth with a census's number, and then arms the place with that number. Returns the receipt of
    /// the mark. If the berth bears another name or none, nothing is armed.
    pub fn mark<N: Name, J: HandshakeOp>(
        &mut self,
        room: &mut Room<N, J>,
        row: &PollRow,
        name: u64,
        number: u64,
    ) -> Option<BerthReceipt<N>>
        requires row { self.old.table ≡ row.now }
        requires place { room.old.place < length self.old.seen.armed }
        requires later { slice_index self.old.seen.armed room.old.place < number }
        requires small { number < 2 ^ 40 }

        ensures receipt { IfSome result (λ r.
            r ≡ acted room.old.place name (BerthAct.Marked number)) }
        ensures told { OnSome result ((name_of room.old.holder ≡ name)
            × (room.new ≡ record room.old { mark = number })) }
        ensures armed { OnSome result
            (self.new.seen ≡ armed_with self.old.seen room.old.place number) }
        ensures row { self.new.table ≡ self.old.table }

        ensures refused { IfNone result ((room.new ≡ room.old) × (self.new ≡ self.old)) }
        ensures other { IfNone result (0 < name → name_of room.old.holder ≢ name) }
    {
        let receipt = room.mark(name, number)?;
        let at = room.place();
        self.arms.arm(row, at, number, &receipt);
        Some(receipt)
    }
}
