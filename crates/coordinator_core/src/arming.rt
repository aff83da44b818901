//! Puts a pending job or census mark into a thread's room, and arms the thread's place.
ghost use Rattle.std.specs.Prelude.{◌≡◌, ◌<◌, length, slice_index, IfSome, IfNone, OnSome};
ghost use Rattle.thread_state.specs.PollRule.{armed_with};
ghost use Rattle.berths.specs.Berths.{acted};
ghost use Rattle.stopped_threads.specs.Refused.{told_act};
ghost use Rattle.coordinator_core.specs.Putting.{PutsIn};

use crate::listing::PendingJob;
use berths::{BerthReceipt, Room};
use bodies::Name;
use frames::LAST;
use operations::Kind;
use operations::job::HandshakeOp;
use poll::PollRow;
use stopped_threads::PollArmer;

/// Puts the job, or the mark of the census, into the room, and arms its place. Returns the receipt of the job or mark.
/// None if the room doesn't bear the name, the place was armed meanwhile, or the job is missing or has no room: nothing
/// is done.
#[inline(always)]
pub fn put_in<N: Name, J: HandshakeOp>(
    armer: &mut PollArmer,
    places: usize,
    room: &mut Room<N, J>,
    row: &PollRow,
    pending: &mut PendingJob<J>,
) -> Option<BerthReceipt<N>>
    requires row { armer.old.table ≡ row.now }
    requires places { places ≡ length armer.old.seen.armed }

    ensures armed { OnSome result (armer.new.seen
        ≡ armed_with armer.old.seen pending.old.what.target.place pending.old.what.number) }
    ensures as_found { OnSome result ((pending.old.what.target.place < places)
        × (slice_index armer.old.seen.armed pending.old.what.target.place ≡ pending.old.what.last)
        × (pending.old.what.last < pending.old.what.number)) }
    ensures receipt { IfSome result
        (λ r. r
        ≡ acted pending.old.what.target.place pending.old.what.name
        (told_act pending.old.what.target.kind pending.old.what.number)) }
    ensures there { OnSome result
        (PutsIn pending.old.what.target.kind pending.old.what.number pending.old.what.name room.old
        room.new) }
    ensures table { armer.new.table ≡ armer.old.table }
    ensures what { pending.new.what ≡ pending.old.what }

    ensures refused { IfNone result ((armer.new ≡ armer.old) × (room.new ≡ room.old)
        × (pending.new ≡ pending.old)) }
{
    let what = pending.what;
    let place = what.target.place;
    if place >= places
        || armer.last(place) != what.last
        || what.last >= what.number
        || what.number > LAST
        || room.place() != place
        || room.name() != what.name
    {
        return None;
    }
    if what.target.kind == Kind::Census {
        return armer.mark(room, row, what.name, what.number);
    }
    let job = pending.job.take()?;
    if job.op_of() != what.number || job.target_of() != what.name {
        pending.job = Some(job);
        return None;
    }
    match armer.tell(room, row, job) {
        Ok(receipt) => Some(receipt),
        Err(back) => {
            pending.job = Some(back);
            None
        }
    }
}
