// Which threads the open operations may be told to, and the arming of a thread's poll.
ghost use Rattle.std.specs.Prelude.{◌≡◌, ◌<◌, IfSome, IfNone, false, Some, slice_get, slice_set, length};
ghost use Rattle.std.specs.List.{list_any};
ghost use Rattle.system.specs.declared.thread.Thread.{Thread as TheThread};
ghost use Rattle.system.specs.Kept.Threads.{kept_told};
ghost use Rattle.system.specs.Kept.Tells.{is_named_at, may_tell_any, answer_told};

use crate::answers::Answer;
use crate::requests::Open;
use crate::thread::Thread;

/// Returns whether one of the operations may be told to the thread, after `names` names were given out.
pub fn may_tell_any(operations: &[Open], name: u64, names: u64) -> bool
    ensures { result ≡ may_tell_any names operations.now name }
{
    operations.iter().any(|open| open.may_tell(name, names))
}

fn is_named_at(name: u64, place: &Option<Thread>) -> bool
    ensures { result ≡ is_named_at name place.now }
{
    match place {
        None => false,
        Some(thread) => thread.name == name,
    }
}

/// Returns the place of the thread of this name. Before the first exit a thread's place is its name minus 1, so this
/// place is tried first.
pub fn place_of(places: &[Option<Thread>], name: u64) -> Option<usize>
    ensures some { IfSome result (λ place. (kept : TheThread)
        × (slice_get places.now place ≡ Some (Some kept)) × (kept.name ≡ name)) }
    ensures none { IfNone result (list_any (is_named_at name) places.now ≡ false) }
{
    if 0 < name && name <= places.len() as u64 {
        let usual = (name - 1) as usize;
        if is_named_at(name, &places[usual]) {
            return Some(usual);
        }
    }
    for (place, thread) in places.iter().enumerate() {
        if is_named_at(name, thread) {
            return Some(place);
        }
    }
    None
}

/// Arms the poll of the thread at the place, after `names` names were given out. `Thread::tell` chooses the operation.
pub fn tell_at(
    places: &mut Vec<Option<Thread>>,
    place: usize,
    operations: &[Open],
    names: u64,
) -> Answer
    requires { (kept : TheThread) × (slice_get places.old.items place ≡ Some (Some kept)) }
    ensures { (kept : TheThread) → slice_get places.old.items place ≡ Some (Some kept)
        → (result ≡ answer_told names operations.now kept)
        × (places.new.items
        ≡ slice_set places.old.items place (Some (kept_told operations.now kept))) }
{
    match &mut places[place] {
        None => unreachable!(),
        Some(thread) => thread.tell(operations, names),
    }
}
