// The places, and the acts of their threads.
ghost use Rattle.std.specs.Prelude.{◌≡◌, ◌<◌, ◌≤◌, ℕ, List, length, Some, None, IfOk, OnErr, slice_get, slice_set, true, replicate};
ghost use Rattle.system.specs.declared.answers.Answer.TheVariants;
ghost use Rattle.system.specs.Kept.Acts.{is_plain};
ghost use Rattle.system.specs.Kept.Places.{DidAt, DidExit, DidChange, answer_here, frames_at, is_taken};
ghost use Rattle.system.specs.World.{vacant_place};

use crate::answers::{Answer, FrameList, Refusal};
use crate::events::Act;
use crate::requests::Open;
use crate::thread::Thread;
use frames::Change;
use method_table::table::MethodTable;
use std::alloc::{AllocError, Global};
use thread_state::State;

fn answer_of(outcome: Result<Answer, Refusal>) -> Answer
    ensures { result ≡ answer_here outcome }
{
    match outcome {
        Ok(answer) => answer,
        Err(refusal) => Answer::Refused(refusal),
    }
}

/// Does a plain act of the thread at the place, with these codes, open operations and moment.
/// Refusals in this order: `NoSuchPlace`, `Illegal` for a vacant place, those of the act.
pub fn act_at(
    places: &mut Vec<Option<Thread>>,
    place: usize,
    act: Act,
    table: &MethodTable,
    operations: &[Open],
    now: u64,
) -> Answer
    requires plain { is_plain act ≡ true }
    requires few { table.now.methods ≤ 256 }
    ensures { DidAt
        (record {
          act = act;
          opens = operations.now;
          now = now;
        }) table.now place places.old.items places.new.items result }
{
    if place >= places.len() {
        return Answer::Refused(Refusal::NoSuchPlace);
    }
    match &mut places[place] {
        None => Answer::Refused(Refusal::Illegal(State::Vacant)),
        Some(thread) => answer_of(thread.act(act, table, operations, now)),
    }
}

/// Does the next change of the thread's open publication.
/// Refusals in this order: `NoSuchPlace`, `Illegal` for a vacant place, `NotBegun`.
///
/// This function and the next two are inlined, so that no answer goes through memory.
#[inline(always)]
pub fn change_at(places: &mut Vec<Option<Thread>>, place: usize) -> Result<Option<Change>, Refusal>
    ensures { DidChange place places.old.items places.new.items result }
{
    if place >= places.len() {
        return Err(Refusal::NoSuchPlace);
    }
    match &mut places[place] {
        None => Err(Refusal::Illegal(State::Vacant)),
        Some(thread) => thread.change(),
    }
}

/// Lets the thread at the place exit, and makes the place vacant.
/// Refusals in this order: `NoSuchPlace`, `Illegal` for a vacant place, those of `exit_refusal`.
#[inline(always)]
pub fn exit_at(places: &mut Vec<Option<Thread>>, place: usize) -> Answer
    ensures { DidExit place places.old.items places.new.items result }
{
    if place >= places.len() {
        return Answer::Refused(Refusal::NoSuchPlace);
    }
    let Some(thread) = &places[place] else {
        return Answer::Refused(Refusal::Illegal(State::Vacant));
    };
    if let Some(refusal) = thread.exit_refusal() {
        return Answer::Refused(refusal);
    }
    let name = thread.name;
    places[place] = None;
    Answer::Exited(name)
}

/// Returns the frames of the thread at the place, the bottom first. Refusals in this order: `NoSuchPlace`, `Illegal`
/// for a vacant place.
///
/// # Errors
/// Memory is refused.
#[inline(always)]
pub fn stack_at(
    alloc: Global,
    places: &[Option<Thread>],
    place: usize,
) -> Result<Answer, AllocError>
    ensures frames { IfOk result (λ answer. answer ≡ frames_at (slice_get places.now place)) }
    ensures no_memory { OnErr result (is_taken (slice_get places.now place) ≡ true) }
{
    if place >= places.len() {
        return Ok(Answer::Refused(Refusal::NoSuchPlace));
    }
    match &places[place] {
        None => Ok(Answer::Refused(Refusal::Illegal(State::Vacant))),
        Some(thread) => {
            let frames = Vec::from_slice(alloc, thread.image.frames())?;
            Ok(Answer::Frames(FrameList::from_vec(alloc, frames)?))
        }
    }
}

/// Returns the least vacant place.
pub fn vacant_place(places: &[Option<Thread>]) -> Option<usize>
    ensures { result ≡ vacant_place places.now }
{
    for (place, thread) in places.iter().enumerate() {
        if thread.is_none() {
            return Some(place);
        }
    }
    None
}

/// Makes this many vacant places.
pub fn vacant_places(alloc: Global, count: usize) -> Result<Vec<Option<Thread>>, AllocError>
    ensures { IfOk result (λ places. places.items ≡ replicate count None) }
{
    let mut places = Vec::with_capacity(alloc, count)?;
    for _made in 0..count {
        places.push(None)?;
    }
    Ok(places)
}
