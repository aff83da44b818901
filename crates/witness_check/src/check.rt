//! The check of a whole order.
ghost use Rattle.std.specs.Prelude.{◌≡◌, false, IfOk, MatchOption};
ghost use Rattle.witness_check.specs.Walk.{ends, walk, fresh_walk, is_sized, AreAnswers, is_explained};

use crate::streams::all_rise;
use crate::walk::{all_over, fresh_walk};
use call_log::entry::Entry;
use call_log::log::Log;
use std::alloc::{AllocError, Global};
use system::answers::Answer;
use system::events::Event;
use system::{NewFault, System};

/// Whether the events with these answers are lawful, each made by the call of its number, and all calls are over at the end.
fn are_lawful(
    alloc: Global,
    recorded: bool,
    calls: &[Entry],
    owners: &[usize],
    events: &[Event],
    answers: &[Answer],
) -> Result<bool, AllocError>
    ensures { IfOk result
        (λ yes. yes
        ≡ ends recorded calls.now
        (walk recorded calls.now (fresh_walk calls.now) owners.now events.now answers.now)) }
{
    let mut walk = fresh_walk(alloc, calls)?;
    let mut owners = owners;
    let mut events = events;
    let mut answers = answers;
    while let [owner, more_owners @ ..] = owners {
        let [event, more_events @ ..] = events else {
            return Ok(false);
        };
        let [answer, more_answers @ ..] = answers else {
            return Ok(false);
        };
        if !walk.step(recorded, calls, *owner, event, answer)? {
            return Ok(false);
        }
        owners = more_owners;
        events = more_events;
        answers = more_answers;
    }
    Ok(events.is_empty() && answers.is_empty() && all_over(recorded, calls, walk.stages.as_slice()))
}

/// The core's answers to the events from the start; None if the core has no system of the log's sizes.
pub fn answers_of(
    alloc: Global,
    log: &Log,
    events: &[Event],
) -> Result<Option<Vec<Answer>>, AllocError>
    ensures { IfOk result
        (λ told. MatchOption told (is_sized log.now ≡ false)
        (λ said. AreAnswers log.now events.now said.items)) }
{
    match System::new(
        alloc,
        log.places as usize,
        log.slots as usize,
        log.methods as usize,
    ) {
        Err(NewFault::BadSize) => Ok(None),
        Err(NewFault::NoMemory) => Err(AllocError),
        Ok(made) => {
            let mut system = made;
            match system.run(alloc, events) {
                Err(_) => Err(AllocError),
                Ok(answers) => Ok(Some(answers)),
            }
        }
    }
}

/// Whether the events explain the log, where each is of the call of its number (from 0, in the order of the lines). The core answers the
/// events from the start. With these answers each event must be one that its call may make next, at a position that the tickets allow. At
/// the end all calls must be over and agree with their recorded answers.
pub fn check(
    alloc: Global,
    log: &Log,
    events: &[Event],
    owners: &[usize],
) -> Result<bool, AllocError>
    ensures { IfOk result (λ yes. yes ≡ is_explained log.now events.now owners.now) }
{
    let calls = log.calls.as_slice();
    match answers_of(alloc, log, events)? {
        None => Ok(false),
        Some(answers) => {
            if all_rise(alloc, calls)? {
                are_lawful(alloc, log.jobs, calls, owners, events, answers.as_slice())
            } else {
                Ok(false)
            }
        }
    }
}
