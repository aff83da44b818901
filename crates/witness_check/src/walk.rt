//! An order, event by event.
ghost use Rattle.std.specs.Prelude.{◌≡◌, ◌<◌, IfOk, Some, None, length, if◌then◌else◌};
ghost use Rattle.witness_check.specs.Walk.{walked, in_time, stepped, walk, all_over, fresh_walk};

use crate::seen::Seen;
use call_log::entry::Entry;
use call_runs::runs::{first, is_over, next};
use call_runs::stage::Stage;
use std::alloc::{AllocError, Global};
use system::answers::Answer;
use system::events::Event;

/// The progress of all calls after some of the events.
#[derive(Debug, Drop)]
pub struct Walk {
    /// By call.
    pub stages: Vec<Stage>,
    /// The latest `before` ticket of a call that has made an event.
    pub latest: u64,
    pub seen: Seen,
}

/// Whether the call was not yet over when the latest call that has made an event began.
fn in_time(latest: u64, entry: &Entry) -> bool
    ensures { result ≡ in_time latest entry.now }
{
    match entry.after {
        None => true,
        Some(after) => latest <= after,
    }
}

/// The progress before the first event.
pub fn fresh_walk(alloc: Global, calls: &[Entry]) -> Result<Walk, AllocError>
    ensures { IfOk result (λ walk. walked walk ≡ fresh_walk calls.now) }
{
    let mut stages = Vec::new(alloc);
    for entry in calls {
        stages.push(first(entry))?;
    }
    Ok(Walk {
        stages,
        latest: 0,
        seen: Seen::new(alloc)?,
    })
}

impl Walk {
    /// Makes one more event, of the call of this number, with this answer. Answers whether that is lawful.
    #[tactic(auto, using(crate::proofs::Gets::step_there, crate::proofs::Gets::call_past, crate::proofs::Gets::stage_past))]
    pub fn step(
        &mut self,
        recorded: bool,
        calls: &[Entry],
        owner: usize,
        event: &Event,
        answer: &Answer,
    ) -> Result<bool, AllocError>
        ensures { IfOk result
            (λ lawful. stepped recorded calls.now (walked self.old) owner event.now answer.now
            ≡ (if lawful then Some (walked self.new) else None)) }
    {
        if owner >= calls.len() || owner >= self.stages.len() {
            return Ok(false);
        }
        let entry = &calls[owner];
        let stage = self.stages[owner];
        if !in_time(self.latest, entry) {
            return Ok(false);
        }
        if !self.seen.allows(recorded, entry, stage, event, answer) {
            return Ok(false);
        }
        match next(recorded, entry, stage, event, answer) {
            None => Ok(false),
            Some(made) => {
                self.seen.note(event, answer)?;
                self.latest = self.latest.max(entry.before);
                self.stages[owner] = made;
                Ok(true)
            }
        }
    }
}

/// Whether all calls are over.
pub fn all_over(recorded: bool, calls: &[Entry], stages: &[Stage]) -> bool
    ensures { result ≡ all_over recorded calls.now stages.now }
{
    let mut calls = calls;
    let mut stages = stages;
    while let [entry, others @ ..] = calls {
        match stages {
            [stage, more @ ..] if is_over(recorded, entry, *stage) => stages = more,
            _ => return false,
        }
        calls = others;
    }
    true
}
