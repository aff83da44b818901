//! The runs of calls: the possible next events of a call, and when the call is over.
ghost use Rattle.std.specs.Prelude.{◌≡◌};
ghost use Rattle.call_runs.specs.Runs.{at_place};
ghost use Rattle.call_runs.specs.Whole.{begun, comes_late, first, first_at, fresh, goes_on, is_ended, is_look, is_over, next, whole};

use crate::driving::{drives, drives_at, gathers, operates};
use crate::parts::{arg, clears, is_named, turned, when};
use crate::reclaiming::{is_freed, is_reclaim, is_refused, looks, reclaims, round};
use crate::requests::{sole, starts};
use crate::says::{answers, fits, says};
use crate::stage::{At, Stage};
use crate::thread_calls::{is_sent, own};
use call_log::entry::Entry;
use call_log::word::Word;
use system::answers::Answer;
use system::events::{Act, Event};

fn at_place(
    recorded: bool,
    entry: &Entry,
    stage: Stage,
    place: usize,
    act: Act,
    answer: &Answer,
) -> Option<Stage>
    ensures { result ≡ at_place recorded entry.now stage place act answer.now }
{
    match stage.at {
        At::Driving => drives_at(recorded, entry, stage, act, answer),
        At::Gathering => gathers(stage, act, answer),
        At::Operated => clears(stage, act, answer, At::Operated),
        _ => {
            if place as u64 == stage.place {
                own(recorded, entry, stage, act, answer)
            } else {
                None
            }
        }
    }
}

/// Whether the call only reads state, and its recorded answer is one that such a call gives.
fn is_look(entry: &Entry) -> bool
    ensures { result ≡ is_look entry.now }
{
    (is_named(entry, Word::Live) && answers(entry, Word::Names))
        || (is_named(entry, Word::Replies) && answers(entry, Word::Replies))
}

/// The first event of a call, where this event has no place.
fn fresh(entry: &Entry, stage: Stage, event: &Event, answer: &Answer) -> Option<Stage>
    ensures { result ≡ fresh entry.now stage event.now answer.now }
{
    if is_reclaim(entry.call) {
        return reclaims(entry, stage, event, answer);
    }
    match event {
        Event::Start => {
            if is_named(entry, Word::Start) {
                starts(entry, stage, answer)
            } else {
                None
            }
        }
        Event::Resolve(_) => when(is_look(entry), turned(stage, At::Over)),
        _ => when(
            sole(entry, event) && fits(entry, answer),
            turned(stage, At::Over),
        ),
    }
}

/// The next event of a call, where this event has no place.
fn whole(entry: &Entry, stage: Stage, event: &Event, answer: &Answer) -> Option<Stage>
    ensures { result ≡ whole entry.now stage event.now answer.now }
{
    match stage.at {
        At::Fresh => fresh(entry, stage, event, answer),
        At::Driving => drives(entry, stage, event, answer),
        At::Gathering => operates(entry, stage, event, answer),
        At::Asked => round(stage, event, answer),
        At::Looking => looks(entry, stage, event, answer),
        At::Weighed => when(is_freed(entry, event, answer), turned(stage, At::Over)),
        _ => None,
    }
}

fn goes_on(
    recorded: bool,
    entry: &Entry,
    stage: Stage,
    event: &Event,
    answer: &Answer,
) -> Option<Stage>
    ensures { result ≡ goes_on recorded entry.now stage event.now answer.now }
{
    match event {
        Event::At(place, act) => at_place(recorded, entry, stage, *place, *act, answer),
        _ => whole(entry, stage, event, answer),
    }
}

/// Whether a refused event follows other events of its call, the last of which isn't an Enter answered WrongMethod. No call makes one.
fn comes_late(stage: Stage, answer: &Answer) -> bool
    ensures { result ≡ comes_late stage answer.now }
{
    stage.begun && is_refused(answer) && !is_sent(stage.at)
}

fn begun(stage: Stage) -> Stage
    ensures { result ≡ begun stage }
{
    Stage {
        at: stage.at,
        place: stage.place,
        jobs: stage.jobs,
        served: stage.served,
        times: stage.times,
        asked: stage.asked,
        begun: true,
    }
}

/// The stage of the call after its next event with this answer; None where no run of the call continues this way.
pub fn next(
    recorded: bool,
    entry: &Entry,
    stage: Stage,
    event: &Event,
    answer: &Answer,
) -> Option<Stage>
    ensures { result ≡ next recorded entry.now stage event.now answer.now }
{
    if comes_late(stage, answer) {
        return None;
    }
    match goes_on(recorded, entry, stage, event, answer) {
        None => None,
        Some(made) => Some(begun(made)),
    }
}

fn first_at(call: Word) -> At
    ensures { result ≡ first_at call }
{
    match call {
        Word::Stop => At::AtPoll,
        Word::Exit => At::Served,
        Word::Operate => At::Gathering,
        Word::Drive => At::Driving,
        Word::DriveFour => At::Driving,
        _ => At::Fresh,
    }
}

/// The stage of a call before its first event.
pub fn first(entry: &Entry) -> Stage
    ensures { result ≡ first entry.now }
{
    Stage {
        at: first_at(entry.call),
        place: arg(entry, 0),
        jobs: 0,
        served: false,
        times: 0,
        asked: 0,
        begun: false,
    }
}

fn is_ended(entry: &Entry, stage: Stage) -> bool
    ensures { result ≡ is_ended entry.now stage }
{
    match stage.at {
        At::Over => true,
        At::Operated => true,
        At::Driving => {
            is_named(entry, Word::DriveFour) && says(entry, Word::Closed, &[stage.times])
        }
        _ => false,
    }
}

/// Whether a call at this stage is over: it made all its events, and all its recorded jobs ran. A call that hadn't returned may be at any
/// stage.
pub fn is_over(recorded: bool, entry: &Entry, stage: Stage) -> bool
    ensures { result ≡ is_over recorded entry.now stage }
{
    match entry.answer {
        None => true,
        Some(_) => {
            is_ended(entry, stage)
                && (!recorded || stage.jobs == entry.jobs.as_slice().len() as u64)
        }
    }
}
