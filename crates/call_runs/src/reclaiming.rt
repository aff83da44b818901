//! The runs of a reclaiming.
ghost use Rattle.std.specs.Prelude.{◌≡◌};
ghost use Rattle.call_runs.specs.Whole.{asking, is_freed, is_reclaim, is_refused, looks, reclaims, round, weighs};

use crate::parts::{arg, is_named, turned, when};
use crate::requests::is_request;
use crate::says::{fits, is_done, says};
use crate::stage::{At, Stage};
use call_log::entry::Entry;
use call_log::word::Word;
use system::answers::Answer;
use system::events::Event;

/// The looks at places, and the weighing of the code.
pub(crate) fn looks(entry: &Entry, stage: Stage, event: &Event, answer: &Answer) -> Option<Stage>
    ensures { result ≡ looks entry.now stage event.now answer.now }
{
    match event {
        Event::Look(serial, _) => match answer {
            Answer::Clear => when(*serial == arg(entry, 0), stage),
            Answer::Late => when(*serial == arg(entry, 0), stage),
            _ => None,
        },
        Event::Weigh(serial) => {
            if *serial == arg(entry, 0) {
                weighs(entry, stage, answer)
            } else {
                None
            }
        }
        _ => None,
    }
}

fn weighs(entry: &Entry, stage: Stage, answer: &Answer) -> Option<Stage>
    ensures { result ≡ weighs entry.now stage answer.now }
{
    match answer {
        Answer::NotLooked(place) => when(
            says(entry, Word::Late, &[*place as u64]),
            turned(stage, At::Over),
        ),
        Answer::Used(count) => when(
            says(entry, Word::Used, &[*count as u64]),
            turned(stage, At::Over),
        ),
        Answer::Retired => when(says(entry, Word::Freed, &[]), turned(stage, At::Weighed)),
        _ => when(fits(entry, answer), turned(stage, At::Over)),
    }
}

/// Whether the call reclaims a code.
pub fn is_reclaim(call: Word) -> bool
    ensures { result ≡ is_reclaim call }
{
    match call {
        Word::Reclaim => true,
        Word::ReclaimDepth => true,
        Word::ReclaimTop => true,
        Word::ReclaimCount => true,
        _ => false,
    }
}

fn asking(stage: Stage, n: u64) -> Stage
    ensures { result ≡ asking stage n }
{
    Stage {
        at: At::Asked,
        place: stage.place,
        jobs: stage.jobs,
        served: stage.served,
        times: stage.times,
        asked: n,
        begun: stage.begun,
    }
}

/// The first event of a reclaiming: the Ask of a handshake if it has jobs, else the round; or a refusal.
pub(crate) fn reclaims(entry: &Entry, stage: Stage, event: &Event, answer: &Answer) -> Option<Stage>
    ensures { result ≡ reclaims entry.now stage event.now answer.now }
{
    match event {
        Event::Ask(request) => match answer {
            Answer::Asked(n) => when(is_request(entry, request), asking(stage, *n)),
            _ => None,
        },
        Event::Round => when(
            is_named(entry, Word::Reclaim) && is_done(answer),
            turned(stage, At::Looking),
        ),
        Event::Weigh(serial) => when(
            *serial == arg(entry, 0) && is_refused(answer) && fits(entry, answer),
            turned(stage, At::Over),
        ),
        Event::Resolve(_) => when(says(entry, Word::AlreadyOpen, &[]), turned(stage, At::Over)),
        _ => None,
    }
}

pub(crate) fn is_refused(answer: &Answer) -> bool
    ensures { result ≡ is_refused answer.now }
{
    match answer {
        Answer::Refused(_) => true,
        _ => false,
    }
}

pub(crate) fn is_freed(entry: &Entry, event: &Event, answer: &Answer) -> bool
    ensures { result ≡ is_freed entry.now event.now answer.now }
{
    match event {
        Event::Free(serial) => *serial == arg(entry, 0) && is_done(answer),
        _ => false,
    }
}

pub(crate) fn round(stage: Stage, event: &Event, answer: &Answer) -> Option<Stage>
    ensures { result ≡ round stage event.now answer.now }
{
    match event {
        Event::Round => when(is_done(answer), turned(stage, At::Driving)),
        _ => None,
    }
}
