//! The runs of a census by hand, and of calls that drive a request to its Close.
ghost use Rattle.std.specs.Prelude.{◌≡◌};
ghost use Rattle.call_runs.specs.Runs.{drives_at, gathers};
ghost use Rattle.call_runs.specs.Whole.{closes, drives, operates};

use crate::parts::{finishes, is_changed, is_named, turned, when};
use crate::reclaiming::is_reclaim;
use crate::says::{counts, fits, is_census, is_done, says};
use crate::stage::{At, Stage};
use call_log::entry::Entry;
use call_log::word::Word;
use system::answers::Answer;
use system::events::{Act, Event};

/// An act at a place within a drive.
pub(crate) fn drives_at(
    recorded: bool,
    entry: &Entry,
    stage: Stage,
    act: Act,
    answer: &Answer,
) -> Option<Stage>
    ensures { result ≡ drives_at recorded entry.now stage act answer.now }
{
    match act {
        Act::Hold => when(is_done(answer), stage),
        Act::Begin => when(is_done(answer), stage),
        Act::Change => when(is_changed(answer), stage),
        Act::End => when(is_done(answer), stage),
        Act::Finish => match finishes(recorded, entry, stage, answer, At::Driving) {
            None => None,
            Some(made) => Some(Stage {
                at: At::Driving,
                place: stage.place,
                jobs: made.jobs,
                served: stage.served,
                times: stage.times,
                asked: stage.asked,
                begun: stage.begun,
            }),
        },
        Act::Clear => when(is_done(answer), stage),
        Act::Release => when(is_done(answer), stage),
        _ => None,
    }
}

/// Acts at held threads, which the caller publishes for a census.
pub(crate) fn gathers(stage: Stage, act: Act, answer: &Answer) -> Option<Stage>
    ensures { result ≡ gathers stage act answer.now }
{
    match act {
        Act::Begin => when(is_done(answer), stage),
        Act::Change => when(is_changed(answer), stage),
        Act::End => when(is_done(answer), stage),
        _ => None,
    }
}

/// The Close of a drive, which is its last event or one of several; or the Close of the handshake that a reclaiming asked for.
fn closes(entry: &Entry, stage: Stage, n: u64) -> Option<Stage>
    ensures { result ≡ closes entry.now stage n }
{
    match entry.call {
        Word::Drive => {
            let lawful = if stage.served {
                is_census(entry, n)
            } else {
                says(entry, Word::Handshake, &[n])
            };
            when(lawful, turned(stage, At::Over))
        }
        Word::DriveFour => {
            if stage.times < 1_000_000 {
                Some(Stage {
                    at: stage.at,
                    place: stage.place,
                    jobs: stage.jobs,
                    served: stage.served,
                    times: stage.times + 1,
                    asked: stage.asked,
                    begun: stage.begun,
                })
            } else {
                None
            }
        }
        _ => when(n == stage.asked, turned(stage, At::Looking)),
    }
}

/// An event of a drive that has no place.
pub(crate) fn drives(entry: &Entry, stage: Stage, event: &Event, answer: &Answer) -> Option<Stage>
    ensures { result ≡ drives entry.now stage event.now answer.now }
{
    match event {
        Event::Open => match answer {
            Answer::Opened(n, _) => when(!is_reclaim(entry.call) || *n == stage.asked, stage),
            _ => when(fits(entry, answer), turned(stage, At::Over)),
        },
        Event::Tell(_) => match answer {
            Answer::Told => Some(stage),
            Answer::Gone => Some(stage),
            _ => None,
        },
        Event::Operate => match answer {
            Answer::Census(list) => when(
                !is_named(entry, Word::Drive) || counts(entry, list.as_slice()),
                Stage {
                    at: stage.at,
                    place: stage.place,
                    jobs: stage.jobs,
                    served: true,
                    times: stage.times,
                    asked: stage.asked,
                    begun: stage.begun,
                },
            ),
            _ => None,
        },
        Event::Close(None) => match answer {
            Answer::Closed(n) => closes(entry, stage, *n),
            _ => None,
        },
        _ => None,
    }
}

/// The Operate of a census by hand.
pub(crate) fn operates(entry: &Entry, stage: Stage, event: &Event, answer: &Answer) -> Option<Stage>
    ensures { result ≡ operates entry.now stage event.now answer.now }
{
    match event {
        Event::Operate => match answer {
            Answer::Census(list) => {
                when(counts(entry, list.as_slice()), turned(stage, At::Operated))
            }
            _ => when(fits(entry, answer), turned(stage, At::Over)),
        },
        _ => None,
    }
}
