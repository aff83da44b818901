//! The runs of calls that make a single event without a place, and of a start.
ghost use Rattle.std.specs.Prelude.{◌≡◌};
ghost use Rattle.call_runs.specs.Whole.{is_handshake, is_request, sole, starts};

use crate::parts::{are_args, arg, is_named, turned, when};
use crate::says::{fits, says};
use crate::stage::{At, Stage};
use call_log::entry::Entry;
use call_log::word::Word;
use operations::{Ask, Request};
use system::answers::Answer;
use system::events::Event;

/// Whether the call asks this of these targets.
fn is_handshake(entry: &Entry, targets: &[u64], ask: Ask) -> bool
    ensures { result ≡ is_handshake entry.now targets.now ask }
{
    match ask {
        Ask::Depth => {
            (is_named(entry, Word::SubmitDepth) && are_args(entry, 0, targets))
                || (is_named(entry, Word::ReclaimDepth) && are_args(entry, 1, targets))
        }
        Ask::Top => {
            (is_named(entry, Word::SubmitTop) && are_args(entry, 0, targets))
                || (is_named(entry, Word::ReclaimTop) && are_args(entry, 1, targets))
        }
        Ask::CountOf(serial) => {
            (is_named(entry, Word::SubmitCount)
                && serial == arg(entry, 0)
                && are_args(entry, 1, targets))
                || (is_named(entry, Word::ReclaimCount)
                    && serial == arg(entry, 1)
                    && are_args(entry, 2, targets))
        }
    }
}

/// Whether the call asks for this request.
pub(crate) fn is_request(entry: &Entry, request: &Request) -> bool
    ensures { result ≡ is_request entry.now request.now }
{
    match request {
        Request::Census => is_named(entry, Word::SubmitCensus),
        Request::Handshake { targets, ask } => is_handshake(entry, targets.as_slice(), *ask),
    }
}

/// The Start of a thread.
pub(crate) fn starts(entry: &Entry, stage: Stage, answer: &Answer) -> Option<Stage>
    ensures { result ≡ starts entry.now stage answer.now }
{
    match answer {
        Answer::Thread(name, place) => when(
            says(entry, Word::Thread, &[*name, *place as u64]),
            Stage {
                at: At::Started,
                place: *place as u64,
                jobs: stage.jobs,
                served: stage.served,
                times: stage.times,
                asked: stage.asked,
                begun: stage.begun,
            },
        ),
        _ => when(fits(entry, answer), turned(stage, At::Over)),
    }
}

/// Whether the event, which has no place, is the only event of the call.
pub(crate) fn sole(entry: &Entry, event: &Event) -> bool
    ensures { result ≡ sole entry.now event.now }
{
    match event {
        Event::Install(method) => is_named(entry, Word::Install) && *method == arg(entry, 0),
        Event::Invalidate(serial) => {
            is_named(entry, Word::Invalidate) && *serial == arg(entry, 0)
        }
        Event::Tell(name) => is_named(entry, Word::Tell) && *name == arg(entry, 0),
        Event::Open => is_named(entry, Word::Open),
        Event::Close(None) => is_named(entry, Word::Close) && are_args(entry, 0, &[]),
        Event::Close(Some(n)) => is_named(entry, Word::Close) && are_args(entry, 0, &[*n]),
        Event::Ask(request) => is_request(entry, request),
        _ => false,
    }
}
