//! Parts that the runs of several kinds of calls share.
ghost use Rattle.std.specs.Prelude.{◌≡◌};
ghost use Rattle.call_runs.specs.Runs.{arg, begins, clears, crosses, finishes, is_changed, is_job, publishes, turned, when};
ghost use Rattle.call_runs.specs.Whole.{are_args, is_named};

use crate::says::is_done;
use crate::stage::{At, Stage};
use call_log::entry::Entry;
use call_log::word::Word;
use system::answers::Answer;
use system::events::Act;

/// An argument of the call, or 0 past the last one.
pub(crate) fn arg(entry: &Entry, at: usize) -> u64
    ensures { result ≡ arg entry.now at }
{
    entry.args.as_slice().get(at).copied().unwrap_or(0)
}

pub(crate) fn when(lawful: bool, stage: Stage) -> Option<Stage>
    ensures { result ≡ when lawful stage }
{
    if lawful { Some(stage) } else { None }
}

pub(crate) fn turned(stage: Stage, at: At) -> Stage
    ensures { result ≡ turned stage at }
{
    Stage {
        at,
        place: stage.place,
        jobs: stage.jobs,
        served: stage.served,
        times: stage.times,
        asked: stage.asked,
        begun: stage.begun,
    }
}

/// The Begin of a publication.
pub(crate) fn begins(stage: Stage, act: Act, answer: &Answer, at: At) -> Option<Stage>
    ensures { result ≡ begins stage act answer.now at }
{
    match act {
        Act::Begin => when(is_done(answer), turned(stage, at)),
        _ => None,
    }
}

pub(crate) fn is_changed(answer: &Answer) -> bool
    ensures { result ≡ is_changed answer.now }
{
    match answer {
        Answer::Changed(_, _) => true,
        _ => false,
    }
}

/// A Change or the End of an open publication.
pub(crate) fn publishes(stage: Stage, act: Act, answer: &Answer, at: At) -> Option<Stage>
    ensures { result ≡ publishes stage act answer.now at }
{
    match act {
        Act::Change => when(is_changed(answer), stage),
        Act::End => when(is_done(answer), turned(stage, at)),
        _ => None,
    }
}

/// A poll within a call, which the log doesn't record: it goes on, or stops the thread.
pub(crate) fn crosses(stage: Stage, answer: &Answer, over: Option<Stage>) -> Option<Stage>
    ensures { result ≡ crosses stage answer.now over }
{
    match answer {
        Answer::Go => over,
        Answer::Stop(_) => Some(turned(stage, At::AtPoll)),
        _ => None,
    }
}

/// Whether the reply is that of the call's next job. Where jobs aren't recorded, any reply is.
fn is_job(recorded: bool, entry: &Entry, jobs: u64, reply: u64) -> bool
    ensures { result ≡ is_job recorded entry.now jobs reply }
{
    if !recorded {
        return true;
    }
    match entry.jobs.as_slice().get(jobs as usize) {
        Some(job) => job.reply == reply,
        None => false,
    }
}

/// A Finish: a thread's job ran.
pub(crate) fn finishes(
    recorded: bool,
    entry: &Entry,
    stage: Stage,
    answer: &Answer,
    at: At,
) -> Option<Stage>
    ensures { result ≡ finishes recorded entry.now stage answer.now at }
{
    match answer {
        Answer::Reply(reply) => {
            if stage.jobs < 1_000_000 && is_job(recorded, entry, stage.jobs, *reply) {
                Some(Stage {
                    at,
                    place: stage.place,
                    jobs: stage.jobs + 1,
                    served: true,
                    times: stage.times,
                    asked: stage.asked,
                    begun: stage.begun,
                })
            } else {
                None
            }
        }
        _ => None,
    }
}

/// The Clear of an operation whose job ran.
pub(crate) fn clears(stage: Stage, act: Act, answer: &Answer, at: At) -> Option<Stage>
    ensures { result ≡ clears stage act answer.now at }
{
    match act {
        Act::Clear => when(is_done(answer), turned(stage, at)),
        _ => None,
    }
}

pub(crate) fn is_named(entry: &Entry, word: Word) -> bool
    ensures { result ≡ is_named entry.now word }
{
    entry.call.text() == word.text()
}

/// Whether these numbers are the arguments from this position on.
pub(crate) fn are_args(entry: &Entry, from: usize, numbers: &[u64]) -> bool
    ensures { result ≡ are_args entry.now from numbers.now }
{
    let args = entry.args.as_slice();
    from <= args.len() && &args[from..] == numbers
}
