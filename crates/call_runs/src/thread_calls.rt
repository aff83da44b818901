//! The runs of a thread's calls, act by act.
ghost use Rattle.std.specs.Prelude.{◌≡◌};
ghost use Rattle.call_runs.specs.Runs.{back, calls, entered, enters, exits, frees, fresh_act, holds, is_sent, is_unserved, leaves, opens, own, polls, polls_first, returns, serves, single, single_word, takes, turn_over, wakes};

use crate::parts::{arg, begins, clears, crosses, finishes, publishes, turned, when};
use crate::says::{fits, is_done, says};
use crate::stage::{At, Stage};
use call_log::entry::Entry;
use call_log::word::Word;
use system::answers::{Answer, Refusal};
use system::events::Act;

/// The Wake of a thread that starts.
fn wakes(stage: Stage, act: Act, answer: &Answer) -> Option<Stage>
    ensures { result ≡ wakes stage act answer.now }
{
    match act {
        Act::Wake => when(is_done(answer), turned(stage, At::StartAwake)),
        _ => None,
    }
}

/// The end of the last turn of a stop.
fn turn_over(entry: &Entry, stage: Stage) -> Option<Stage>
    ensures { result ≡ turn_over entry.now stage }
{
    match entry.call {
        Word::Start => Some(turned(stage, At::Over)),
        Word::Exit => Some(Stage {
            at: At::Served,
            place: stage.place,
            jobs: stage.jobs,
            served: stage.served,
            times: 1,
            asked: stage.asked,
            begun: stage.begun,
        }),
        _ => {
            let word = if stage.served { Word::Served } else { Word::Ok };
            when(says(entry, word, &[]), turned(stage, At::Over))
        }
    }
}

/// A thread that has published in a turn runs a job, or polls.
fn polls(recorded: bool, entry: &Entry, stage: Stage, act: Act, answer: &Answer) -> Option<Stage>
    ensures { result ≡ polls recorded entry.now stage act answer.now }
{
    match act {
        Act::Finish => finishes(recorded, entry, stage, answer, At::TurnFinished),
        Act::Cross => crosses(stage, answer, turn_over(entry, stage)),
        _ => None,
    }
}

/// The Take of a thread.
fn takes(entry: &Entry, stage: Stage, act: Act, answer: &Answer) -> Option<Stage>
    ensures { result ≡ takes entry.now stage act answer.now }
{
    match act {
        Act::Take => match answer {
            Answer::Done => Some(Stage {
                at: At::Taken,
                place: stage.place,
                jobs: stage.jobs,
                served: false,
                times: stage.times,
                asked: stage.asked,
                begun: stage.begun,
            }),
            _ => when(fits(entry, answer), turned(stage, At::Over)),
        },
        _ => None,
    }
}

/// A thread that has published exits, or a poll stops it. If the exit must be repeated, the thread publishes again.
fn exits(entry: &Entry, stage: Stage, act: Act, answer: &Answer) -> Option<Stage>
    ensures { result ≡ exits entry.now stage act answer.now }
{
    match act {
        Act::Begin => when(is_done(answer), turned(stage, At::ExitBegun)),
        Act::Exit => match answer {
            Answer::Exited(name) => {
                let word = if stage.times == 0 {
                    Word::Exited
                } else {
                    Word::ServedExited
                };
                when(says(entry, word, &[*name]), turned(stage, At::Over))
            }
            _ => when(fits(entry, answer), turned(stage, At::Over)),
        },
        Act::Edge => crosses(stage, answer, None),
        Act::FromVm => crosses(stage, answer, None),
        _ => None,
    }
}

/// The next event of an exit that publishes: the Begin of the publication, or a refused Exit.
fn leaves(entry: &Entry, stage: Stage, act: Act, answer: &Answer) -> Option<Stage>
    ensures { result ≡ leaves entry.now stage act answer.now }
{
    match act {
        Act::Begin => when(is_done(answer), turned(stage, At::ExitBegun)),
        Act::Exit => when(
            !is_done(answer) && fits(entry, answer),
            turned(stage, At::Over),
        ),
        _ => None,
    }
}

/// The word of a call that consists of this act alone.
fn single_word(act: Act) -> Option<Word>
    ensures { result ≡ single_word act }
{
    match act {
        Act::Leave => Some(Word::Ret),
        Act::Edge => Some(Word::Edge),
        Act::ToVm => Some(Word::ToVm),
        Act::FromVm => Some(Word::FromVm),
        Act::ToNative => Some(Word::ToNative),
        Act::Block => Some(Word::Block),
        Act::Release => Some(Word::Release),
        _ => None,
    }
}

fn single(entry: &Entry, stage: Stage, act: Act, answer: &Answer) -> Option<Stage>
    ensures { result ≡ single entry.now stage act answer.now }
{
    match single_word(act) {
        None => None,
        Some(word) => when(
            entry.call.text() == word.text() && fits(entry, answer),
            turned(stage, At::Over),
        ),
    }
}

/// The Enter of a method, with the code of the call's hint or without a code.
fn enters(
    entry: &Entry,
    stage: Stage,
    method: u64,
    code: Option<u64>,
    answer: &Answer,
) -> Option<Stage>
    ensures { result ≡ enters entry.now stage method code answer.now }
{
    match code {
        None => when(
            method == arg(entry, 1)
                && (entry.args.as_slice().len() == 2 || is_sent(stage.at))
                && entered(entry, Word::Interpreted, &[], answer),
            turned(stage, At::Over),
        ),
        Some(serial) => {
            if method != arg(entry, 1) || serial != arg(entry, 2) || is_sent(stage.at) {
                return None;
            }
            if entry.args.as_slice().len() != 3 {
                return None;
            }
            match answer {
                Answer::WrongMethod => Some(turned(stage, At::Sent)),
                _ => when(
                    entered(entry, Word::Compiled, &[serial], answer),
                    turned(stage, At::Over),
                ),
            }
        }
    }
}

pub(crate) fn is_sent(at: At) -> bool
    ensures { result ≡ is_sent at }
{
    match at {
        At::Sent => true,
        _ => false,
    }
}

fn entered(entry: &Entry, word: Word, numbers: &[u64], answer: &Answer) -> bool
    ensures { result ≡ entered entry.now word numbers.now answer.now }
{
    match answer {
        Answer::Entered => says(entry, word, numbers),
        Answer::Refused(_) => fits(entry, answer),
        _ => false,
    }
}

/// The Enter of a method call.
fn calls(entry: &Entry, stage: Stage, act: Act, answer: &Answer) -> Option<Stage>
    ensures { result ≡ calls entry.now stage act answer.now }
{
    match act {
        Act::Enter(method, code) => enters(entry, stage, method, code, answer),
        _ => None,
    }
}

/// The Wake of a thread that returns to Java.
fn returns(entry: &Entry, stage: Stage, act: Act, answer: &Answer) -> Option<Stage>
    ensures { result ≡ returns entry.now stage act answer.now }
{
    match act {
        Act::Wake => match answer {
            Answer::Done => Some(turned(stage, At::Awake)),
            _ => when(fits(entry, answer), turned(stage, At::Over)),
        },
        _ => None,
    }
}

/// The poll of a thread that returns to Java.
fn back(entry: &Entry, stage: Stage, act: Act, answer: &Answer) -> Option<Stage>
    ensures { result ≡ back entry.now stage act answer.now }
{
    match act {
        Act::Cross => when(
            !is_done(answer) && fits(entry, answer),
            turned(stage, At::Over),
        ),
        _ => None,
    }
}

/// The Begin of a publication whose call answers ok, or a refusal.
fn opens(entry: &Entry, stage: Stage, act: Act, answer: &Answer, at: At) -> Option<Stage>
    ensures { result ≡ opens entry.now stage act answer.now at }
{
    match act {
        Act::Begin => match answer {
            Answer::Done => when(says(entry, Word::Ok, &[]), turned(stage, at)),
            _ => when(fits(entry, answer), turned(stage, At::Over)),
        },
        Act::Finish => when(is_unserved(entry, answer), turned(stage, At::Over)),
        _ => None,
    }
}

/// Whether a Serve is refused. Where the core answers Illegal because the thread isn't held, the call answers NotHeld.
fn is_unserved(entry: &Entry, answer: &Answer) -> bool
    ensures { result ≡ is_unserved entry.now answer.now }
{
    match answer {
        Answer::Refused(Refusal::Illegal(_)) => {
            fits(entry, answer) || says(entry, Word::NotHeld, &[])
        }
        Answer::Refused(_) => fits(entry, answer),
        _ => false,
    }
}

/// The Hold of a thread. If the thread hasn't brought its body, a Release follows.
fn holds(entry: &Entry, stage: Stage, act: Act, answer: &Answer) -> Option<Stage>
    ensures { result ≡ holds entry.now stage act answer.now }
{
    match act {
        Act::Hold => match answer {
            Answer::Done => {
                let at = if says(entry, Word::NotSafe, &[]) {
                    At::Caught
                } else {
                    At::Over
                };
                when(
                    says(entry, Word::Ok, &[]) || says(entry, Word::NotSafe, &[]),
                    turned(stage, at),
                )
            }
            _ => when(fits(entry, answer), turned(stage, At::Over)),
        },
        _ => None,
    }
}

fn frees(stage: Stage, act: Act, answer: &Answer) -> Option<Stage>
    ensures { result ≡ frees stage act answer.now }
{
    match act {
        Act::Release => when(is_done(answer), turned(stage, At::Over)),
        _ => None,
    }
}

fn serves(recorded: bool, entry: &Entry, stage: Stage, act: Act, answer: &Answer) -> Option<Stage>
    ensures { result ≡ serves recorded entry.now stage act answer.now }
{
    match act {
        Act::Finish => finishes(recorded, entry, stage, answer, At::ServeFinished),
        _ => None,
    }
}

/// The first act of a call.
fn fresh_act(entry: &Entry, stage: Stage, act: Act, answer: &Answer) -> Option<Stage>
    ensures { result ≡ fresh_act entry.now stage act answer.now }
{
    match entry.call {
        Word::Call => calls(entry, stage, act, answer),
        Word::FromNative => returns(entry, stage, act, answer),
        Word::Unblock => returns(entry, stage, act, answer),
        Word::Publish => opens(entry, stage, act, answer, At::Begun),
        Word::Serve => opens(entry, stage, act, answer, At::ServeBegun),
        Word::Hold => holds(entry, stage, act, answer),
        _ => single(entry, stage, act, answer),
    }
}

/// The next act at the place of the call.
pub(crate) fn own(
    recorded: bool,
    entry: &Entry,
    stage: Stage,
    act: Act,
    answer: &Answer,
) -> Option<Stage>
    ensures { result ≡ own recorded entry.now stage act answer.now }
{
    match stage.at {
        At::Fresh => fresh_act(entry, stage, act, answer),
        At::Started => begins(stage, act, answer, At::StartBegun),
        At::StartBegun => publishes(stage, act, answer, At::StartEnded),
        At::StartEnded => wakes(stage, act, answer),
        At::StartAwake => polls_first(stage, act, answer),
        At::Awake => back(entry, stage, act, answer),
        At::Begun => publishes(stage, act, answer, At::Over),
        At::AtPoll => takes(entry, stage, act, answer),
        At::Taken => begins(stage, act, answer, At::TurnBegun),
        At::TurnBegun => publishes(stage, act, answer, At::TurnEnded),
        At::TurnEnded => polls(recorded, entry, stage, act, answer),
        At::TurnFinished => clears(stage, act, answer, At::TurnEnded),
        At::Served => leaves(entry, stage, act, answer),
        At::ExitBegun => publishes(stage, act, answer, At::ExitEnded),
        At::ExitEnded => exits(entry, stage, act, answer),
        At::ServeBegun => publishes(stage, act, answer, At::ServeEnded),
        At::ServeEnded => serves(recorded, entry, stage, act, answer),
        At::ServeFinished => clears(stage, act, answer, At::Over),
        At::Sent => calls(entry, stage, act, answer),
        At::Caught => frees(stage, act, answer),
        _ => None,
    }
}

fn polls_first(stage: Stage, act: Act, answer: &Answer) -> Option<Stage>
    ensures { result ≡ polls_first stage act answer.now }
{
    match act {
        Act::Cross => crosses(stage, answer, Some(turned(stage, At::Over))),
        _ => None,
    }
}
