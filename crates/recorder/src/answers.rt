//! The answers of calls as words of a log. There is None for an answer that the core can't give: the history is full, or memory was
//! refused.
ghost use Rattle.std.specs.Prelude.{◌≡◌};
ghost use Rattle.recorder.specs.Answers as answers;
ghost use Rattle.recorder.specs.Short as short;

use crate::faults::{
    ask_fault, call_fault, close_fault, exit_fault, hold_fault, install_fault, invalidate_fault,
    open_fault, operate_fault, reclaim_fault, release_fault, return_fault, serve_fault,
    start_fault, tell_fault,
};
use crate::short::{Short, only, with};
use bodies::{Called, Name};
use call_log::word::Word;
use desk::{CloseFault, Closing, CodeFault, NotReclaimed, OpenFault, Receipt, Refused, StartFault};
use method_table::table::InvalidateFault;
use operations::job::HandshakeOp;
use stopped_threads::{
    HoldFault, OperateFault, Reclaimed, ReleaseFault, ServeFault, TellFault, Told,
};
use thread_list::{CallFault, ExitFault, Exited, Mutator, Poll, ReturnFault, Turn};
use thread_state::State;

pub fn polled(poll: Poll) -> Short
    ensures { result ≡ answers.polled poll }
{
    match poll {
        Poll::Go => only(Word::Go),
        Poll::Stop(n) => with(Word::Stop, n),
    }
}

/// The answer of a refusal, if it has a word.
fn refused(word: Option<Word>) -> Option<Short>
    ensures { result ≡ short.refused word }
{
    match word {
        None => None,
        Some(word) => Some(only(word)),
    }
}

/// The answer of a call that polls.
pub fn crosses(said: Result<Poll, State>) -> Short
    ensures { result ≡ answers.crosses said }
{
    match said {
        Ok(poll) => polled(poll),
        Err(_) => only(Word::Illegal),
    }
}

/// The answer of a return.
pub fn leaves(said: Result<Poll, ReturnFault>) -> Short
    ensures { result ≡ answers.leaves said }
{
    match said {
        Ok(poll) => polled(poll),
        Err(fault) => only(return_fault(fault)),
    }
}

/// The answer of a call of a method.
pub fn enters(said: Result<Called, CallFault>) -> Short
    ensures { result ≡ answers.enters said }
{
    match said {
        Ok(Called::Compiled(serial)) => with(Word::Compiled, serial),
        Ok(Called::Interpreted) => only(Word::Interpreted),
        Err(fault) => only(call_fault(fault)),
    }
}

/// The answer of a transition without a poll, or of a publication.
pub fn moves(said: Result<(), State>) -> Short
    ensures { result ≡ answers.moves said }
{
    match said {
        Ok(()) => only(Word::Ok),
        Err(_) => only(Word::Illegal),
    }
}

/// The answer of a stop: whether its last turn ran a job.
pub fn stops<N: Name>(said: &Result<Turn<N>, State>) -> Short
    ensures { result ≡ answers.stops said.now }
{
    match said {
        Ok(turn) => only(if turn.finish.is_some() {
            Word::Served
        } else {
            Word::Ok
        }),
        Err(_) => only(Word::Illegal),
    }
}

/// The answer of an exit of the thread with this name.
pub fn exits<N: Name, J: HandshakeOp>(
    name: u64,
    said: &Result<Exited<N>, (ExitFault, Mutator<'_, N, J>)>,
) -> Short
    ensures { result ≡ answers.exits name said.now }
{
    match said {
        Ok(exited) => with(
            if exited.served.is_some() {
                Word::ServedExited
            } else {
                Word::Exited
            },
            name,
        ),
        Err((fault, _)) => only(exit_fault(*fault)),
    }
}

/// The answer of a submit.
pub fn asks<N: Name, J>(said: &Result<(u64, Receipt<N>), Refused<J>>) -> Option<Short>
    ensures { result ≡ answers.asks said.now }
{
    match said {
        Ok((number, _)) => Some(with(Word::Asked, *number)),
        Err(not) => refused(ask_fault(not.fault)),
    }
}

/// The answer of an install.
pub fn installs<N: Name>(said: &Result<(u64, Receipt<N>), CodeFault>) -> Option<Short>
    ensures { result ≡ answers.installs said.now }
{
    match said {
        Ok((serial, _)) => Some(with(Word::Code, *serial)),
        Err(fault) => refused(install_fault(*fault)),
    }
}

/// The answer of an invalidation.
pub fn invalidates<N: Name>(said: &Result<Receipt<N>, InvalidateFault>) -> Short
    ensures { result ≡ answers.invalidates said.now }
{
    match said {
        Ok(_) => only(Word::Ok),
        Err(fault) => only(invalidate_fault(*fault)),
    }
}

/// The answer of an open.
pub fn opens<N: Name>(said: &Result<(u64, Receipt<N>), OpenFault>) -> Short
    ensures { result ≡ answers.opens said.now }
{
    match said {
        Ok((number, _)) => with(Word::Open, *number),
        Err(fault) => only(open_fault(*fault)),
    }
}

/// The answer of a close of the oldest request.
pub fn closes<N: Name>(said: &Result<(u64, Closing<N>), CloseFault>) -> Short
    ensures { result ≡ answers.closes said.now }
{
    match said {
        Ok((number, _)) => with(Word::Closed, *number),
        Err(fault) => only(close_fault(*fault)),
    }
}

/// The answer of a close of the request with this number.
pub fn closes_of<N: Name>(number: u64, said: &Result<Closing<N>, CloseFault>) -> Short
    ensures { result ≡ answers.closes_of number said.now }
{
    match said {
        Ok(_) => with(Word::Closed, number),
        Err(fault) => only(close_fault(*fault)),
    }
}

/// The answer of a tell, which arms a thread's poll.
pub fn tells<N: Name>(said: &Result<Told<N>, TellFault>) -> Short
    ensures { result ≡ answers.tells said.now }
{
    match said {
        Ok(Told::Told(_)) => only(Word::Told),
        Ok(Told::Gone) => only(Word::Gone),
        Err(fault) => only(tell_fault(*fault)),
    }
}

/// The answer of a hold.
pub fn holds<T>(said: &Result<T, HoldFault>) -> Short
    ensures { result ≡ answers.holds said.now }
{
    match said {
        Ok(_) => only(Word::Ok),
        Err(fault) => only(hold_fault(*fault)),
    }
}

/// The answer of a release.
pub fn releases<T>(said: &Result<T, ReleaseFault>) -> Short
    ensures { result ≡ answers.releases said.now }
{
    match said {
        Ok(_) => only(Word::Ok),
        Err(fault) => only(release_fault(*fault)),
    }
}

/// The answer of serving a held thread.
pub fn serves<T>(said: &Result<T, ServeFault>) -> Short
    ensures { result ≡ answers.serves said.now }
{
    match said {
        Ok(_) => only(Word::Ok),
        Err(fault) => only(serve_fault(*fault)),
    }
}

/// The answer of a reclaim.
pub fn reclaims<N: Name, J>(said: &Result<Reclaimed<N>, NotReclaimed<J>>) -> Option<Short>
    ensures { result ≡ answers.reclaims said.now }
{
    match said {
        Ok(Reclaimed::Freed(_)) => Some(only(Word::Freed)),
        Ok(Reclaimed::Used(count, _)) => Some(with(Word::Used, *count)),
        Ok(Reclaimed::Late(place, _)) => Some(with(Word::Late, *place as u64)),
        Err(not) => refused(reclaim_fault(not.fault)),
    }
}

/// The answer of a refused start.
pub fn start_refusal(fault: StartFault) -> Option<Short>
    ensures { result ≡ answers.start_refusal fault }
{
    refused(start_fault(fault))
}

/// The answer of a refused operate.
pub fn operate_refusal(fault: OperateFault) -> Option<Short>
    ensures { result ≡ answers.operate_refusal fault }
{
    refused(operate_fault(fault))
}
