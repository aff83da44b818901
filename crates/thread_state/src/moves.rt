//! The state after each move and poll, and what each state permits.
ghost use Rattle.std.specs.Prelude.{◌≡◌, IfErr};
ghost use Rattle.std.specs.Result.{result_ok};
ghost use Rattle.thread_state.specs.States as table;

use crate::{Back, Illegal, Move, State};

/// Returns the state after a move.
///
/// # Errors
/// `Illegal` with the given state if the table has no such move.
pub fn step(state: State, movement: Move) -> Result<State, Illegal>
    ensures accepted { result_ok result ≡ table.step state movement }
    ensures refused { IfErr result (λ e. e.state ≡ state) }
{
    let to = match (state, movement) {
        (State::Vacant, Move::Start) => State::New,
        (State::New, Move::Wake) => State::NewTrans,
        (State::InNative(back), Move::Wake) => State::NativeTrans(back),
        (State::Blocked, Move::Wake) => State::BlockedTrans,
        (State::InJava, Move::ToVm) => State::InVm,
        (State::InJava, Move::ToNative) => State::InNative(Back::Java),
        (State::InVm, Move::ToNative) => State::InNative(Back::Vm),
        (State::InVm, Move::Block) => State::Blocked,
        (State::AtPoll(back), Move::Take) => State::Serving(back),
        (State::InJava | State::InVm, Move::Exit) => State::Vacant,
        _ => return Err(Illegal { state }),
    };
    Ok(to)
}

/// Returns the state after a poll: the next state if `go`, otherwise `AtPoll`.
///
/// # Errors
/// `Illegal` with the given state if no thread polls in it.
pub fn cross(state: State, go: bool) -> Result<State, Illegal>
    ensures accepted { result_ok result ≡ table.cross state go }
    ensures refused { IfErr result (λ e. e.state ≡ state) }
{
    let (onward, back) = match state {
        State::InJava | State::InVm | State::NewTrans => (State::InJava, Back::Java),
        State::BlockedTrans => (State::InVm, Back::Vm),
        State::NativeTrans(back) | State::Serving(back) => (state_of(back), back),
        _ => return Err(Illegal { state }),
    };
    Ok(if go { onward } else { State::AtPoll(back) })
}

fn state_of(back: Back) -> State
    ensures { result ≡ table.state_of back }
{
    match back {
        Back::Java => State::InJava,
        Back::Vm => State::InVm,
    }
}

/// Returns whether the thread's stack can't change in this state, before the thread wakes or begins to serve.
pub fn is_safe(state: State) -> bool
    ensures { result ≡ table.is_safe state }
{
    matches!(
        state,
        State::New | State::InNative(_) | State::Blocked | State::AtPoll(_)
    )
}

/// Returns whether a thread may begin a publication of its stack, if nobody holds the thread.
pub fn may_publish(state: State) -> bool
    ensures { result ≡ table.may_publish state }
{
    matches!(
        state,
        State::New | State::InJava | State::InVm | State::Serving(_)
    )
}

/// Returns whether a thread leaves this state by a poll and nothing else.
pub fn may_cross(state: State) -> bool
    ensures { result ≡ table.may_cross state }
{
    matches!(
        state,
        State::NewTrans | State::NativeTrans(_) | State::BlockedTrans | State::Serving(_)
    )
}

/// Returns whether the thread runs Java code.
pub fn is_in_java(state: State) -> bool
    ensures { result ≡ table.is_in_java state }
{
    matches!(state, State::InJava)
}

/// Returns whether the thread runs in the VM.
pub fn is_in_vm(state: State) -> bool
    ensures { result ≡ table.is_in_vm state }
{
    matches!(state, State::InVm)
}

/// Returns whether the thread is stopped at a poll and serves itself.
pub fn is_serving(state: State) -> bool
    ensures { result ≡ table.is_serving state }
{
    matches!(state, State::Serving(_))
}
