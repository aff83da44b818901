//! The states of a thread, the moves between them, and the rule of the poll words.
//! `system`, `poll`, `desk` and all crates above them use these rules.
//! Read `src/moves.rt` first, then `specs/States.antt`.
#![tactic(auto)]

mod moves;
pub mod poll_rule;
mod text;

pub use moves::{cross, is_in_java, is_in_vm, is_safe, is_serving, may_cross, may_publish, step};

/// The state to which a thread returns from native code or from a stop.
#[derive(Clone, Copy, Debug, PartialEq, Eq, Drop)]
pub enum Back {
    Java,
    Vm,
}

/// A thread's state, or the state of a place without a thread.
#[derive(Clone, Copy, Debug, PartialEq, Eq, Drop)]
pub enum State {
    /// The place has no thread.
    Vacant,
    /// The thread is started, and hasn't entered Java yet.
    New,
    InJava,
    InVm,
    /// In native code. The thread enters neither Java nor the VM before it wakes and polls.
    InNative(Back),
    /// Waiting in the VM.
    Blocked,
    /// Between `New` and Java.
    NewTrans,
    /// Between native code and the state of return.
    NativeTrans(Back),
    /// Between `Blocked` and the VM.
    BlockedTrans,
    /// Stopped at a poll.
    AtPoll(Back),
    /// Stopped at a poll, and running its own operations.
    Serving(Back),
}

/// A change of state without a poll.
#[derive(Clone, Copy, Debug, PartialEq, Eq, Drop)]
pub enum Move {
    /// A thread starts in a vacant place.
    Start,
    /// A new thread, or a thread in native code or blocked, enters the transition state, from which it polls.
    Wake,
    ToVm,
    ToNative,
    Block,
    /// A thread that is stopped at a poll begins to serve.
    Take,
    /// The thread ends and its place becomes vacant.
    Exit,
}

/// The state in which the move or poll is illegal.
#[derive(Clone, Copy, Debug, PartialEq, Eq, Drop)]
pub struct Illegal {
    pub state: State,
}
