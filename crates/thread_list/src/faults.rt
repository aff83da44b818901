//! Why a call of a running thread is refused, and the texts of these refusals.

use std::error::Error;
use std::fmt;
use thread_state::State;

/// Why a thread doesn't enter a method, in the order of the tests.
#[derive(Clone, Copy, PartialEq, Eq, Debug, Drop)]
pub enum CallFault {
    /// It isn't in Java.
    Illegal(State),
    NoSuchMethod,
    /// Its stack has 256 frames.
    DepthFull,
}

/// Why a thread doesn't return from a method, in the order of the tests.
#[derive(Clone, Copy, PartialEq, Eq, Debug, Drop)]
pub enum ReturnFault {
    /// It isn't in Java.
    Illegal(State),
    EmptyStack,
}

/// Why a thread doesn't exit, in the order of the tests.
#[derive(Clone, Copy, PartialEq, Eq, Debug, Drop)]
pub enum ExitFault {
    /// It isn't in Java or in the VM.
    Illegal(State),
    StackNotEmpty,
}

impl fmt::Display for CallFault {
    ghost use Rattle.std.specs.Prelude.{Some};
    ghost use Rattle.thread_list.specs.Texts.{call_fault_text};

    ghost output = { λ fault. Some (call_fault_text fault) };

    fn fmt<W: fmt::Write>(&self, f: &mut fmt::Formatter<W>) -> fmt::Result {
        match self {
            CallFault::Illegal(state) => write!(f, "not in Java, but in {state}"),
            CallFault::NoSuchMethod => write!(f, "no such method"),
            CallFault::DepthFull => write!(f, "the stack has 256 frames"),
        }
    }
}

impl Error for CallFault {}

impl fmt::Display for ReturnFault {
    ghost use Rattle.std.specs.Prelude.{Some};
    ghost use Rattle.thread_list.specs.Texts.{return_fault_text};

    ghost output = { λ fault. Some (return_fault_text fault) };

    fn fmt<W: fmt::Write>(&self, f: &mut fmt::Formatter<W>) -> fmt::Result {
        match self {
            ReturnFault::Illegal(state) => write!(f, "not in Java, but in {state}"),
            ReturnFault::EmptyStack => write!(f, "the stack is empty"),
        }
    }
}

impl Error for ReturnFault {}

impl fmt::Display for ExitFault {
    ghost use Rattle.std.specs.Prelude.{Some};
    ghost use Rattle.thread_list.specs.Texts.{exit_fault_text};

    ghost output = { λ fault. Some (exit_fault_text fault) };

    fn fmt<W: fmt::Write>(&self, f: &mut fmt::Formatter<W>) -> fmt::Result {
        match self {
            ExitFault::Illegal(state) => write!(f, "not in Java or in the VM, but in {state}"),
            ExitFault::StackNotEmpty => write!(f, "the stack isn't empty"),
        }
    }
}

impl Error for ExitFault {}
