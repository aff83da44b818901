//! The text of states.
ghost use Rattle.std.specs.Prelude.{Some, ◌++◌, codes};
ghost use Rattle.thread_state.specs.StateText.{back_text, state_text};

use crate::{Back, Illegal, State};
use std::error::Error;
use std::fmt;

impl fmt::Display for Back {
    ghost output = { λ back. Some (back_text back) };

    fn fmt<W: fmt::Write>(&self, f: &mut fmt::Formatter<W>) -> fmt::Result {
        f.write_str(match self {
            Back::Java => "Java",
            Back::Vm => "Vm",
        })
    }
}

impl fmt::Display for State {
    ghost output = { λ state. Some (state_text state) };

    fn fmt<W: fmt::Write>(&self, f: &mut fmt::Formatter<W>) -> fmt::Result {
        match self {
            State::Vacant => f.write_str("Vacant"),
            State::New => f.write_str("New"),
            State::InJava => f.write_str("InJava"),
            State::InVm => f.write_str("InVm"),
            State::InNative(back) => write!(f, "InNative({back})"),
            State::Blocked => f.write_str("Blocked"),
            State::NewTrans => f.write_str("NewTrans"),
            State::NativeTrans(back) => write!(f, "NativeTrans({back})"),
            State::BlockedTrans => f.write_str("BlockedTrans"),
            State::AtPoll(back) => write!(f, "AtPoll({back})"),
            State::Serving(back) => write!(f, "Serving({back})"),
        }
    }
}

impl fmt::Display for Illegal {
    ghost output = { λ e. Some (codes "Illegal " ++ state_text e.state) };

    fn fmt<W: fmt::Write>(&self, f: &mut fmt::Formatter<W>) -> fmt::Result {
        write!(f, "Illegal {}", self.state)
    }
}

impl Error for Illegal {}
