// Lanes, and the colours of the spans on them.
ghost use Rattle.std.specs.Prelude.{◌≡◌};
ghost use Rattle.run_lanes.specs.Looks.{paint_of};

use thread_state::State;

/// A group of lanes.
#[derive(Clone, Copy, PartialEq, Eq, Drop)]
pub enum Group {
    /// The single lane for lines that are about no thread, operation or code.
    Lines,
    Operations,
    /// One lane for each place.
    Places,
    Codes,
}

/// A lane, counted from 0 in its group.
#[derive(Clone, Copy, PartialEq, Eq, Drop)]
pub struct Lane {
    pub group: Group,
    pub row: usize,
}

/// The lane for lines that are about no thread, operation or code.
pub const LINES: Lane = Lane {
    group: Group::Lines,
    row: 0,
};

/// The meaning of a span, which decides its colour.
#[derive(Clone, Copy, PartialEq, Eq, Drop)]
pub enum Paint {
    New,
    Java,
    Vm,
    Native,
    Blocked,
    Transition,
    AtPoll,
    Serving,
    Publishing,
    Held,
    Waiting,
    Handshake,
    Census,
    InUse,
    NotEntrant,
    Zombie,
}

impl Paint {
    /// The colour of a thread's state, or None for a vacant place.
    pub fn of_state(state: State) -> Option<Paint>
        ensures { result ≡ paint_of state }
    {
        match state {
            State::Vacant => None,
            State::New => Some(Paint::New),
            State::InJava => Some(Paint::Java),
            State::InVm => Some(Paint::Vm),
            State::InNative(_) => Some(Paint::Native),
            State::Blocked => Some(Paint::Blocked),
            State::NewTrans | State::NativeTrans(_) | State::BlockedTrans => {
                Some(Paint::Transition)
            }
            State::AtPoll(_) => Some(Paint::AtPoll),
            State::Serving(_) => Some(Paint::Serving),
        }
    }

    /// The class of this colour in the style sheet.
    pub fn class(self) -> &'static str {
        match self {
            Paint::New => "new",
            Paint::Java => "java",
            Paint::Vm => "vm",
            Paint::Native => "native",
            Paint::Blocked => "blocked",
            Paint::Transition => "transition",
            Paint::AtPoll => "atpoll",
            Paint::Serving => "serving",
            Paint::Publishing => "publishing",
            Paint::Held => "held",
            Paint::Waiting => "waiting",
            Paint::Handshake => "handshake",
            Paint::Census => "census",
            Paint::InUse => "inuse",
            Paint::NotEntrant => "notentrant",
            Paint::Zombie => "zombie",
        }
    }
}
