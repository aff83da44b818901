//! What can go wrong in a run.
use std::alloc::AllocError;
use std::fmt;

/// The calls whose answers a run predicts.
#[derive(Clone, Copy, Debug, Drop)]
pub enum Step {
    Start,
    Call,
    Return,
    BackEdge,
    Publish,
    ToNative,
    FromNative,
    ToVm,
    FromVm,
    Block,
    Unblock,
    Stop,
    Exit,
    Install,
    Invalidate,
    Reclaim,
    Submit,
    Open,
    Tell,
    Hold,
    Serve,
    Operate,
    Release,
    Close,
    Drive,
}

/// An error of a run.
#[derive(Clone, Copy, Drop)]
pub enum Wrong {
    NoMemory,
    /// The system gives no thread.
    NoThread,
    /// The call gave an answer that is impossible after the calls before it.
    Answer(Step),
    /// A thread entered the code of this serial after `invalidate` of it had returned.
    Entered(u64),
    /// The list of this census doesn't rise by serial, or has a code without frames or one that isn't installed.
    Census(u64),
    /// While all threads were held, a count word differed from the census's count of the code in its slot.
    Counts(u64),
    /// A name has more than one reply of this handshake.
    Twice(u64),
    /// A name that isn't a target of this handshake has a reply of it.
    NotOf(u64),
    /// A name was live through this handshake, or stopped for it, and has no reply.
    Unanswered(u64),
    /// A reply of this handshake doesn't fit the stack of its thread.
    Reply(u64),
    /// The replies of this operation are kept after they were forgotten.
    Kept(u64),
    /// The replies of this operation are forgotten, although it is open, waits or isn't submitted yet.
    Forgotten(u64),
    /// After all threads exited, a name is live.
    Live,
    /// After all threads exited, the count words have this sum.
    Counted(u64),
    /// After all threads exited, the code of this serial isn't freed.
    Unfreed(u64),
    /// A stream lost a call, or there is no memory for the log.
    NoLog,
}

impl From<AllocError> for Wrong {
    fn from(_error: AllocError) -> Wrong {
        Wrong::NoMemory
    }
}

impl fmt::Display for Wrong {
    fn fmt<W: fmt::Write>(&self, f: &mut fmt::Formatter<W>) -> fmt::Result {
        match self {
            Wrong::NoMemory => write!(f, "no memory"),
            Wrong::NoThread => write!(f, "no thread"),
            Wrong::Answer(step) => write!(f, "a wrong answer of {step:?}"),
            Wrong::Entered(serial) => write!(
                f,
                "code {serial} was entered after it was invalidated"
            ),
            Wrong::Census(op) => write!(f, "census {op} has a wrong list"),
            Wrong::Counts(op) => write!(f, "the count words weren't those of census {op}"),
            Wrong::Twice(op) => write!(f, "a name has two replies of handshake {op}"),
            Wrong::NotOf(op) => write!(
                f,
                "a name has a reply of handshake {op}, which isn't of it"
            ),
            Wrong::Unanswered(op) => write!(f, "a name has no reply of handshake {op}"),
            Wrong::Reply(op) => write!(f, "a reply of handshake {op} is wrong"),
            Wrong::Kept(op) => write!(f, "operation {op} isn't forgotten"),
            Wrong::Forgotten(op) => write!(f, "operation {op} is forgotten too soon"),
            Wrong::Live => write!(f, "a name is live after all threads exited"),
            Wrong::Counted(sum) => write!(f, "{sum} is counted after all threads exited"),
            Wrong::Unfreed(serial) => write!(f, "code {serial} isn't freed"),
            Wrong::NoLog => write!(f, "no log"),
        }
    }
}

/// Keeps the first error.
pub fn note(wrong: &mut Option<Wrong>, found: Wrong) {
    if wrong.is_none() {
        *wrong = Some(found);
    }
}
