//! The answer to a call, in one form for both sides.
use frames::CodeId;
use std::alloc::AllocError;
use system::answers::Refusal;

/// The answer to a call. Names, serials, operations and counts are numbers; places are indexes. The side that answers keeps the lists.
#[derive(Clone, Copy)]
pub enum Said {
    /// No answer: the call would wait, or the rules don't cover it. The call isn't made.
    Waits,
    NoMemory,
    Done,
    Thread(u64, usize),
    Exited(u64),
    Go,
    Stop(u64),
    Compiled(u64),
    Interpreted,
    Code(u64),
    Clear,
    Late,
    NotLooked(usize),
    Used(u64),
    Retired,
    Freed,
    Asked(u64),
    Opened(u64),
    Closed(u64),
    Told,
    Gone,
    Reply(u64),
    /// A handshake was driven to its Close.
    Handshake(u64),
    /// A census was driven or operated. Its counts are a list.
    Census(u64),
    Number(u64),
    /// Closed operations are forgotten.
    Forgot,
    Refused(Refusal),
    /// The history is full. The core has no such limit.
    HistoryFull,
    /// Answers of core events that are never the final answer of a call. The last two have lists.
    Entered,
    SentAway,
    Changed,
    NoChange,
    NoCode,
    Counts,
    Frames,
}

impl Said {
    /// The parts by which answers are compared: a word, numbers (0 for those that it lacks), and the refusal.
    pub(crate) fn parts(self) -> (&'static str, u64, u64, Option<Refusal>) {
        let (number, place) = self.numbers();
        (self.word(), number, place, self.refusal())
    }

    fn refusal(self) -> Option<Refusal> {
        match self {
            Said::Refused(refusal) => Some(refusal),
            _ => None,
        }
    }

    fn numbers(self) -> (u64, u64) {
        match self {
            Said::Thread(name, place) => (name, place as u64),
            Said::NotLooked(place) => (0, place as u64),
            Said::Exited(number)
            | Said::Stop(number)
            | Said::Compiled(number)
            | Said::Code(number)
            | Said::Used(number)
            | Said::Asked(number)
            | Said::Opened(number)
            | Said::Closed(number)
            | Said::Reply(number)
            | Said::Handshake(number)
            | Said::Census(number)
            | Said::Number(number) => (number, 0),
            _ => (0, 0),
        }
    }

    fn word(self) -> &'static str {
        match self {
            Said::Waits => "waits",
            Said::NoMemory => "no memory",
            Said::Done => "done",
            Said::Thread(_, _) => "thread",
            Said::Exited(_) => "exited",
            Said::Go => "go",
            Said::Stop(_) => "stop",
            Said::Compiled(_) => "compiled",
            Said::Interpreted => "interpreted",
            Said::Code(_) => "code",
            Said::Clear => "clear",
            Said::Late => "late",
            Said::NotLooked(_) => "not looked",
            Said::Used(_) => "used",
            Said::Retired => "retired",
            Said::Freed => "freed",
            Said::Asked(_) => "asked",
            Said::Opened(_) => "opened",
            Said::Closed(_) => "closed",
            Said::Told => "told",
            Said::Gone => "gone",
            Said::Reply(_) => "reply",
            Said::Handshake(_) => "handshake",
            Said::Census(_) => "census",
            Said::Number(_) => "number",
            Said::Forgot => "forgot",
            Said::Refused(_) => "refused",
            Said::HistoryFull => "history full",
            Said::Entered => "entered",
            Said::SentAway => "sent away",
            Said::Changed => "changed",
            Said::NoChange => "no change",
            Said::NoCode => "no code",
            Said::Counts => "counts",
            Said::Frames => "frames",
        }
    }
}

impl From<AllocError> for Said {
    fn from(_: AllocError) -> Said {
        Said::NoMemory
    }
}
