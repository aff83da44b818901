//! Why the desk refuses a call. The tests of a call run in the order in which its faults are listed here.
ghost use Rattle.std.specs.Prelude.{◌≡◌};
ghost use Rattle.desk.specs.Refusals.{ask_fault};

use crate::log::RoomFault;
use method_table::table::{InstallFault, RetireFault};
use std::error::Error;
use std::fmt;

/// Why no thread starts.
#[derive(Drop, Clone, Copy, PartialEq, Eq, Debug)]
pub enum StartFault {
    /// A census is open.
    SafepointOpen,
    /// All places are taken by live threads.
    PlacesFull,
    /// All names have been given out.
    Spent,
    /// The history has no room for the Start and the later Exit.
    HistoryFull,
    /// There is no memory.
    NoMemory,
}

impl fmt::Display for StartFault {
    fn fmt<W: fmt::Write>(&self, f: &mut fmt::Formatter<W>) -> fmt::Result {
        match self {
            StartFault::SafepointOpen => f.write_str("a census is open"),
            StartFault::PlacesFull => f.write_str("each place has a live thread"),
            StartFault::Spent => f.write_str("all names are given out"),
            StartFault::HistoryFull => f.write_str(
                "the history has no room for the start and the exit",
            ),
            StartFault::NoMemory => f.write_str("there is no memory"),
        }
    }
}

impl Error for StartFault {}

/// The name isn't live.
#[derive(Drop, Clone, Copy, PartialEq, Eq, Debug)]
pub struct NotLive;

impl fmt::Display for NotLive {
    fn fmt<W: fmt::Write>(&self, f: &mut fmt::Formatter<W>) -> fmt::Result {
        f.write_str("no live thread has the name")
    }
}

impl Error for NotLive {}

/// Why a request isn't queued.
#[derive(Drop, Clone, Copy, PartialEq, Eq, Debug)]
pub enum AskFault {
    /// All operation numbers have been given out.
    Spent,
    /// The queue of waiting requests is full.
    QueueFull,
    /// A handshake has no targets.
    NoTargets,
    /// A target is listed twice, there are too many targets, or the jobs aren't one for each target, in order and with
    /// the request's ask.
    BadTargets,
    /// The history has no room for all entries that the request can still cause.
    HistoryFull,
    /// There is no memory.
    NoMemory,
}

impl fmt::Display for AskFault {
    fn fmt<W: fmt::Write>(&self, f: &mut fmt::Formatter<W>) -> fmt::Result {
        match self {
            AskFault::Spent => f.write_str("all numbers are given out"),
            AskFault::QueueFull => f.write_str("as many requests wait as can"),
            AskFault::NoTargets => f.write_str("a handshake has no targets"),
            AskFault::BadTargets => f.write_str(
                "a target stands twice, there are too many, or the jobs are others than those of the targets",
            ),
            AskFault::HistoryFull => f.write_str(
                "the history has no room for all that the request can enter",
            ),
            AskFault::NoMemory => f.write_str("there is no memory"),
        }
    }
}

impl Error for AskFault {}

/// A request that was refused, with its jobs.
#[derive(Drop)]
pub struct Refused<J> {
    pub fault: AskFault,
    pub jobs: Vec<J>,
}

/// Why no request is opened.
#[derive(Drop, Clone, Copy, PartialEq, Eq, Debug)]
pub enum OpenFault {
    /// Four handshakes are open, a census is open, or the oldest waiting request is a census while another request is
    /// open.
    AlreadyOpen,
    /// No request waits.
    QueueEmpty,
}

impl fmt::Display for OpenFault {
    fn fmt<W: fmt::Write>(&self, f: &mut fmt::Formatter<W>) -> fmt::Result {
        match self {
            OpenFault::AlreadyOpen => f.write_str(
                "no further request may be opened beside those that are open",
            ),
            OpenFault::QueueEmpty => f.write_str("no request waits"),
        }
    }
}

impl Error for OpenFault {}

/// Why an open request isn't closed.
#[derive(Drop, Clone, Copy, PartialEq, Eq, Debug)]
pub enum CloseFault {
    /// No request is open.
    NothingOpen,
    /// No request with the given number is open.
    NotOf,
    /// The body of a target is held.
    Held,
    /// The census isn't operated, or a live target of the handshake has no Finish yet.
    NotDone,
}

impl fmt::Display for CloseFault {
    fn fmt<W: fmt::Write>(&self, f: &mut fmt::Formatter<W>) -> fmt::Result {
        match self {
            CloseFault::NothingOpen => f.write_str("no request is open"),
            CloseFault::NotOf => f.write_str("no request of this number is open"),
            CloseFault::Held => f.write_str("the thread of a target is held"),
            CloseFault::NotDone => f.write_str(
                "the census is not operated, or a live target has not finished",
            ),
        }
    }
}

impl Error for CloseFault {}

/// Why the open census isn't operated.
#[derive(Drop, Clone, Copy, PartialEq, Eq, Debug)]
pub enum OperateFault {
    /// No request is open.
    NothingOpen,
    /// The open request is a handshake.
    NotOf,
    /// The census is operated already.
    AlreadyDone,
    /// The bodies aren't exactly those of all live threads.
    NotAllHeld,
}

impl fmt::Display for OperateFault {
    fn fmt<W: fmt::Write>(&self, f: &mut fmt::Formatter<W>) -> fmt::Result {
        match self {
            OperateFault::NothingOpen => f.write_str("no request is open"),
            OperateFault::NotOf => f.write_str("the oldest open request is a handshake"),
            OperateFault::AlreadyDone => f.write_str("the census is operated already"),
            OperateFault::NotAllHeld => f.write_str("the bodies are not those of all live threads"),
        }
    }
}

impl Error for OperateFault {}

/// Why the reclaiming of a code doesn't begin.
#[derive(Drop, Clone, Copy, PartialEq, Eq, Debug)]
pub enum ReclaimFault {
    /// The code is unknown, or its state isn't "not entrant".
    Code(RetireFault),
    /// A request is open or waits.
    AlreadyOpen,
    /// The current moment (epoch) is the last one.
    Spent,
    /// The handshake of the reclaiming is refused.
    Ask(AskFault),
}

impl fmt::Display for ReclaimFault {
    fn fmt<W: fmt::Write>(&self, f: &mut fmt::Formatter<W>) -> fmt::Result {
        match self {
            ReclaimFault::Code(fault) => write!(f, "{fault}"),
            ReclaimFault::AlreadyOpen => f.write_str("a request is open or waits"),
            ReclaimFault::Spent => f.write_str("the moment is the last"),
            ReclaimFault::Ask(fault) => write!(f, "{fault}"),
        }
    }
}

impl Error for ReclaimFault {}

/// The refusal to reclaim a code, with the jobs that the caller gave.
#[derive(Drop)]
pub struct NotReclaimed<J> {
    pub fault: ReclaimFault,
    pub jobs: Vec<J>,
}

/// Why no code is installed for a method.
#[derive(Drop, Clone, Copy, PartialEq, Eq, Debug)]
pub enum CodeFault {
    /// The method table refuses it.
    Install(InstallFault),
    /// The history has no room for the four states that a code goes through.
    HistoryFull,
    /// There is no memory.
    NoMemory,
}

impl fmt::Display for CodeFault {
    fn fmt<W: fmt::Write>(&self, f: &mut fmt::Formatter<W>) -> fmt::Result {
        match self {
            CodeFault::Install(fault) => write!(f, "{fault}"),
            CodeFault::HistoryFull => f.write_str(
                "the history has no room for the states of a code",
            ),
            CodeFault::NoMemory => f.write_str("there is no memory"),
        }
    }
}

impl Error for CodeFault {}

pub(crate) fn ask_fault(fault: RoomFault) -> AskFault
    ensures { result ≡ ask_fault fault }
{
    match fault {
        RoomFault::HistoryFull => AskFault::HistoryFull,
        RoomFault::NoMemory => AskFault::NoMemory,
    }
}
