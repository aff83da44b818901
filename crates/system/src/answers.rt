// Answers to events, and refusals.
ghost use Rattle.std.specs.Prelude.{◌≡◌, IfOk};

use frames::Frame;
use method_table::CodeState;
use operations::Kind;
use std::alloc::{AllocError, Global};
use std::marker::Model;
use thread_state::State;

/// Why an event is refused.
#[derive(Clone, Copy, Debug, PartialEq, Eq, Drop)]
pub enum Refusal {
    NoSuchPlace,
    Illegal(State),
    Publishing,
    NotBegun,
    ChangesLeft,
    Held,
    NoSuchMethod,
    Unknown,
    Unpublished,
    DepthFull,
    NotOf,
    EmptyStack,
    StackNotEmpty,
    OperationPending,
    NotDone,
    NothingOpen,
    NotTold,
    AlreadyDone,
    NotSafe,
    NotHeld,
    SafepointOpen,
    PlacesFull,
    Spent,
    TableFull,
    SerialsSpent,
    NotInUse,
    NotNotEntrant,
    NotZombie,
    QueueFull,
    NoTargets,
    BadTargets,
    AlreadyOpen,
    QueueEmpty,
    AlreadyTold,
    NotAllHeld,
}

/// A code's serial and its number of frames.
#[derive(Clone, Copy, Debug, PartialEq, Eq, Drop)]
pub struct CodeCount {
    pub serial: u64,
    pub count: u32,
}

/// The result of a census, in rising serial.
#[derive(Debug, Drop)]
pub struct CountList {
    counts: Box<Vec<CodeCount>>,
}

impl Model for CountList {
    ghost use Rattle.std.specs.Prelude.{List};
    ghost use Rattle.system.specs.declared.answers.CodeCount.{CodeCount};

    ghost Value = { List CodeCount };

    ghost view = { λ l. l.counts.value.items };
}

impl CountList {
    pub fn from_vec(alloc: Global, counts: Vec<CodeCount>) -> Result<CountList, AllocError>
        ensures { IfOk result (λ list. list ≡ counts.items) }
    {
        let counts = Box::new(alloc, counts)?;
        Ok(CountList { counts })
    }

    pub fn as_slice(&self) -> &[CodeCount]
        ensures { result.now ≡ self.now }
    {
        self.counts.as_slice()
    }
}

/// The answer to an event. A `usize` is a place; every other number is a name, serial, operation, count or difference
/// of counts.
#[derive(Debug, Drop)]
pub enum Answer {
    Done,
    Thread(u64, usize),
    Exited(u64),
    Changed(u64, i32),
    NoChange,
    Go,
    Stop(u64),
    Entered,
    WrongMethod,
    Reply(u64),
    Frames(FrameList),
    Code(u64),
    NoCode,
    Clear,
    Late,
    NotLooked(usize),
    Used(u32),
    Retired,
    Asked(u64),
    Opened(u64, Kind),
    Closed(u64),
    Told,
    Gone,
    Census(CountList),
    Count(u32),
    State(CodeState),
    Refused(Refusal),
}
/// The frames of a stack, the bottom first.
#[derive(Debug, Drop)]
pub struct FrameList {
    frames: Box<Vec<Frame>>,
}

impl Model for FrameList {
    ghost use Rattle.std.specs.Prelude.{List};
    ghost use Rattle.frames.specs.declared.Frame.{Frame};

    ghost Value = { List Frame };

    ghost view = { λ l. l.frames.value.items };
}

impl FrameList {
    pub fn from_vec(alloc: Global, frames: Vec<Frame>) -> Result<FrameList, AllocError>
        ensures { IfOk result (λ list. list ≡ frames.items) }
    {
        let frames = Box::new(alloc, frames)?;
        Ok(FrameList { frames })
    }

    pub fn as_slice(&self) -> &[Frame]
        ensures { result.now ≡ self.now }
    {
        self.frames.as_slice()
    }
}
