//! The calls that a schedule makes on both sides.
use frames::CodeId;
use operations::Ask;
use std::alloc::{AllocError, Global};
use std::fmt;

/// A call that a thread makes.
#[derive(Clone, Copy)]
pub enum ThreadCall {
    /// Calls the method with this hint.
    Call(u32, Option<CodeId>),
    Ret,
    BackEdge,
    Publish,
    // Where the thread goes, and from where it comes back.
    ToVm,
    ToNative,
    Block,
    FromVm,
    FromNative,
    Unblock,
    Stop,
}

/// A handshake that lists `count` names: `first`, and each next one `step` higher. With a step of 0 it lists one name `count` times.
#[derive(Clone, Copy)]
pub struct Handshake {
    pub first: u64,
    pub step: u64,
    pub count: u64,
    pub ask: Ask,
    /// Whether the call brings one job for each target.
    pub fits: bool,
}

impl Handshake {
    /// The names that the handshake lists.
    pub fn names(&self, alloc: Global) -> Result<Vec<u64>, AllocError> {
        let mut names = Vec::new(alloc);
        let mut name = self.first;
        for _listed in 0..self.count {
            names.push(name)?;
            name = name.saturating_add(self.step);
        }
        Ok(names)
    }
}

/// A call about codes. `Round`, `Look`, `Weigh` and `Free` are calls of the desk, which `Reclaim` makes one after the other.
#[derive(Clone, Copy)]
pub enum CodeCall {
    Install(u32),
    Invalidate(u64),
    Round,
    Look(u64, usize),
    Weigh(u64),
    Free(u64),
    Reclaim(u64, Option<Handshake>),
}

/// A call about a request as a whole.
#[derive(Clone, Copy)]
pub enum RequestCall {
    SubmitCensus,
    Submit(Handshake),
    Open,
    Close,
    CloseOf(u64),
    Drive,
    DriveFour,
    /// Forgets closed operations. The core has no such event: only the kept replies change.
    Forget,
}

/// A step of the open requests, for a name, for a place, or for all threads.
#[derive(Clone, Copy)]
pub enum StepCall {
    Tell(u64),
    Hold(usize),
    Serve(usize),
    Operate,
    Release(usize),
}

/// A call of the running layer. A thread is given by its name, a code by its serial.
#[derive(Clone, Copy)]
pub enum Call {
    Start,
    Of(u64, ThreadCall),
    Exit(u64),
    Code(CodeCall),
    Request(RequestCall),
    Step(StepCall),
}

impl Call {
    /// The handshake whose jobs the call takes unless it is refused.
    pub(crate) fn takes_jobs(self) -> Option<Handshake> {
        match self {
            Call::Request(request) => match request {
                RequestCall::Submit(handshake) => Some(handshake),
                _ => None,
            },
            Call::Code(code) => match code {
                CodeCall::Reclaim(_, handshake) => handshake,
                _ => None,
            },
            _ => None,
        }
    }
}

impl ThreadCall {
    fn word(self) -> &'static str {
        match self {
            ThreadCall::Call(_, _) => "call",
            ThreadCall::Ret => "ret",
            ThreadCall::BackEdge => "back_edge",
            ThreadCall::Publish => "publish",
            ThreadCall::ToVm => "to_vm",
            ThreadCall::FromVm => "from_vm",
            ThreadCall::ToNative => "to_native",
            ThreadCall::FromNative => "from_native",
            ThreadCall::Block => "block",
            ThreadCall::Unblock => "unblock",
            ThreadCall::Stop => "stop",
        }
    }

    // The method and the hint's serial, if this is a call of a method; else 0.
    fn numbers(self) -> (u64, u64) {
        match self {
            ThreadCall::Call(method, Some(id)) => (u64::from(method), id.serial),
            ThreadCall::Call(method, None) => (u64::from(method), 0),
            _ => (0, 0),
        }
    }
}

impl CodeCall {
    // The word of the call, its method or serial, and its place.
    fn words(self) -> (&'static str, u64, u64) {
        match self {
            CodeCall::Install(method) => ("install", u64::from(method), 0),
            CodeCall::Invalidate(serial) => ("invalidate", serial, 0),
            CodeCall::Round => ("round", 0, 0),
            CodeCall::Look(serial, place) => ("look", serial, place as u64),
            CodeCall::Weigh(serial) => ("weigh", serial, 0),
            CodeCall::Free(serial) => ("free", serial, 0),
            CodeCall::Reclaim(serial, _) => ("reclaim", serial, 0),
        }
    }
}

impl RequestCall {
    fn words(self) -> (&'static str, u64) {
        match self {
            RequestCall::SubmitCensus => ("submit_census", 0),
            RequestCall::Submit(_) => ("submit", 0),
            RequestCall::Open => ("open", 0),
            RequestCall::Close => ("close", 0),
            RequestCall::CloseOf(number) => ("close_of", number),
            RequestCall::Drive => ("drive", 0),
            RequestCall::DriveFour => ("drive_four", 0),
            RequestCall::Forget => ("forget", 0),
        }
    }
}

impl StepCall {
    fn words(self) -> (&'static str, u64) {
        match self {
            StepCall::Tell(name) => ("tell", name),
            StepCall::Hold(place) => ("hold", place as u64),
            StepCall::Serve(place) => ("serve", place as u64),
            StepCall::Operate => ("operate", 0),
            StepCall::Release(place) => ("release", place as u64),
        }
    }
}

impl Call {
    // The word of the call and its numbers; 0 for a number that it lacks. For a thread's call: its name, the method and the hint's
    // serial.
    fn words(self) -> (&'static str, u64, u64, u64) {
        match self {
            Call::Start => ("start", 0, 0, 0),
            Call::Of(name, call) => {
                let (method, serial) = call.numbers();
                (call.word(), name, method, serial)
            }
            Call::Exit(name) => ("exit", name, 0, 0),
            Call::Code(call) => {
                let (word, first, second) = call.words();
                (word, first, second, 0)
            }
            Call::Request(call) => {
                let (word, number) = call.words();
                (word, number, 0, 0)
            }
            Call::Step(call) => {
                let (word, number) = call.words();
                (word, number, 0, 0)
            }
        }
    }
}

impl fmt::Display for Handshake {
    fn fmt<W: fmt::Write>(&self, f: &mut fmt::Formatter<W>) -> fmt::Result {
        let Handshake {
            first,
            step,
            count,
            ask,
            fits,
        } = *self;
        write!(f, " {ask:?} of {count} from {first} by {step}, {fits}")
    }
}

impl fmt::Display for Call {
    fn fmt<W: fmt::Write>(&self, f: &mut fmt::Formatter<W>) -> fmt::Result {
        let (word, first, second, third) = self.words();
        write!(f, "{word} {first} {second} {third}")?;
        match self.takes_jobs() {
            Some(handshake) => handshake.fmt(f),
            None => Ok(()),
        }
    }
}
