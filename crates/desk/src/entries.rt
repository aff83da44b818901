//! The entries of the history, and the values that the desk stores.
use crate::names::{Awaited, DueRoom};
use frames::CodeId;
use operations::{Kind, Request};
use std::collections::VecDeque;

/// A live name with its place.
#[derive(Clone, Copy, PartialEq, Eq, Debug)]
pub struct Live {
    pub name: u64,
    pub place: usize,
}

/// The meaning of the open requests for the thread of a name.
#[derive(Clone, Copy, PartialEq, Eq, Debug)]
pub enum Standing {
    /// No request is open.
    NothingOpen,
    /// No open request is for this name: no open handshake lists it, and for an open census the name was never given
    /// out.
    NotOf,
    /// Some open request is for the name, but the thread isn't live, or wasn't live at the Open of any such request.
    Gone,
    /// The thread is live, and was live at the Open of a request that is for it.
    Asked(Target),
}

/// A live thread that is the target of an open request.
#[derive(Clone, Copy, PartialEq, Eq, Debug)]
pub struct Target {
    /// The thread's place.
    pub place: usize,
    /// The kind of the open requests. A census is never open together with another request.
    pub kind: Kind,
}

/// The progress of a live thread with the open requests for which its poll word was armed.
#[derive(Clone, Copy, PartialEq, Eq, Debug)]
pub enum Progress {
    /// Its poll word was armed for no open request.
    NotTold,
    /// It has a Finish for each of these handshakes, or the census is operated.
    Done,
    /// It isn't done with one of these requests. The number is the least of such a request.
    Undone(u64),
}

/// An entry of the history.
#[derive(Drop)]
pub enum Entry {
    /// The name and the place.
    Start(u64, usize),
    Exit(u64),
    Ask(u64, Request),
    Open(u64),
    /// The operation, the name and the reply.
    Finish(u64, u64, u64),
    Operate(u64),
    Close(u64),
    /// The code and its method.
    Install(CodeId, u64),
    Invalidate(u64),
    Retire(u64),
    Free(u64),
}

/// The load of a waiting request: its jobs, and memory for its due names once it is open.
#[derive(Drop)]
pub struct Carried<J> {
    pub room: DueRoom,
    pub jobs: Vec<J>,
}

/// An open request. The fields that a Finish touches come first.
#[derive(Drop)]
pub struct Opened<J> {
    pub number: u64,
    /// For how many more entries room is reserved: Finish entries of a handshake, or the Operate of a census.
    pub left: usize,
    /// The targets that were live at the Open and have no Finish yet.
    pub due: Awaited,
    pub request: Request,
    /// The next name at the Open. A live thread was live at the Open if its name is less than this.
    pub before: u64,
    pub operated: bool,
    /// The jobs that weren't taken, in the order of the targets. Mostly they are taken in this order.
    pub jobs: VecDeque<J>,
}
