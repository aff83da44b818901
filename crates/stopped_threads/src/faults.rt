//! What the calls of both coordinators return, and why they refuse. The faults of a call are tested in the order in which they
//! are listed.
use berths::BerthReceipt;
use bodies::Name;
use desk::{Receipt, Weighing};

/// The result of a `tell`.
#[derive(Drop)]
pub enum Told<N: Name> {
    /// The thread's poll is armed: it stops at its next poll. The receipt says that its berth has the job, or the mark of the
    /// census.
    Told(BerthReceipt<N>),
    /// No thread of the name was live when a request that lists the name was opened and is live still; nothing changed.
    Gone,
}

/// Why a `tell` is refused.
#[derive(Drop, Clone, Copy, PartialEq, Eq, Debug)]
pub enum TellFault {
    /// No request is open.
    NothingOpen,
    /// No open handshake lists the name, or a census is open and the name was never given out.
    NotOf,
    /// All open requests that list the thread are in its berth already.
    AlreadyTold,
}

/// Why a thread isn't held.
#[derive(Drop, Clone, Copy, PartialEq, Eq, Debug)]
pub enum HoldFault {
    NoSuchPlace,
    /// No live thread has the place.
    Vacant,
    /// No request is open.
    NothingOpen,
    /// No open request is of the thread.
    NotOf,
    /// None of these requests is in its berth yet.
    NotTold,
    /// The thread has a Finish of every operation that was in its berth.
    AlreadyDone,
    /// The thread is held.
    Held,
    /// Its body isn't in its berth.
    NotSafe,
}

/// Why the thread of a place isn't released.
#[derive(Drop, Clone, Copy, PartialEq, Eq, Debug)]
pub enum ReleaseFault {
    NoSuchPlace,
    /// No live thread has the place.
    Vacant,
    /// The coordinator doesn't hold the thread of the place.
    NotHeld,
}

/// Why the thread of a place isn't served.
#[derive(Drop, Clone, Copy, PartialEq, Eq, Debug)]
pub enum ServeFault {
    NoSuchPlace,
    /// No live thread has the place.
    Vacant,
    /// The coordinator doesn't hold the thread of the place.
    NotHeld,
    /// No request is open.
    NothingOpen,
    /// A census is open, or no open handshake is of the thread.
    NotOf,
    /// None of these requests is in its berth yet.
    NotTold,
    /// The thread has a Finish of every operation that was in its berth.
    AlreadyDone,
}

/// Why the open census isn't operated.
#[derive(Drop, Clone, Copy, PartialEq, Eq, Debug)]
pub enum OperateFault {
    /// The desk refuses it.
    Refused(desk::OperateFault),
    /// There is no memory for the list.
    NoMemory,
}

/// The result of weighing a code right after a look at all places.
#[derive(Drop)]
pub enum Reclaimed<N: Name> {
    /// The code is freed. The receipt is of its Free.
    Freed(Receipt<N>),
    /// The code still has this many activations. The receipt is of the weighing.
    Used(u64, Weighing<N>),
    /// The least place whose thread may still enter the code, or may have entered it and not published since. The receipt is of
    /// the weighing.
    Late(usize, Weighing<N>),
}
