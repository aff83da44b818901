//! The acts of a party, and why an act isn't done.
ghost use Rattle.std.specs.Prelude.{◌≡◌};

use coordinator_core::{HoldFault, OperateFault, ReleaseFault, ServeFault, TellFault};
use desk::{AskFault, CloseFault, CodeFault, OpenFault, ReclaimFault, StartFault};
use method_table::table::InvalidateFault;
use operations::Ask;

/// An act of a party.
#[derive(Clone, Copy, PartialEq, Eq, Debug, Drop)]
pub enum Act {
    /// The party becomes a thread and starts.
    Start,
    Call(u32),
    Ret,
    BackEdge,
    Publish,
    ToVm,
    FromVm,
    ToNative,
    FromNative,
    Block,
    Unblock,
    StopNext,
    StopServe,
    Exit,
    /// The thread's name, its place, and its state.
    Name,
    Place,
    State,
    /// How many frames the thread's stack has.
    Depth,
    /// Adds the name to the targets of the next request.
    Target(u64),
    /// Makes all threads that are live at the Submit the targets of the next request.
    TargetAll,
    /// Queues a handshake of the targets or, for None, a census.
    Submit(Option<Ask>),
    Install(u32),
    Invalidate(u64),
    /// The reply in an operation (the first number) of a name (the second).
    Reply(u64, u64),
    /// The least live name above this one.
    LiveAfter(u64),
    /// The kind of the open requests, as a number.
    OpenKind,
    /// The least number of an open or waiting request, 0 without one.
    Pending,
    Forget,
    Open,
    Tell(u64),
    Hold(usize),
    Serve(usize),
    Release(usize),
    /// Operates the open census over the held threads.
    Operate,
    /// How many frames the code of the serial had in the last operated census.
    Counted(u64),
    /// Closes the open request of the number or, for None, the oldest.
    Close(Option<u64>),
    /// Advances the work on the open requests as far as it goes without waiting: the number of the request that it
    /// closed.
    Advance,
    /// The operation of the host's next callback, 0 without one.
    CalledOperation,
    /// The place of the held thread of that callback.
    CalledPlace,
    /// How many threads the work waits for.
    Awaited,
    /// The least name above this one of a thread that the work waits for, 0 without one.
    AwaitedAfter(u64),
    /// The place of that thread, 0 without one.
    AwaitedPlace(u64),
    /// The first step of reclaiming a code: makes a round, and queues a handshake of the targets if there are any.
    Reclaim(u64),
    /// The last step: weighs the code, and frees it if it has no activation.
    Weigh(u64),
}

/// Why an act isn't done.
#[derive(Clone, Copy, PartialEq, Eq, Debug, Drop)]
pub enum Fault {
    /// A lock is taken, or something that the act needs isn't there. Try again.
    Again,
    NoMemory,
    /// Parties of this role don't do the act.
    NotThis,
    /// The thread's state doesn't allow the act.
    Illegal,
    NoSuchMethod,
    DepthFull,
    EmptyStack,
    StackNotEmpty,
    /// The operation isn't closed and has no reply of the name.
    Pending,
    /// No reply of the name in the operation is stored.
    NotAnswered,
    /// The code can't be weighed.
    NotWeighed,
    /// The least place whose thread may still enter the code, or may have entered it and not published since.
    Late(usize),
    /// A held thread is served next. The host may run its part of that handshake before.
    Runs,
    /// The census is operated, and all live threads are held. The host may run its VM operation.
    AtSafepoint,
    /// Threads of the request aren't at a safepoint yet.
    Awaits,
    Start(StartFault),
    Ask(AskFault),
    Code(CodeFault),
    Invalidate(InvalidateFault),
    Open(OpenFault),
    Tell(TellFault),
    Hold(HoldFault),
    Serve(ServeFault),
    Release(ReleaseFault),
    Operate(OperateFault),
    Close(CloseFault),
    Reclaim(ReclaimFault),
}
