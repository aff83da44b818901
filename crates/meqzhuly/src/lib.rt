//! The running layer as one crate: the names with which a runtime in Rattle stops its threads and frees its code.
//! Runtimes in Rattle use it, with this one crate on their line of crates.txt; `first_stop` is the smallest of them.
//! Read docs/running/API.md first, then `thread_list` for threads and `coordinator` for stops.
#![tactic(auto)]

// A system: its size, and what its threads share.
pub use bodies::Name;
pub use thread_list::{Parts, PartsFault, Shared};

// A thread, and the results of its calls.
pub use bodies::Called;
pub use thread_list::{CallFault, ExitFault, Exited, Mutator, Poll, ReturnFault, Turn};
pub use thread_state::{Illegal, State};

// Requests, and jobs that run in them.
pub use operations::job::{HandshakeOp, Job, Query};
pub use operations::{Ask, Request, Targets};

// The coordinator, which works on requests, and the results of its calls.
pub use coordinator::{
    Coordinator, DriveFault, Driven, HoldFault, NotReclaimed, OperateFault, ReclaimFault,
    Reclaimed, ReleaseFault, ServeFault, TellFault, Told, Worked,
};
pub use poll::Armer;

// The results of a system's calls, and the receipts which show that an entry of the history was made, or that a code was weighed.
pub use desk::{
    AskFault, CloseFault, Closing, CodeFault, NotLive, OpenFault, Operating, Receipt, Refused,
    StartFault, Weighing,
};
pub use method_table::table::{InstallFault, InvalidateFault};
