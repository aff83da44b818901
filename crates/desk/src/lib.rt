//! The desk of a running system: one history of entries says which threads are live, which operations are requested,
//! and which codes there are. `thread_list` keeps it under a lock; `coordinator` and `coordinator_core` call it. Read
//! `src/desk.rt` and `src/entries.rt` first, then `specs/Machine.antt` and `specs/Refusals.antt`.
//!
//! A call that changes the desk appends the entry of its name and returns the entry's receipt. If that entry isn't
//! lawful, the call refuses and changes nothing. The type's invariant: the history is legal, and the desk's fields are
//! the state after it.
#![tactic(auto)]

mod asking;
mod closing;
mod codes;
mod desk;
mod entries;
mod faults;
mod finished;
mod finishing;
mod forgetting;
mod ghost_history;
mod installing;
mod law;
mod lists;
mod log;
mod names;
mod open_requests;
mod opening;
mod operating;
mod reclaiming;
mod replies;
mod targets;
mod threads;
mod weighing;

pub use closing::Closing;
pub use desk::Desk;
pub use entries::{Entry, Live, Progress, Standing, Target};
pub use faults::{
    AskFault, CloseFault, CodeFault, NotLive, NotReclaimed, OpenFault, OperateFault, ReclaimFault,
    Refused, StartFault,
};
pub use finished::Finished;
pub use law::{at_most_once, due_are_told, live_names_rise};
pub use log::Receipt;
pub use operating::Operating;
pub use weighing::Weighing;
