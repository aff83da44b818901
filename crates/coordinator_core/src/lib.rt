//! The steps of a coordinator over a desk and rooms that are lent to it. It has no lock of its own.
//! `parties` makes the coordinator's acts of these steps.
//! Read `src/coordinator.rt` first, then `specs/Done.antt` and `stopped_threads/specs/Refused.antt`.
#![tactic(auto)]

mod arming;
mod censuses;
mod coordinator;
mod drive;
mod driving;
mod holding;
mod listing;
mod opening;
mod telling;

pub use arming::put_in;
pub use coordinator::CoordinatorCore;
pub use drive::{Callback, Drive, Stage};
pub use driving::NotCalled;
pub use listing::{Listed, PendingJob, PendingOp, job_of};
pub use opening::open_or_go_on;
pub use stopped_threads::{
    HoldFault, OperateFault, Reclaimed, ReleaseFault, ServeFault, TellFault, Told, Unserved, weigh,
};
