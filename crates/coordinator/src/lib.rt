//! The coordinator of a running system: it opens requests, arms, holds and serves threads, operates censuses, closes
//! requests, and reclaims codes. The coordinator thread of a runtime calls it through `meqzhuly`, and `workers` runs
//! scripts with it.
//! Read `src/coordinator.rt` first, then `src/driving.rt`, `specs/Driving.antt` and `docs/running/API.md`.
//!
//! Each of `open`, `tell`, `hold`, `serve`, `operate`, `release`, `close` and `close_of` is a step of a request.
//! `drive` works on one request from its Open to its Close, and `drive_four` on up to four handshakes at once.
//! `reclaim` does all steps that free a code. `docs/running/DESIGN.md` says which lock each call takes. No call holds
//! two locks.
#![tactic(auto)]

mod all_armed;
mod censuses;
mod closed;
mod coordinator;
mod counted;
mod driving;
mod driving_censuses;
mod driving_handshakes;
mod fault_texts;
mod faults;
mod four;
mod holding;
mod looks;
mod reclaiming;
mod rounds;
mod serving;
mod telling;

pub use closed::Worked;
pub use coordinator::Coordinator;
pub use desk::{NotReclaimed, ReclaimFault};
pub use faults::{DriveFault, Driven};
pub use stopped_threads::{
    HoldFault, OperateFault, Reclaimed, ReleaseFault, ServeFault, TellFault, Told,
};
