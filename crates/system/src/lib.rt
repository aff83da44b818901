//! The core of the safepoint and handshake coordinator: its events, its answers, and the system that does events.
//! `replay` gives it the lines of a run. `tie` and `differential_schedule` compare the running layer with it.
//! Read `crates/system/README.md` first, then `src/machine.rt` (`run`) and `specs/Step.antt`.
#![tactic(auto)]

pub mod answers;
mod code_events;
pub mod events;
mod index_events;
pub mod keeping;
pub mod laws;
pub mod machine;
pub mod opens;
pub mod places;
pub mod records;
mod request_events;
pub mod requests;
mod safepoints;
pub mod tells;
pub mod thread;
mod thread_events;

pub use machine::{NewFault, Stopped, System};
