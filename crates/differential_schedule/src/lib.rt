//! Random schedules of calls that are made on a running system and on the core beside it.
//! `differential_threads` plays them.
//! Read `src/play.rt` first, then `src/oracle.rt` and `src/compare.rt`.
//!
//! The crate chooses the next call, plays it on the core to get the expected answer, and compares both sides after it. It knows a running
//! system only by the trait `Running`, and depends on no implementation.
#![tactic(auto)]

pub mod calls;
mod compare;
mod habits;
pub mod losses;
mod oracle;
pub mod play;
pub mod running;
pub mod said;
mod schedule;
pub mod stock;
mod sweep;
pub mod tally;
