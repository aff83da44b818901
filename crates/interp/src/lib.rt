//! The interpreter of scripts. It makes a script's marks one by one.
//! `workers` runs each thread of a script with it.
//! Read `src/runner.rt` first, then `specs/Trace.antt`.
#![tactic(auto)]

mod frame;
mod mark;
mod runner;

pub use mark::{Mark, Steps, Tape};
pub use runner::{MAX_DEPTH, Outcome, Runner};
