//! The log of a run's calls: its content, its spelling, and how to read and write it.
//! `call_runs` and `witness_check` explain the calls of a log by events of the core.
//! Read `src/entry.rt` first, then `specs/Spelled.antt` and `docs/start/RECORDING.md`.
#![tactic(auto)]

pub mod arity;
pub mod entry;
pub mod faults;
pub mod lists;
pub mod log;
pub mod reading;
pub mod tokens;
pub mod word;
pub mod writing;
