//! Lines to events, and answers to text.
//! `cli` answers lines by it, `model` steps it for C, and `run_lanes` reads with it.
//! Read `src/stream.rt` first, then `specs/Spelling.antt` and `docs/start/LINES.md`.
#![tactic(auto)]

pub mod device;
pub mod engine;
pub mod grammar;
pub mod held;
pub(crate) mod keywords;
pub mod print;
pub mod spelling;
pub mod stream;
pub(crate) mod words;
