//! Scripts for threads: reads a text of JSON as a script, and checks the script into flat code.
//! `cli` checks scripts with it, and `interp` and `workers` run the code that it checked.
//! Read `src/reading.rt` first, then `specs/Checks.antt` and `docs/start/SCRIPTS.md`.
#![tactic(auto)]

mod checking;
mod code;
mod fault;
mod items;
mod place;
mod reading;
mod shape;
mod walk;

pub use checking::{MAX_LEVELS, MAX_TURNS, check};
pub use code::{Code, Op, Routine};
pub use fault::{Fault, ScriptFault};
pub use items::{Action, Item, Method, Script};
pub use place::Place;
pub use reading::{MAX_BYTES, MAX_ITEMS, MAX_METHODS, read_script};
