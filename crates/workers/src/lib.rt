//! Runs a script on threads. Each thread makes the marks of the script by its own calls.
//! `cli` uses it to run scripts.
//! Read `src/running.rt` first, then `src/worker.rt`, `specs/Marks.antt` and `docs/start/SCRIPTS.md`.
#![tactic(auto)]

mod crossings;
mod fault;
mod gate;
mod reclaimer;
mod report;
mod running;
mod summary;
mod task;
mod threads;
mod worker;

pub use fault::RunFault;
pub use gate::{Gate, OpenGate};
pub use reclaimer::{Reclaimer, Tally};
pub use report::{Ending, Report};
pub use running::run;
pub use summary::{Line, Summary};
pub use task::FUEL;
pub use worker::{Refused, Worker};
