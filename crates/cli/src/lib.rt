//! The forms of `monitor`, by its command line, except the form that answers lines.
//! `monitor` calls this crate.
//! Read `src/command_line.rt` first, then `src/check.rt`, `src/running.rt` and `specs/Faults.antt`.
//!
//! The forms are checking a script and running it on threads. The caller gives all devices. A fault has its text and its exit status.
#![tactic(auto)]

mod check;
mod command_line;
mod fault;
mod running;
mod words;

pub use check::{check_script, check_text, line_of, read_code};
pub use command_line::{Form, read_form};
pub use fault::Fault;
pub use running::run_with;
pub use words::{CommandLine, OfProcess, read_words};
