//! The program: it reads a log of calls with an order that somebody found for it, and writes the lines of that order.
//! People and searching programs run it, so that nobody has to trust their orders.
//! Read `run.rt` first, then `told.rt` and `crates/confirm/README.md`.
#![tactic(auto)]

mod fault;
mod input;
mod order;
mod parts;
mod run;
#[cfg(test)]
mod tests;
mod told;

use crate::fault::Fault;
use crate::run::{Status, confirm};
use replay::device::{FromReader, IntoWriter};
use std::env;
use std::process::ExitCode;

/// `confirm` reads from standard input a log of calls, a line `order`, and a line for each event: the number of its call in the log,
/// counted from 0, and the event as `monitor replay` reads it. If the order explains the log, it writes the lines of the order to standard
/// output, after a line for the sizes, and the status is 0. If it doesn't, the status is 1, and for a fault it is 2: then standard error
/// has one line that says so, and standard output gets nothing, or a prefix of the lines if a write failed.
fn main(rt: HostRuntime) -> ExitCode {
    match confirm_input(&rt) {
        Ok(Status::Explained) => ExitCode::SUCCESS,
        Ok(Status::NotExplained) => {
            let _ = eprintln!(rt; "confirm: the order doesn't explain the log");
            ExitCode::from(1)
        }
        Err(fault) => {
            let _ = eprintln!(rt; "confirm: {fault}");
            ExitCode::from(2)
        }
    }
}

fn confirm_input(rt: &HostRuntime) -> Result<Status, Fault> {
    if has_words(rt) {
        return Err(Fault::BadWords);
    }
    let mut source = FromReader::new(rt.stdin());
    let mut sink = IntoWriter::new(rt.stdout());
    confirm(rt.alloc(), &mut source, &mut sink)
}

// Whether there are words after the program's name, or the words can't be read.
fn has_words(rt: &HostRuntime) -> bool {
    match env::args(rt) {
        Ok(words) => words.skip(1).next().is_some(),
        Err(_) => true,
    }
}
