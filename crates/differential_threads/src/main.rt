//! Compares the running layer with the core in random schedules: after each call, the answers and all visible state of both.
//! `rt ci` runs it for a moment, and `make side` for as many schedules as are asked for.
//! Read `differential_schedule/src/play.rt` first, then `src/running.rt`.
//!
//! `differential_threads` plays 21 schedules of 1,000 calls, with the seeds from 1 on. `differential_threads SEEDS` plays this many, and
//! `differential_threads SEEDS FIRST` begins with seed FIRST. One thread makes all calls of threads and of the coordinator, and plays the
//! events of each call on a `System`. With words it prints how often each kind of result occurred. It prints the first difference in
//! one line and exits with status 1. At the end it tries cores that drop an event or a reply: if one of them isn't told from the
//! running layer, the status is 1 too.
#![tactic(auto)]

mod faults;
mod running;
mod total;
mod trials;
mod words;

use differential_schedule::losses::LOSSES;
use std::process::ExitCode;
use total::play_all;
use trials::lose_all;
use words::{Words, read_words};

fn main(rt: HostRuntime) -> ExitCode {
    let Ok(words) = read_words(&rt, rt.alloc()) else {
        let _ = eprintln!(rt; "differential_threads: bad words");
        return ExitCode::from(2);
    };
    let Words { seeds, first, told } = words;
    let total = match play_all(&rt, rt.alloc(), seeds, first) {
        Ok(total) => total,
        Err(found) => {
            let _ = println!(rt; "{found}");
            return ExitCode::from(1);
        }
    };
    if let Err(untold) = lose_all(&rt, rt.alloc()) {
        let _ = println!(rt; "{untold}");
        return ExitCode::from(1);
    }
    if told {
        let _ = println!(rt;
            "{total}; each of {LOSSES} wrong cores was told from the running system"
        );
    }
    ExitCode::SUCCESS
}
