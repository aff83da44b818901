//! How long the calls and the stops of a running system take.
//! `rt ci` runs a few turns; `make bench` and `make scale` time it, through `bench/running.py` and `bench/scale.py`.
//! Read `src/plan.rt` first, then `src/calls.rt` and `src/stops.rt`.
//!
//! `bench_running KIND THREADS ITERS ARG` prints times in nanoseconds, separated by spaces, and nothing else. Without arguments it makes a
//! short run of each kind and prints only `ok`, since times differ from run to run.
#![tactic(auto)]

ghost use Rattle.std.specs.Prelude.{◌≡◌};

mod acts;
mod calls;
mod clock;
mod grown;
mod lives;
mod plan;
mod requests;
mod running;
mod signals;
mod stops;
mod threads;
mod wrong;

use plan::{KINDS, Kind, Plan, Times};
use running::run;
use std::alloc::Global;
use std::marker::Brand;
use std::process::ExitCode;
use std::sync::Wait;
use std::thread::Threads;
use std::time::Clock;
use std::{env, io};
use thread_list::Parts;
use wrong::Wrong;

const METHODS: usize = 256;

/// The status is 0 if all was done, 1 if something failed, and 2 for bad arguments.
fn main(rt: HostRuntime) -> ExitCode {
    let Some(form) = read_words(&rt, rt.alloc()) else {
        let _ = eprintln!(rt; "bench_running: bad words");
        return ExitCode::from(2);
    };
    let is_done = match form {
        Form::Short => tell_tried(&rt, try_each(&rt, rt.alloc())),
        Form::Run(plan) => tell_times(&rt, times_of(&rt, rt.alloc(), plan)),
    };
    if is_done {
        ExitCode::SUCCESS
    } else {
        ExitCode::FAILURE
    }
}

// The plan that the arguments ask for.
#[derive(Clone, Copy, Drop)]
enum Form {
    Short,
    Run(Plan),
}

fn read_words(rt: &HostRuntime, alloc: Global) -> Option<Form> {
    let words: Vec<String> = env::args(rt).ok()?.collect(alloc).ok()?;
    form_of(words.as_slice())
}

fn form_of(words: &[String]) -> Option<Form> {
    match words {
        [_] => Some(Form::Short),
        [_, kind, threads, turns, arg] => {
            let kind = Kind::of(number_of(kind)?)?;
            let plan = Plan::new(
                kind,
                number_of(threads)?,
                number_of(turns)?,
                number_of(arg)?,
            )?;
            Some(Form::Run(plan))
        }
        _ => None,
    }
}

fn number_of(word: &String) -> Option<u64> {
    word.as_str().parse::<u64>().ok()
}

// Returns whether all was done and reported.
fn tell_tried(rt: &HostRuntime, tried: Result<(), Wrong>) -> bool {
    match tried {
        Ok(()) => println!(rt; "ok").is_ok(),
        Err(wrong) => tell_wrong(rt, wrong),
    }
}

// Returns whether all was done and the times were printed.
fn tell_times(rt: &HostRuntime, times: Result<Vec<u64>, Wrong>) -> bool {
    match &times {
        Ok(times) => print_times(rt, times.as_slice()).is_ok(),
        Err(wrong) => tell_wrong(rt, *wrong),
    }
}

fn tell_wrong(rt: &HostRuntime, wrong: Wrong) -> bool {
    let _ = eprintln!(rt; "bench_running: {}", wrong.text());
    false
}

fn print_times(rt: &HostRuntime, times: &[u64]) -> io::Result<()> {
    let mut between = "";
    for time in times {
        print!(rt; "{between}{time}")?;
        between = " ";
    }
    println!(rt; "")
}

// A few turns of each kind.
fn try_each<R: Threads + Wait + Clock + Sync>(rt: &R, alloc: Global) -> Result<(), Wrong> {
    for kind in KINDS {
        for arg in 0..3 {
            if let Some(plan) = Plan::new(kind, 2, 4, arg) {
                times_of(rt, alloc, plan)?;
            }
        }
    }
    Ok(())
}

fn times_of<R: Threads + Wait + Clock + Sync>(
    rt: &R,
    alloc: Global,
    plan: Plan,
) -> Result<Vec<u64>, Wrong> {
    let mut times = Times::new(alloc, plan);
    make_run(rt, &mut times)?;
    Ok(times.all)
}

// Notes the times of the plan's turns.
fn make_run<R: Threads + Wait + Clock + Sync>(rt: &R, times: &mut Times) -> Result<(), Wrong> {
    let plan = times.plan;
    let Ok(parts) = Parts::new(times.alloc, plan.places(), plan.slots(), METHODS) else {
        return Err(Wrong::NoMemory);
    };
    run::<Brand, R>(rt, times, parts)
}
