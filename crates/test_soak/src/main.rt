//! Runs threads with random calls over shared state, while codes are replaced and reclaimed under them, and checks all answers.
//! `rt ci` runs it for a moment, `make soak` for minutes, and `tests/witness.py` lets it record its calls.
//! Read `src/player.rt` first (a thread), then `src/driver.rt` (the coordinator beside it) and `src/verdict.rt`.
//!
//! `soak THREADS ROUNDS SEED` prints one line: what the run did, or what went wrong first. With `forget` as a fourth word the run forgets
//! closed operations now and then. With `record` it prints a log for `witness` instead: the calls of each thread and of the coordinator.
//! Without words it makes a short run of each kind, then one in a single machine thread, and prints that log, which is in `stdout`.
#![tactic(auto)]

ghost use Rattle.std.specs.Prelude.{◌≡◌};

mod answers;
mod asked;
mod by_hand;
mod by_one;
mod calls;
mod codes;
mod counts;
mod driver;
mod forgetting;
mod hands;
mod making;
mod plan;
mod player;
mod replacing;
mod requests;
mod running;
mod signals;
mod tally;
mod threads;
mod verdict;
mod words;
mod wrong;

use making::{Makes, Plain, Recording};
use operations::job::{HandshakeOp, Query};
use plan::{Kind, Plan};
use recorder::{RecordedJob, Recorder};
use running::{Made, run};
use std::alloc::Global;
use std::marker::Brand;
use std::process::ExitCode;
use std::sync::Wait;
use std::thread::Threads;
use thread_list::Parts;
use words::{Form, read_words};
use wrong::Wrong;

/// The exit status is 0 if all answers were right, 1 if not, and 2 for bad words. THREADS is 1 to 64, ROUNDS is 1 to 500, or up to a
/// thousand million with `forget`, and SEED is any number below 2^64.
fn main(rt: HostRuntime) -> ExitCode {
    let Some(form) = read_words(&rt, rt.alloc()) else {
        let _ = eprintln!(rt; "soak: bad words");
        return ExitCode::from(2);
    };
    let (plan, made) = match form {
        Form::Short => try_all(&rt, rt.alloc()),
        Form::Run(plan) => (plan, make(&rt, rt.alloc(), plan)),
    };
    if tell(&rt, plan, made) {
        ExitCode::SUCCESS
    } else {
        ExitCode::FAILURE
    }
}

// Makes a short run of each kind. Answers the last one, or the first that went wrong.
fn try_all<R: Threads + Wait + Sync>(rt: &R, alloc: Global) -> (Plan, Result<Made, Wrong>) {
    for kind in [Kind::Counted, Kind::Forgotten, Kind::Recorded] {
        let plan = Plan::short(kind);
        if let Err(wrong) = make(rt, alloc, plan) {
            return (plan, Err(wrong));
        }
    }
    let plan = Plan::by_one();
    (plan, make(rt, alloc, plan))
}

// Prints the result. Answers whether all answers were right and the result was printed.
fn tell(rt: &HostRuntime, plan: Plan, made: Result<Made, Wrong>) -> bool {
    match &made {
        Ok(Made::Tally(tally)) => println!(rt; "{plan} {tally} ok").is_ok(),
        Ok(Made::Log(log)) => match std::str::from_utf8(log.as_slice()) {
            Ok(text) => print!(rt; "{text}").is_ok(),
            Err(_) => false,
        },
        Err(wrong) => {
            let _ = println!(rt; "{plan} wrong: {wrong}");
            false
        }
    }
}

fn make<R: Threads + Wait + Sync>(rt: &R, alloc: Global, plan: Plan) -> Result<Made, Wrong> {
    if plan.is_recorded() {
        let recorder = Recorder::new(alloc);
        return record(rt, alloc, plan, &recorder);
    }
    make_run::<Query, R, Plain>(rt, alloc, plan, Plain, None)
}

fn record<'a, R: Threads + Wait + Sync>(
    rt: &'a R,
    alloc: Global,
    plan: Plan,
    recorder: &'a Recorder,
) -> Result<Made, Wrong> {
    let jobs = Recording { rt, recorder };
    make_run::<RecordedJob<'a, Query, R>, R, Recording<'a, R>>(
        rt,
        alloc,
        plan,
        jobs,
        Some(recorder),
    )
}

fn make_run<J: HandshakeOp + Send, R: Threads + Wait + Sync, M: Makes<J>>(
    rt: &R,
    alloc: Global,
    plan: Plan,
    jobs: M,
    recorder: Option<&Recorder>,
) -> Result<Made, Wrong> {
    let sizes = plan.sizes;
    let (slots, methods) = (sizes.slots as usize, sizes.methods as usize);
    let Ok(parts) = Parts::new(alloc, sizes.places, slots, methods) else {
        return Err(Wrong::NoMemory);
    };
    run::<Brand, J, R, M>(rt, alloc, plan, parts, jobs, recorder)
}
