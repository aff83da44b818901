//! The threads beside the main thread.
use crate::calls::publishing_pairs;
use crate::plan::{Kind, Plan, Times};
use crate::requests::Asker;
use crate::signals::Signals;
use crate::wrong::Wrong;
use crate::{clock, lives};
use bodies::Name;
use operations::job::HandshakeOp;
use std::alloc::Global;
use std::sync::Wait;
use std::thread::{JoinHandle, Scope, Threads};
use std::time::Clock;
use test_tools::keep;
use thread_list::{Mutator, Poll, Shared};

// How many back edges a thread makes between two tests of whether the run is over.
const BATCH: u32 = 64;

// Each of so many threads calls a method of its own.
const METHODS: usize = 256;

/// Starts the plan's threads.
pub fn start_all<
    's,
    'a: 's,
    N: Name + Send,
    J: HandshakeOp + Send,
    R: Threads + Wait + Clock + Sync,
    E,
>(
    scope: &Scope<'s, E>,
    asker: &Asker<'_, '_, 'a, N, J, R>,
    handles: &mut Vec<JoinHandle<Result<u64, Wrong>>>,
) -> Result<(), Wrong> {
    let (rt, alloc, plan) = (asker.rt, asker.alloc, asker.plan);
    let (shared, signals) = (asker.shared, asker.signals);
    for index in 0..plan.threads {
        let method = (index % METHODS) as u32;
        match scope.spawn(move || live(rt, alloc, plan, shared, signals, method)) {
            Ok(handle) => keep(handles, handle)?,
            Err(_) => return Err(Wrong::NoThread),
        }
    }
    Ok(())
}

/// Waits for all threads. Notes the time of each where the plan measures their calls.
pub fn join_all<R: Threads>(
    rt: &R,
    handles: Vec<JoinHandle<Result<u64, Wrong>>>,
    times: &mut Times,
) -> Result<(), Wrong> {
    let mut all = Ok(());
    for handle in handles {
        let time = handle.join(rt);
        if let Err(wrong) = note_time(times, time) {
            all = Err(wrong);
        }
    }
    all
}

fn note_time(times: &mut Times, time: Result<u64, Wrong>) -> Result<(), Wrong> {
    let time = time?;
    if matches!(times.plan.kind, Kind::Together) {
        times.note(time)?;
    }
    Ok(())
}

// A thread from its start to its exit. Returns the time of its calls if they are measured.
fn live<N: Name, J: HandshakeOp, R: Wait + Clock>(
    rt: &R,
    alloc: Global,
    plan: Plan,
    shared: &Shared<N, J>,
    signals: &Signals,
    method: u32,
) -> Result<u64, Wrong> {
    let Some(mut thread) = lives::begin(rt, alloc, shared) else {
        signals.note_ready();
        return Err(Wrong::Answer);
    };
    let time = match plan.kind {
        Kind::Together => time_pairs(rt, plan, signals, &mut thread, method),
        _ => be_stopped(rt, plan, signals, &mut thread),
    };
    if lives::ends(rt, thread) {
        time
    } else {
        Err(Wrong::Answer)
    }
}

// Calls of a method of its own.
fn time_pairs<N: Name, J: HandshakeOp, R: Wait + Clock>(
    rt: &R,
    plan: Plan,
    signals: &Signals,
    thread: &mut Mutator<'_, N, J>,
    method: u32,
) -> Result<u64, Wrong> {
    signals.note_ready();
    signals.wait_begun(rt);
    let start = clock::begin(rt);
    let all = publishing_pairs(thread, method, plan.turns, plan.arg);
    let time = clock::time_since(rt, start)?;
    if all { Ok(time) } else { Err(Wrong::Answer) }
}

// Stops for whatever the main thread asks, with one frame on the stack, until the run is over.
fn be_stopped<N: Name, J: HandshakeOp, R: Wait>(
    rt: &R,
    plan: Plan,
    signals: &Signals,
    thread: &mut Mutator<'_, N, J>,
) -> Result<u64, Wrong> {
    let entered = thread.call_by_hint(0).is_ok() && thread.publish().is_ok();
    let lived = if plan.arg == 0 {
        loop_until_over(rt, signals, thread)
    } else {
        sleep_until_over(rt, signals, thread)
    };
    let left = match thread.ret() {
        Ok(said) => heed(rt, thread, said),
        Err(_) => false,
    };
    if entered && lived && left {
        Ok(0)
    } else {
        Err(Wrong::Answer)
    }
}

// Stops where a poll says so.
fn heed<N: Name, J: HandshakeOp, R: Wait>(
    rt: &R,
    thread: &mut Mutator<'_, N, J>,
    said: Poll,
) -> bool {
    matches!(said, Poll::Go) || thread.stop(rt).is_ok()
}

// Makes back edges.
fn loop_until_over<N: Name, J: HandshakeOp, R: Wait>(
    rt: &R,
    signals: &Signals,
    thread: &mut Mutator<'_, N, J>,
) -> bool {
    signals.note_ready();
    for _ in rt.forever() {
        if signals.is_over() {
            return true;
        }
        if !make_back_edges(rt, thread) {
            return false;
        }
    }
    unreachable!()
}

fn make_back_edges<N: Name, J: HandshakeOp, R: Wait>(
    rt: &R,
    thread: &mut Mutator<'_, N, J>,
) -> bool {
    for _ in 0..BATCH {
        let Ok(said) = thread.back_edge() else {
            return false;
        };
        if !heed(rt, thread, said) {
            return false;
        }
    }
    true
}

// Sleeps in native code.
fn sleep_until_over<N: Name, J: HandshakeOp, R: Wait>(
    rt: &R,
    signals: &Signals,
    thread: &mut Mutator<'_, N, J>,
) -> bool {
    let gone = thread.to_native(rt).is_ok();
    signals.note_ready();
    signals.wait_over(rt);
    match thread.from_native(rt) {
        Ok(said) => gone && heed(rt, thread, said),
        Err(_) => false,
    }
}
