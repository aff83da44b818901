//! The smallest running system: a coordinator asks a running thread how deep its stack is, replaces its code, and frees the old one.
//! Nobody calls it: it is an example, which docs/start/TUTORIAL.md walks through.
//! Read docs/running/API.md beside it.
#![tactic(auto)]

ghost use Rattle.std.specs.Prelude.{◌≡◌};

use meqzhuly::{
    Ask, Coordinator, HandshakeOp, Mutator, Name, Parts, Poll, Query, Reclaimed, Request, Shared,
    Targets,
};
use std::alloc::Global;
use std::marker::Brand;
use std::process::ExitCode;
use std::sync::Wait;
use std::sync::atomic::{AtomicBool, Ordering};
use std::thread::{Threads, join, yield_now};

fn main(rt: HostRuntime) -> ExitCode {
    let Ok(parts) = Parts::new(rt.alloc(), 1, 2, 1) else {
        return ExitCode::FAILURE;
    };
    match run::<Brand, HostRuntime>(&rt, rt.alloc(), parts) {
        Some(depth) => {
            let _ = println!(rt; "depth {depth}; the code was used, and then freed");
            ExitCode::SUCCESS
        }
        None => ExitCode::FAILURE,
    }
}

#[derive(Drop)]
struct Signals {
    is_there: AtomicBool,
    is_asked: AtomicBool,
    is_gone: AtomicBool,
}

// Runs the thread beside the coordinator. Answers the depth that the thread's job found.
fn run<N: Name + Send + Sync, R: Threads + Wait + Sync>(
    rt: &R,
    alloc: Global,
    parts: Parts,
) -> Option<u64>
    requires tables { (parts.board ≡ N.board) × (parts.row ≡ N.poll_row) }
{
    let (shared, armer) = Shared::<N, Query>::new(alloc, parts).ok()?;
    let coordinator = Coordinator::new(&shared, armer, alloc).ok()?;
    let signals = Signals {
        is_there: AtomicBool::new(false),
        is_asked: AtomicBool::new(false),
        is_gone: AtomicBool::new(false),
    };
    shared.install(rt, 0).ok()?;
    beside(
        rt,
        alloc,
        &shared,
        &signals,
        || work(rt, alloc, &shared, coordinator, &signals),
    )
}

// Runs the thread beside this work. Once it is gone nobody waits for it.
fn beside<N: Name + Send + Sync, J: HandshakeOp + Send, R: Threads + Wait + Sync, F>(
    rt: &R,
    alloc: Global,
    shared: &Shared<N, J>,
    signals: &Signals,
    work: F,
) -> Option<u64>
where
    F: FnOnce() -> Option<u64>,
    requires { F.IsAlwaysCallable work }
{
    let (lived, worked) = join(
        rt,
        || {
            let lived = live(rt, alloc, shared, signals);
            signals.is_there.store(true, Ordering::SeqCst);
            signals.is_gone.store(true, Ordering::SeqCst);
            lived
        },
        work,
    );
    lived?;
    worked
}

// The thread's part.
fn live<N: Name, J: HandshakeOp, R: Wait>(
    rt: &R,
    alloc: Global,
    shared: &Shared<N, J>,
    signals: &Signals,
) -> Option<()> {
    let (mut thread, _start) = shared.start(rt, alloc).ok()?;
    run_code(rt, signals, &mut thread)?;
    thread.exit(rt).ok()?;
    Some(())
}

// Loops in the code until it is asked to end.
fn run_code<N: Name, J: HandshakeOp, R: Wait>(
    rt: &R,
    signals: &Signals,
    thread: &mut Mutator<'_, N, J>,
) -> Option<()> {
    thread.call_by_hint(0).ok()?;
    signals.is_there.store(true, Ordering::SeqCst);
    for _ in rt.forever() {
        let poll = thread.back_edge().ok()?;
        heed(rt, thread, poll)?;
        if signals.is_asked.load(Ordering::SeqCst) {
            break;
        }
    }
    let poll = thread.ret().ok()?;
    heed(rt, thread, poll)
}

// Stops where the poll says so: the thread serves what it was told.
fn heed<N: Name, J: HandshakeOp, R: Wait>(
    rt: &R,
    thread: &mut Mutator<'_, N, J>,
    poll: Poll,
) -> Option<()> {
    if let Poll::Stop(_) = poll {
        thread.stop(rt).ok()?;
    }
    Some(())
}

// The coordinator's part.
fn work<N: Name, R: Wait>(
    rt: &R,
    alloc: Global,
    shared: &Shared<N, Query>,
    coordinator: Coordinator<'_, N, Query>,
    signals: &Signals,
) -> Option<u64> {
    let mut coordinator = coordinator;
    wait_for(rt, &signals.is_there);
    let depth = ask(rt, alloc, shared, &mut coordinator);

    let first = replace(rt, alloc, shared, &mut coordinator);
    signals.is_asked.store(true, Ordering::SeqCst);
    wait_for(rt, &signals.is_gone);
    let last = coordinator.reclaim(rt, 1, Vec::new(alloc)).ok()?;
    match (first?, last) {
        (Reclaimed::Used(1, _), Reclaimed::Freed(_)) => depth,
        _ => None,
    }
}

// Code 2 takes the place of code 1, of which the thread has a frame.
fn replace<N: Name, R: Wait>(
    rt: &R,
    alloc: Global,
    shared: &Shared<N, Query>,
    coordinator: &mut Coordinator<'_, N, Query>,
) -> Option<Reclaimed<N>> {
    shared.install(rt, 0).ok()?;
    coordinator.reclaim(rt, 1, depth_job(alloc)?).ok()
}

// A handshake of thread 1, from its submit to its reply.
fn ask<N: Name, R: Wait>(
    rt: &R,
    alloc: Global,
    shared: &Shared<N, Query>,
    coordinator: &mut Coordinator<'_, N, Query>,
) -> Option<u64> {
    let targets = Targets::from_vec(Vec::from_slice(alloc, &[1]).ok()?);
    let request = Request::Handshake {
        targets,
        ask: Ask::Depth,
    };
    let (number, _ask) = shared.submit(rt, request, depth_job(alloc)?).ok()?;
    coordinator.drive(rt).ok()?;
    let replies = shared.replies(rt, number).ok()?;
    let (_name, depth) = *replies.first()?;
    Some(depth)
}

// One job, for thread 1: it answers how many frames the stack has.
fn depth_job(alloc: Global) -> Option<Vec<Query>> {
    let mut jobs = Vec::new(alloc);
    jobs.push(Query::new(1, Ask::Depth)).ok()?;
    Some(jobs)
}

fn wait_for<R: Wait>(rt: &R, signal: &AtomicBool) {
    for _ in rt.forever() {
        if signal.load(Ordering::SeqCst) {
            return;
        }
        yield_now();
    }
}
