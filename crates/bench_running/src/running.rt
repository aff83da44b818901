//! A run: the shared system, and the threads that call it.
ghost use Rattle.std.specs.Prelude.{◌≡◌};
ghost use Rattle.operations.specs.Asks.{reply};
ghost use Rattle.poll.specs.Rows.{full_armer};

use crate::acts::{install, query_of};
use crate::calls::time_calls;
use crate::grown::time_grown;
use crate::plan::{Kind, Times};
use crate::requests::Asker;
use crate::signals::Signals;
use crate::stops::time_stops;
use crate::threads::{join_all, start_all};
use crate::wrong::Wrong;
use bodies::Name;
use coordinator::Coordinator;
use frames::image::Image;
use operations::Ask;
use operations::job::{Call, HandshakeOp, Job, Query};
use poll::Armer;
use std::alloc::AllocError;
use std::sync::Wait;
use std::thread::{self, Scope, Threads};
use std::time::Clock;
use thread_list::{Parts, Shared};

/// Runs the plan over a system that is made of the parts, and notes its times. When it returns, no other thread runs any more.
pub fn run<N: Name + Send, R: Threads + Wait + Clock + Sync>(
    rt: &R,
    times: &mut Times,
    parts: Parts,
) -> Result<(), Wrong>
    requires tables { (parts.board ≡ N.board) × (parts.row ≡ N.poll_row) }
{
    let plan = times.plan;
    if !plan.has_threads() {
        return run_alone::<N, R>(rt, times, parts);
    }
    if !matches!(plan.kind, Kind::BoxedHandshake) {
        return run_stops::<N, Query, _, R>(rt, times, parts, &query_of);
    }
    // The closure that makes a box is passed down: a function that returned a box that it made would be refused.
    let alloc = times.alloc;
    let make = move |name: u64| -> Result<Job, AllocError> {
        let ask = Ask::Depth;
        let call: Call = Box::new(
            alloc,
            move |image: &Image| -> u64
                ensures { result ≡ reply ask image.now.frames }
            { ask.reply_on(image) },
        )?;
        Ok(Job::new(name, ask, call))
    };
    run_stops::<N, Job, _, R>(rt, times, parts, &make)
}

// Calls and stops of other threads. A stop has a job for each name of these threads, made by `make`.
fn run_stops<
    N: Name + Send,
    J: HandshakeOp + Send,
    M: Fn(u64) -> Result<J, AllocError>,
    R: Threads + Wait + Clock + Sync,
>(rt: &R, times: &mut Times, parts: Parts, make: &M) -> Result<(), Wrong>
    requires tables { (parts.board ≡ N.board) × (parts.row ≡ N.poll_row) }
    requires makes { M.IsAlwaysCallable make.now }
{
    let Ok((shared, armer)) = Shared::<N, J>::new(times.alloc, parts) else {
        return Err(Wrong::NoMemory);
    };
    run_stops_over(rt, times, &shared, armer, make)
}

fn run_stops_over<
    'a,
    N: Name + Send,
    J: HandshakeOp + Send,
    M: Fn(u64) -> Result<J, AllocError>,
    R: Threads + Wait + Clock + Sync,
>(
    rt: &'a R,
    times: &mut Times,
    shared: &'a Shared<N, J>,
    armer: Armer,
    make: &M,
) -> Result<(), Wrong>
    requires armer { armer ≡ full_armer N.poll_row N.board.places }
    requires makes { M.IsAlwaysCallable make.now }
{
    install_all(rt, shared, times.plan.codes())?;
    let Ok(mut coordinator) = Coordinator::new(shared, armer, times.alloc) else {
        return Err(Wrong::NoMemory);
    };
    let signals = Signals::new();
    let mut asker = Asker::new(
        rt,
        times.alloc,
        times.plan,
        shared,
        &signals,
        &mut coordinator,
    )?;
    let done = run_threads(&mut asker, make, times);
    when_uncounted(shared, done)
}

// The part that the main thread does alone.
fn run_alone<N: Name, R: Wait + Clock>(rt: &R, times: &mut Times, parts: Parts) -> Result<(), Wrong>
    requires tables { (parts.board ≡ N.board) × (parts.row ≡ N.poll_row) }
{
    let Ok((shared, armer)) = Shared::<N, Query>::new(times.alloc, parts) else {
        return Err(Wrong::NoMemory);
    };
    run_alone_over(rt, times, &shared, armer)
}

fn run_alone_over<'a, N: Name, R: Wait + Clock>(
    rt: &'a R,
    times: &mut Times,
    shared: &'a Shared<N, Query>,
    armer: Armer,
) -> Result<(), Wrong>
    requires armer { armer ≡ full_armer N.poll_row N.board.places }
{
    install_all(rt, shared, times.plan.codes())?;
    if !times.plan.is_grown() {
        let done = time_calls(rt, times, shared);
        return when_uncounted(shared, done);
    }
    let Ok(mut coordinator) = Coordinator::new(shared, armer, times.alloc) else {
        return Err(Wrong::NoMemory);
    };
    let done = time_grown(rt, times, shared, &mut coordinator);
    when_uncounted(shared, done)
}

// Installs a code of each of the first methods.
fn install_all<N: Name, J: HandshakeOp, R: Wait>(
    rt: &R,
    shared: &Shared<N, J>,
    methods: u32,
) -> Result<(), Wrong> {
    for method in 0..methods {
        install(rt, shared, method)?;
    }
    Ok(())
}

// The result, if no frame is counted any more.
fn when_uncounted<N: Name, J: HandshakeOp>(
    shared: &Shared<N, J>,
    done: Result<(), Wrong>,
) -> Result<(), Wrong> {
    if shared.peek_counts() == 0 {
        done
    } else {
        Err(Wrong::Answer)
    }
}

fn run_threads<
    N: Name + Send,
    J: HandshakeOp + Send,
    M: Fn(u64) -> Result<J, AllocError>,
    R: Threads + Wait + Clock + Sync,
>(asker: &mut Asker<'_, '_, '_, N, J, R>, make: &M, times: &mut Times) -> Result<(), Wrong>
    requires makes { M.IsAlwaysCallable make.now }
{
    let rt = asker.rt;
    thread::scope(
        thread::scope_env(),
        rt,
        move |scope| -> Result<(), Wrong>
            requires makes { M.IsAlwaysCallable make.now }
        { run_in(scope, asker, make, times) },
    )
}

// Measures in a scope.
fn run_in<
    's,
    'a: 's,
    N: Name + Send,
    J: HandshakeOp + Send,
    M: Fn(u64) -> Result<J, AllocError>,
    R: Threads + Wait + Clock + Sync,
    E,
>(
    scope: &Scope<'s, E>,
    asker: &mut Asker<'_, '_, 'a, N, J, R>,
    make: &M,
    times: &mut Times,
) -> Result<(), Wrong>
    requires makes { M.IsAlwaysCallable make.now }
{
    let mut handles = Vec::new(times.alloc);
    let asked = match start_all(scope, asker, &mut handles) {
        Ok(()) => ask_all(asker, make, times),
        Err(wrong) => Err(wrong),
    };
    asker.signals.begin();
    asker.signals.end();
    let called = join_all(asker.rt, handles, times);
    asked?;
    called
}

// The main thread's part, once all threads are ready.
fn ask_all<N: Name, J: HandshakeOp, M: Fn(u64) -> Result<J, AllocError>, R: Wait + Clock>(
    asker: &mut Asker<'_, '_, '_, N, J, R>,
    make: &M,
    times: &mut Times,
) -> Result<(), Wrong>
    requires makes { M.IsAlwaysCallable make.now }
{
    asker.signals.wait_ready(asker.rt, times.plan.threads);
    if matches!(times.plan.kind, Kind::Together) {
        return Ok(());
    }
    time_stops(asker, make, times)
}
