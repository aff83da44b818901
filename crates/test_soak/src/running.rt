//! A run: its threads, and the main thread beside them.
ghost use Rattle.std.specs.Prelude.{◌≡◌};
ghost use Rattle.poll.specs.Rows.{full_armer};

use crate::by_one::Sides;
use crate::calls::Calls;
use crate::driver::Driver;
use crate::hands::Hands;
use crate::making::Makes;
use crate::plan::{Kind, Plan};
use crate::signals::Signals;
use crate::tally::Tally;
use crate::threads::{join_all, start_all, stream_of};
use crate::wrong::Wrong;
use bodies::Name;
use coordinator::Coordinator;
use operations::job::HandshakeOp;
use poll::Armer;
use recorder::{Recorder, Stream, write};
use std::alloc::Global;
use std::sync::Wait;
use std::thread::{self, Scope, Threads};
use test_tools::keep;
use thread_list::{Parts, Shared};

/// The result of a run without errors.
#[derive(Drop)]
pub enum Made {
    Tally(Tally),
    Log(Vec<u8>),
}

/// Runs a thread for each place of a system that is made of the parts, and beside them the rounds of the main thread, with these jobs. A
/// recorder, if there is one, gets a stream from each thread and from the main thread.
/// No thread runs any more when the call returns. The error is the first thing that went wrong.
pub fn run<N: Name + Send, J: HandshakeOp + Send, R: Threads + Wait + Sync, M: Makes<J>>(
    rt: &R,
    alloc: Global,
    plan: Plan,
    parts: Parts,
    jobs: M,
    recorder: Option<&Recorder>,
) -> Result<Made, Wrong>
    requires tables { (parts.board ≡ N.board) × (parts.row ≡ N.poll_row) }
    requires slots { plan.sizes.slots ≡ N.board.slots }
{
    let Ok((shared, armer)) = Shared::<N, J>::new(alloc, parts) else {
        return Err(Wrong::NoMemory);
    };
    run_over(rt, alloc, plan, &shared, armer, jobs, recorder)
}

fn run_over<'a, N: Name + Send, J: HandshakeOp + Send, R: Threads + Wait + Sync, M: Makes<J>>(
    rt: &'a R,
    alloc: Global,
    plan: Plan,
    shared: &'a Shared<N, J>,
    armer: Armer,
    jobs: M,
    recorder: Option<&'a Recorder>,
) -> Result<Made, Wrong>
    requires armer { armer ≡ full_armer N.poll_row N.board.places }
    requires slots { plan.sizes.slots ≡ N.board.slots }
{
    let Ok(mut coordinator) = Coordinator::new(shared, armer, alloc) else {
        return Err(Wrong::NoMemory);
    };
    let signals = Signals::new(alloc, plan)?;
    let thread = Calls {
        rt,
        stream: stream_of(recorder, alloc),
    };
    let hands = Hands {
        rt,
        alloc,
        shared,
        coordinator: &mut coordinator,
        stream: stream_of(recorder, alloc),
    };
    if matches!(plan.kind, Kind::ByOne) {
        run_by_one(plan, hands, jobs, thread)
    } else {
        run_driver(plan, hands, jobs, &signals, recorder)
    }
}

fn run_by_one<'a, N: Name, J: HandshakeOp, R: Wait, M: Makes<J>>(
    plan: Plan,
    hands: Hands<'_, '_, 'a, N, J, R>,
    jobs: M,
    thread: Calls<'a, 'a, R>,
) -> Result<Made, Wrong> {
    let alloc = hands.alloc;
    let sides = Sides {
        hands,
        jobs,
        thread,
    };
    match sides.streams() {
        Some(streams) => log_of(alloc, plan, streams.as_slice()),
        None => Err(Wrong::NoMemory),
    }
}

fn run_driver<'a, N: Name + Send, J: HandshakeOp + Send, R: Threads + Wait + Sync, M: Makes<J>>(
    plan: Plan,
    hands: Hands<'_, '_, 'a, N, J, R>,
    jobs: M,
    signals: &'a Signals,
    recorder: Option<&'a Recorder>,
) -> Result<Made, Wrong>
    requires slots { plan.sizes.slots ≡ N.board.slots }
{
    let mut driver = Driver::new(hands, jobs, signals, plan)?;
    run_threads(&mut driver, recorder)
}

fn run_threads<'a, N: Name + Send, J: HandshakeOp + Send, R: Threads + Wait + Sync, M: Makes<J>>(
    driver: &mut Driver<'_, '_, 'a, N, J, R, M>,
    recorder: Option<&'a Recorder>,
) -> Result<Made, Wrong> {
    let rt = driver.hands.rt;
    thread::scope(
        thread::scope_env(),
        rt,
        move |scope| run_in(scope, driver, recorder),
    )
}

// Runs the threads and the rounds in a scope.
fn run_in<
    's,
    'a: 's,
    N: Name + Send,
    J: HandshakeOp + Send,
    R: Threads + Wait + Sync,
    M: Makes<J>,
    E,
>(
    scope: &Scope<'s, E>,
    driver: &mut Driver<'_, '_, 'a, N, J, R, M>,
    recorder: Option<&'a Recorder>,
) -> Result<Made, Wrong> {
    let (rt, alloc) = (driver.hands.rt, driver.hands.alloc);
    let mut handles = Vec::new(alloc);
    let mut wrong = match start_all(scope, driver, recorder, &mut handles) {
        Ok(()) => driver.drive_threads(),
        Err(found) => Some(found),
    };
    driver.signals.end();
    let streams = join_all(rt, alloc, handles, &mut driver.tally, &mut wrong);
    match wrong {
        Some(found) => Err(found),
        None => judge(driver, streams),
    }
}

// The result of the run, after all threads exited.
fn judge<'a, N: Name, J: HandshakeOp, R: Wait, M: Makes<J>>(
    driver: &mut Driver<'_, '_, 'a, N, J, R, M>,
    streams: Vec<Stream<'a>>,
) -> Result<Made, Wrong> {
    let next = driver.asked.next();
    driver.check_stops(next)?;
    driver.finish()?;
    match driver.hands.stream.take() {
        None => Ok(Made::Tally(driver.tally)),
        Some(stream) => {
            let mut streams = streams;
            keep(&mut streams, stream)?;
            log_of(driver.hands.alloc, driver.plan, streams.as_slice())
        }
    }
}

// The log of the streams.
fn log_of(alloc: Global, plan: Plan, streams: &[Stream<'_>]) -> Result<Made, Wrong> {
    let sizes = plan.sizes;
    let sizes = (
        sizes.places as u64,
        sizes.slots as u64,
        sizes.methods as u64,
    );
    match write(alloc, sizes, streams) {
        Ok(log) => Ok(Made::Log(log)),
        Err(_) => Err(Wrong::NoLog),
    }
}
