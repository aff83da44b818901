//! Runs a script on threads.
ghost use Rattle.std.specs.Prelude.{◌≡◌, ◌≤◌, All, IfOk, length, vec_len, vec_capacity};
ghost use Rattle.poll.specs.Rows.{full_armer};
ghost use Rattle.workers.specs.Replacing.{InstallsEach};
ghost use Rattle.workers.specs.Jobs.{AreForEach};
ghost use Rattle.workers.specs.Sizes.{HasSize};
ghost use Rattle.workers.specs.Summaries.{IsSummary};

use crate::fault::RunFault;
use crate::gate::Gate;
use crate::reclaimer::{Reclaimer, Tally};
use crate::summary::{Summary, lines_of, some_compiled};
use crate::task::{BeginFault, Task};
use crate::threads::{Started, join_all, start_all};
use crate::worker::Worker;
use bodies::Name;
use desk::StartFault;
use operations::job::HandshakeOp;
use poll::Armer;
use script::Code;
use std::alloc::Global;
use std::sync::Wait;
use std::thread::{self, Scope, Threads};
use thread_list::{Parts, Shared};

/// Runs a script on this many threads of a system that is made of the parts. The parts have a place for each thread and two slots for
/// each method. Meanwhile it replaces the code of each method and tries to reclaim the old one. For that it has one list of jobs for
/// each method, and uses the jobs for live threads. A list has one job for each thread, by its name from 1 on, which queries the stack
/// depth. No thread runs any more when it returns, also if it fails.
pub fn run<N: Name + Send, J: HandshakeOp + Send, R: Threads + Wait + Sync, G: Gate + Sync>(
    rt: &R,
    alloc: Global,
    code: &Code,
    threads: usize,
    gate: &G,
    parts: Parts,
    jobs: Vec<Vec<J>>,
) -> Result<Summary<N>, RunFault>
    requires tables { (parts.board ≡ N.board) × (parts.row ≡ N.poll_row) }
    requires sizes { HasSize threads (length code.now) parts }
    requires jobs { length jobs.items ≡ length code.now }
    requires each { All (λ js. AreForEach J.whom J.asks threads js.items) jobs.items }
    ensures { IfOk result (IsSummary code.now threads) }
{
    let Ok((shared, armer)) = Shared::<N, J>::new(alloc, parts) else {
        return Err(RunFault::NoMemory);
    };
    run_over(rt, alloc, code, threads, gate, &shared, armer, jobs)
}

fn run_over<'a, N: Name + Send, J: HandshakeOp + Send, R: Threads + Wait + Sync, G: Gate + Sync>(
    rt: &'a R,
    alloc: Global,
    code: &'a Code,
    threads: usize,
    gate: &'a G,
    shared: &'a Shared<N, J>,
    armer: Armer,
    jobs: Vec<Vec<J>>,
) -> Result<Summary<N>, RunFault>
    requires armer { armer ≡ full_armer N.poll_row N.board.places }
    requires jobs { length jobs.items ≡ length code.now }
    ensures { IfOk result (IsSummary code.now threads) }
{
    let reclaimer = Reclaimer::new(rt, alloc, shared, armer, code.methods())?;
    let tasks = begin_all(rt, alloc, shared, gate, code, threads)?;
    run_all(rt, alloc, code, tasks, reclaimer, jobs)
}

// Starts this many threads. Each has made the first mark.
fn begin_all<'a, N: Name, J: HandshakeOp, R: Wait, G: Gate>(
    rt: &'a R,
    alloc: Global,
    shared: &'a Shared<N, J>,
    gate: &'a G,
    code: &'a Code,
    threads: usize,
) -> Result<Vec<Task<'a, N, J, R, G>>, RunFault>
    ensures tasks { IfOk result (λ ts. All (λ t. t.code ≡ code.now) ts.items) }
    ensures len { IfOk result (λ ts. vec_len ts ≡ threads) }
{
    let mut tasks = Vec::with_capacity(alloc, threads)?;
    while tasks.len() < threads {
        tasks.push_reserved(begin(rt, alloc, shared, gate, code)?);
    }
    Ok(tasks)
}

// Starts a thread, which makes the first mark.
fn begin<'a, N: Name, J: HandshakeOp, R: Wait, G: Gate>(
    rt: &'a R,
    alloc: Global,
    shared: &'a Shared<N, J>,
    gate: &'a G,
    code: &'a Code,
) -> Result<Task<'a, N, J, R, G>, RunFault>
    ensures { IfOk result (λ t. t.code ≡ code.now) }
{
    let thread = match shared.start(rt, alloc) {
        Ok((thread, _receipt)) => thread,
        Err(StartFault::NoMemory) => return Err(RunFault::NoMemory),
        Err(_) => return Err(RunFault::Refused),
    };
    match Task::begin(alloc, code, Worker::new(rt, shared, gate, thread)) {
        Ok(task) => Ok(task),
        Err(BeginFault::NoMemory) => Err(RunFault::NoMemory),
        Err(BeginFault::Refused(_)) => Err(RunFault::Refused),
    }
}

// Runs each task in a thread of its own, and replaces the codes meanwhile.
fn run_all<'a, N: Name + Send, J: HandshakeOp + Send, R: Threads + Wait + Sync, G: Gate + Sync>(
    rt: &'a R,
    alloc: Global,
    code: &'a Code,
    tasks: Vec<Task<'a, N, J, R, G>>,
    reclaimer: Reclaimer<'a, N, J>,
    jobs: Vec<Vec<J>>,
) -> Result<Summary<N>, RunFault>
    requires tasks { All (λ t. t.code ≡ code.now) tasks.items }
    requires codes { InstallsEach (length code.now) reclaimer }
    requires jobs { length jobs.items ≡ length code.now }
    ensures { IfOk result (IsSummary code.now (vec_len tasks.entry)) }
{
    let room = Vec::with_capacity(alloc, tasks.len())?;
    thread::scope(
        thread::scope_env(),
        rt,
        move |scope| -> Result<Summary<N>, RunFault>
            requires { All (λ t. t.code ≡ code.now) tasks.items
                × InstallsEach (length code.now) reclaimer × (length jobs.items ≡ length code.now)
                × (vec_len room ≡ 0) × (vec_len tasks ≤ vec_capacity room) }
            ensures { IfOk result (IsSummary code.entry.now (vec_len tasks.entry)) }
        { run_in(scope, rt, alloc, code, tasks, room, reclaimer, jobs) },
    )
}

// Runs the tasks in a scope. `room` has capacity for all threads.
fn run_in<
    's,
    'a: 's,
    N: Name + Send,
    J: HandshakeOp + Send,
    R: Threads + Wait + Sync,
    G: Gate + Sync,
    E,
>(
    scope: &Scope<'s, E>,
    rt: &'a R,
    alloc: Global,
    code: &'a Code,
    tasks: Vec<Task<'a, N, J, R, G>>,
    room: Vec<Started<N>>,
    reclaimer: Reclaimer<'a, N, J>,
    jobs: Vec<Vec<J>>,
) -> Result<Summary<N>, RunFault>
    requires tasks { All (λ t. t.code ≡ code.now) tasks.items }
    requires codes { InstallsEach (length code.now) reclaimer }
    requires jobs { length jobs.items ≡ length code.now }
    requires room { (vec_len room ≡ 0) × (vec_len tasks ≤ vec_capacity room) }
    ensures { IfOk result (IsSummary code.now (vec_len tasks.entry)) }
{
    let Ok(handles) = start_all(scope, code, tasks, room) else {
        return Err(RunFault::NoThread);
    };
    let mut reclaimer = reclaimer;
    reclaimer.replace_each(rt, jobs)?;
    let reports = join_all(rt, code, handles)?;
    let lines = lines_of(alloc, reports.as_slice())?;
    let compiled = some_compiled(reports.as_slice());
    let Tally {
        installed,
        freed,
        counts,
    } = reclaimer.finish(rt, alloc)?;
    Ok(Summary {
        reports,
        lines,
        compiled,
        installed,
        freed,
        counts,
    })
}
