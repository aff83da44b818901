//! Two threads serve one handshake at the same time: each one's job waits for the other one's.
ghost use Rattle.std.specs.Prelude.{◌≡◌};
ghost use Rattle.operations.specs.Asks.{reply};

use crate::tests::beside::{Case, Signals, run};
use crate::tests::sides::{CoordinatorSide, ThreadSide};
use bodies::Name;
use coordinator::Driven;
use frames::image::Image;
use operations::Ask;
use operations::job::{Call, HandshakeOp, Job};
use std::alloc::{AllocError, Global};
use std::marker::Brand;
use std::process::Abort;
use std::sync::atomic::{AtomicBool, AtomicU64, Ordering};
use std::sync::{Arc, Wait};
use std::test::*;
use std::thread::Threads;
use test_support::waits::{take_turns, wait_for};
use thread_list::{Parts, Poll};

// Signals between the two jobs.
#[derive(Drop)]
struct Jobs {
    begun: AtomicU64,
    ended: AtomicU64,
    missed: AtomicBool,
}

impl Jobs {
    fn new() -> Jobs {
        Jobs {
            begun: AtomicU64::new(0),
            ended: AtomicU64::new(0),
            missed: AtomicBool::new(false),
        }
    }

    // Whether both jobs ran, and neither missed the other.
    fn are_well(&self) -> bool {
        self.begun.load(Ordering::SeqCst) == 2
            && self.ended.load(Ordering::SeqCst) == 2
            && !self.missed.load(Ordering::SeqCst)
    }
}

// The part of one job: it signals that it has begun, and may wait until both have. If the other never begins, it notes that. If both wait,
// neither ends before both have begun; a job that begins after the other has ended notes that.
fn run_beside(waits: bool, both_wait: bool, jobs: &Jobs) {
    if both_wait && jobs.ended.load(Ordering::SeqCst) != 0 {
        jobs.missed.store(true, Ordering::SeqCst);
    }
    jobs.begun.fetch_add(1, Ordering::SeqCst);
    if waits && !wait_for(2, &jobs.begun) {
        jobs.missed.store(true, Ordering::SeqCst);
    }
    jobs.ended.fetch_add(1, Ordering::SeqCst);
}

// A back edge, and a stop if the poll says so. If the thread then served a job itself, and not the coordinator on its body, this is
// counted.
fn run_once<N: Name, J: HandshakeOp, R: Wait>(rt: &R, side: &mut ThreadSide<'_, '_, N, J>) -> bool {
    match side.thread.back_edge() {
        Ok(Poll::Go) => return true,
        Ok(Poll::Stop(_)) => {}
        Err(_) => return false,
    }
    let Ok(turn) = side.thread.stop(rt) else {
        return false;
    };
    if turn.finish.is_some() {
        side.signals.counted.fetch_add(1, Ordering::SeqCst);
    }
    true
}

/// Makes back edges, and stops where a poll says so, until the coordinator has finished. Counts the jobs that the thread served itself.
pub fn live<N: Name, J: HandshakeOp, R: Wait>(rt: &R, side: &mut ThreadSide<'_, '_, N, J>) -> bool {
    side.arrive();
    let done = &side.signals.done;
    take_turns(rt, done, || run_once(rt, side))
}

/// Drives the handshake once both threads run. It closes with a reply of each thread.
pub fn work<N: Name, J: HandshakeOp, R: Wait>(
    rt: &R,
    side: &mut CoordinatorSide<'_, '_, '_, N, J>,
) -> Result<bool, AllocError> {
    if !wait_for(2, &side.signals.there) || !side.ask(rt, [1, 2].as_slice(), Ask::Depth) {
        return Ok(false);
    }
    let driven = side.coordinator.drive(rt);
    Ok(
        matches!(driven, Ok((Driven::Handshake(1), _)))
            && side.are_replies(rt, 1, [(1, 0), (2, 0)].as_slice())?,
    )
}

// Both threads meet. Answers how many jobs the threads served themselves; the coordinator ran the others.
fn meet<N: Name + Send + Sync, J: HandshakeOp + Send, R: Threads + Wait + Sync + Abort>(
    rt: &R,
    alloc: Global,
    parts: Parts,
    jobs: Vec<J>,
) -> Result<u64, AllocError>
    requires tables { (parts.board ≡ N.board) × (parts.row ≡ N.poll_row) }
{
    let signals = Signals::new();
    let mut lists = Vec::new(alloc);
    lists.push(jobs).map_err(|_| AllocError)?;
    assert!(rt; run::<N, J, R>(rt, alloc, Case::Meeting, parts, &signals, lists)?);
    Ok(signals.counted.load(Ordering::SeqCst))
}

// The job of the given name waits, or both jobs if the name is 0. One thread alone can't have run both: in the first job it would wait
// until it gives up and notes that. So at least one thread served its own job.
fn meet_once<R: Threads + Wait + Sync + Abort>(
    rt: &R,
    alloc: Global,
    waiting: u64,
) -> Result<(), Fail> {
    let both_wait = waiting == 0;
    let met = Arc::new(alloc, Jobs::new())?;
    let mut jobs = Vec::new(alloc);
    for name in 1..3 {
        let told = Arc::try_clone(&met)?;
        let call: Call = Box::new(
            alloc,
            move |image: &Image| -> u64
                ensures { result ≡ reply Ask.Depth image.now.frames }
            {
                run_beside(both_wait || name == waiting, both_wait, &told);
                image.depth() as u64
            },
        )?;
        jobs.push(Job::new(name, Ask::Depth, call))
            .map_err(|_| AllocError)?;
    }
    let parts = Case::Meeting.parts(alloc)?;
    let own = meet::<Brand, Job, R>(rt, alloc, parts, jobs)?;
    assert!(rt; own <= 2 && (own >= 1 || !both_wait));
    assert!(rt; met.are_well());
    Ok(())
}

#[test]
fn one_job_waits_for_the_other(rt: HostRuntime) -> Result<(), Fail> {
    for waiting in 0..3 {
        meet_once(&rt, rt.alloc(), waiting)?;
    }
    Ok(())
}
