//! Runs threads beside a coordinator, for all tests: what threads borrow from one another is written here, and proved once.
ghost use Rattle.std.specs.Prelude.{◌≡◌};
ghost use Rattle.operations.specs.Asks.{reply};

use crate::tests::sides::{CoordinatorSide, ThreadSide};
use crate::tests::{census, four, invalidated, leaving, many, meeting, threads};
use bodies::Name;
use coordinator::Coordinator;
use frames::image::Image;
use operations::Ask;
use operations::job::{Call, HandshakeOp, Job};
use std::alloc::{AllocError, Global};
use std::marker::Brand;
use std::sync::Wait;
use std::sync::atomic::{AtomicBool, AtomicU64, Ordering};
use std::test::Fail;
use std::thread::{Threads, join, map_indices};
use test_support::Asked;
use thread_list::{Parts, Shared};

/// The test whose threads and coordinator run.
#[derive(Clone, Copy, Drop)]
pub enum Case {
    Threads,
    Four,
    Many,
    Meeting,
    Census,
    Invalidated,
    Leaving,
}

impl Case {
    // How many threads run.
    fn threads(self) -> usize {
        match self {
            Case::Leaving => 1,
            Case::Four | Case::Meeting => 2,
            Case::Threads | Case::Invalidated => 4,
            Case::Census => census::THREADS,
            Case::Many => many::THREADS,
        }
    }

    fn slots(self) -> usize {
        match self {
            Case::Invalidated => invalidated::SLOTS,
            _ => 4,
        }
    }

    /// The parts of the system of a case: a place for each thread, and two methods.
    pub fn parts(self, alloc: Global) -> Result<Parts, AllocError> {
        Parts::new(alloc, self.threads(), self.slots(), 2).map_err(|_| AllocError)
    }
}

/// Signals between the threads and the coordinator.
#[derive(Drop)]
pub struct Signals {
    /// Progress of the threads: how many have reached their meeting point, how many calls they made, or which one is live.
    pub there: AtomicU64,
    /// Progress of the coordinator: which name it has asked, that all polls are armed, or which codes are invalidated.
    pub told: AtomicU64,
    /// How many calls entered a code, or how many jobs the threads served themselves.
    pub counted: AtomicU64,
    /// Whether the coordinator has finished.
    pub done: AtomicBool,
}

impl Signals {
    pub fn new() -> Signals {
        Signals {
            there: AtomicU64::new(0),
            told: AtomicU64::new(0),
            counted: AtomicU64::new(0),
            done: AtomicBool::new(false),
        }
    }
}

// The life of a thread from its start to its exit. Answers whether all calls succeeded.
fn live_started<N: Name, J: HandshakeOp, R: Wait>(
    rt: &R,
    case: Case,
    side: &mut ThreadSide<'_, '_, N, J>,
) -> bool {
    match case {
        Case::Threads => threads::live(side),
        Case::Four => four::live(rt, side),
        Case::Many => many::live(rt, side),
        Case::Meeting => meeting::live(rt, side),
        Case::Census => census::live(rt, side),
        Case::Invalidated => invalidated::live(rt, side),
        Case::Leaving => false,
    }
}

// A thread starts, lives and exits.
fn live<N: Name, J: HandshakeOp, R: Wait>(
    rt: &R,
    alloc: Global,
    shared: &Shared<N, J>,
    case: Case,
    signals: &Signals,
    index: usize,
) -> bool {
    if let Case::Leaving = case {
        return leaving::live_all(rt, alloc, shared, signals);
    }
    let Ok((thread, _receipt)) = shared.start(rt, alloc) else {
        return false;
    };
    let mut side = ThreadSide {
        shared,
        thread,
        signals,
        index,
    };
    let lived = live_started(rt, case, &mut side);
    side.thread.exit(rt).is_ok() && lived
}

// Runs each thread of the system in a machine thread of its own.
fn live_all<N: Name + Send + Sync, J: HandshakeOp + Send, R: Threads + Wait + Sync>(
    rt: &R,
    alloc: Global,
    shared: &Shared<N, J>,
    case: Case,
    signals: &Signals,
) -> bool {
    match map_indices(
        rt,
        alloc,
        case.threads(),
        &|i| live(rt, alloc, shared, case, signals, i),
    ) {
        Ok(lived) => lived.iter().all(|it| *it),
        Err(_) => false,
    }
}

// The coordinator's part. Answers whether all calls succeeded.
fn work<N: Name, J: HandshakeOp, R: Wait>(
    rt: &R,
    case: Case,
    side: &mut CoordinatorSide<'_, '_, '_, N, J>,
) -> Result<bool, AllocError> {
    match case {
        Case::Threads => Ok(true),
        Case::Four => four::work(rt, side),
        Case::Many => many::work(rt, side),
        Case::Meeting => meeting::work(rt, side),
        Case::Census => Ok(census::work(rt, side)),
        Case::Invalidated => Ok(invalidated::work(rt, side)),
        Case::Leaving => leaving::work(rt, side),
    }
}

// The coordinator's work in a case. After it, `done` lets the threads go.
fn work_to_end<N: Name, J: HandshakeOp, R: Wait>(
    rt: &R,
    case: Case,
    side: CoordinatorSide<'_, '_, '_, N, J>,
) -> bool {
    let mut side = side;
    let worked = work(rt, case, &mut side);
    side.signals.done.store(true, Ordering::SeqCst);
    matches!(worked, Ok(true))
}

// Runs all threads while the coordinator works.
fn run_beside<N: Name + Send + Sync, J: HandshakeOp + Send, R: Threads + Wait + Sync>(
    rt: &R,
    case: Case,
    side: CoordinatorSide<'_, '_, '_, N, J>,
) -> bool {
    let (alloc, shared, signals) = (side.alloc, side.shared, side.signals);
    let (lived, worked) = join(
        rt,
        || live_all(rt, alloc, shared, case, signals),
        || work_to_end(rt, case, side),
    );
    lived && worked
}

// Method 1 has code 1, and method 0 has code 2. Later codes have the next serials.
fn are_installed<N: Name, J: HandshakeOp, R: Wait>(rt: &R, shared: &Shared<N, J>) -> bool {
    matches!(shared.install(rt, 1), Ok((1, _))) && matches!(shared.install(rt, 0), Ok((2, _)))
}

/// Runs the threads of the case and its coordinator, which takes the last list of jobs first. Answers whether all calls succeeded, nothing
/// is counted at the end, and no thread is live.
pub fn run<N: Name + Send + Sync, J: HandshakeOp + Send, R: Threads + Wait + Sync>(
    rt: &R,
    alloc: Global,
    case: Case,
    parts: Parts,
    signals: &Signals,
    lists: Vec<Vec<J>>,
) -> Result<bool, AllocError>
    requires tables { (parts.board ≡ N.board) × (parts.row ≡ N.poll_row) }
{
    let Ok((shared, armer)) = Shared::<N, J>::new(alloc, parts) else {
        return Err(AllocError);
    };
    let Ok(coordinator) = Coordinator::new(&shared, armer, alloc) else {
        return Err(AllocError);
    };
    let is_ready = are_installed(rt, &shared);
    let side = CoordinatorSide {
        alloc,
        shared: &shared,
        coordinator,
        signals,
        lists,
    };
    let went_well = run_beside(rt, case, side);
    let live = shared.live(rt)?;
    Ok(is_ready && went_well && live.is_empty() && shared.peek_counts() == 0)
}

/// The query that all jobs for the name have.
pub fn asked_of(alloc: Global, name: u64, ask: Ask) -> Result<Vec<Asked>, AllocError> {
    let mut asked = Vec::new(alloc);
    asked.push((name, ask)).map_err(|_| AllocError)?;
    Ok(asked)
}

// Plays a case with boxed jobs that have this query. It makes the jobs itself, not by `with_jobs`: in a trait's method it isn't known that
// threads may share the runtime.
fn play_boxed<R: Threads + Wait + Sync>(
    rt: &R,
    alloc: Global,
    case: Case,
    asked: &[Vec<Asked>],
) -> Result<bool, AllocError> {
    let mut lists = Vec::new(alloc);
    for list in asked {
        let mut jobs = Vec::new(alloc);
        for (whom, ask) in list {
            let (whom, ask) = (*whom, *ask);
            let call: Call = Box::new(
                alloc,
                move |image: &Image| -> u64
                    ensures { result ≡ reply ask image.now.frames }
                { ask.reply_on(image) },
            )?;
            jobs.push(Job::new(whom, ask, call))
                .map_err(|_| AllocError)?;
        }
        lists.push(jobs).map_err(|_| AllocError)?;
    }
    let parts = case.parts(alloc)?;
    let signals = Signals::new();
    run::<Brand, Job, R>(rt, alloc, case, parts, &signals, lists)
}

/// Plays a case with boxed jobs that have these queries. The last list belongs to the first handshake.
pub fn play<R: Threads + Wait + Sync>(
    rt: &R,
    alloc: Global,
    case: Case,
    asked: &[Vec<Asked>],
) -> Result<(), Fail> {
    if play_boxed(rt, alloc, case, asked)? {
        Ok(())
    } else {
        Err(Fail::new("a thread or the coordinator was answered otherwise"))
    }
}

/// Plays a case without jobs.
pub fn play_without_jobs<R: Threads + Wait + Sync>(
    rt: &R,
    alloc: Global,
    case: Case,
) -> Result<(), Fail> {
    let none = Vec::new(alloc);
    play(rt, alloc, case, none.as_slice())
}
