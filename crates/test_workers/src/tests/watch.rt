//! The gates of the runs.
use crate::tests::seen::Seen;
use std::alloc::{AllocError, Global};
use std::sync::Arc;
use std::sync::atomic::Ordering;
use std::thread;
use test_support::waits::wait_for;
use workers::Gate;

// How often a tick yields where a job hasn't run yet.
const YIELDS: u32 = 10;

/// What a tick does.
#[derive(Clone, Copy, PartialEq, Eq, Drop)]
pub enum Kind {
    /// It holds its thread up a little, until all jobs ran.
    Slowed,
    /// It waits until so many ticks have begun.
    Meeting(u64),
}

/// Notes what ticks see.
///
/// A thread that ticks is in Java and makes no poll, so no tick may wait for a job of its own thread: a tick that is slowed yields a few
/// times and returns, and its loop comes to the next poll. So a thread yields a bounded number of times before its loop ends, and the run
/// ends whether the jobs run or not. While it yields the thread that replaces the codes has all that time, and each job waits for a few
/// yields at most.
#[derive(Drop)]
pub struct Watch {
    pub kind: Kind,
    pub seen: Arc<Seen>,
}

impl Watch {
    // Yields as long as jobs haven't run, a few times at most.
    fn slow(&self, name: u64) {
        if self.seen.is_done() {
            self.seen.tick_later(name);
            return;
        }
        for _ in 0..YIELDS {
            if self.seen.is_done() {
                return;
            }
            thread::yield_now();
        }
    }

    // Notes where the others never come.
    fn meet(&self, others: u64) {
        self.seen.ticks.fetch_add(1, Ordering::SeqCst);
        if !wait_for(others, &self.seen.ticks) {
            self.seen.missed.fetch_add(1, Ordering::SeqCst);
        }
    }

    /// What was seen of the run.
    pub fn text(&self, alloc: Global) -> Result<String, AllocError> {
        match self.kind {
            Kind::Slowed => self.seen.jobs_text(alloc),
            Kind::Meeting(_) => self.seen.ticks_text(alloc),
        }
    }
}

impl Gate for Watch {
    fn tick(&self, name: u64) {
        match self.kind {
            Kind::Slowed => self.slow(name),
            Kind::Meeting(others) => self.meet(others),
        }
    }
}
