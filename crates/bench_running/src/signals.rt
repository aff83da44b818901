//! Signals between the threads of a run, in plain atomic words beside the words that the product shares.
use std::sync::Wait;
use std::sync::atomic::{AtomicU64, Ordering};
use std::thread;

/// How many threads are ready, whether they may begin, and whether the run is over.
#[derive(Drop)]
pub struct Signals {
    ready: AtomicU64,
    begun: AtomicU64,
    over: AtomicU64,
}

// Waits until the word is at least `least`.
fn wait_for<R: Wait>(rt: &R, word: &AtomicU64, least: u64) {
    for _ in rt.forever() {
        if word.load(Ordering::SeqCst) >= least {
            return;
        }
        thread::yield_now();
    }
}

impl Signals {
    /// The signals of a run at its beginning.
    pub fn new() -> Signals {
        Signals {
            ready: AtomicU64::new(0),
            begun: AtomicU64::new(0),
            over: AtomicU64::new(0),
        }
    }

    /// Notes that one more thread is ready.
    pub fn note_ready(&self) {
        self.ready.fetch_add(1, Ordering::SeqCst);
    }

    /// Waits until so many threads are ready.
    pub fn wait_ready<R: Wait>(&self, rt: &R, threads: usize) {
        wait_for(rt, &self.ready, threads as u64);
    }

    /// Lets the threads begin.
    pub fn begin(&self) {
        self.begun.store(1, Ordering::SeqCst);
    }

    /// Waits until the threads may begin.
    pub fn wait_begun<R: Wait>(&self, rt: &R) {
        wait_for(rt, &self.begun, 1);
    }

    /// Ends the run.
    pub fn end(&self) {
        self.over.store(1, Ordering::SeqCst);
        self.over.wake_all();
    }

    pub fn is_over(&self) -> bool {
        self.over.load(Ordering::SeqCst) != 0
    }

    /// Sleeps until the run is over.
    pub fn wait_over<R: Wait>(&self, rt: &R) {
        for _ in rt.forever() {
            if self.is_over() {
                return;
            }
            self.over.park(rt, 0);
        }
    }
}
