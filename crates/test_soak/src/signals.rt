//! Signals between the threads of a run, in plain words that aren't part of the product.
use crate::plan::{Habits, Plan};
use crate::tally::Seen;
use std::alloc::{AllocError, Global};
use std::sync::atomic::{AtomicU64, Ordering};
use std::sync::{Mutex, Wait};
use test_tools::keep;

/// The habits of threads, whether the run is over, how many acts each may have made, how many threads have exited to start anew and may,
/// which codes are invalidated, and what threads saw at their stops.
#[derive(Drop)]
pub struct Signals {
    pub habits: Habits,
    over: AtomicU64,
    acts: AtomicU64,
    renewed: AtomicU64,
    renewals: AtomicU64,
    invalidated: Vec<AtomicU64>,
    stops: Mutex<Vec<Seen>>,
}

impl Signals {
    /// The signals at the beginning of a run. Fails only if memory is refused.
    pub fn new(alloc: Global, plan: Plan) -> Result<Signals, AllocError> {
        let mut invalidated = Vec::new(alloc);
        for _ in 0..plan.sizes.methods {
            keep(&mut invalidated, AtomicU64::new(0))?;
        }
        Ok(Signals {
            habits: plan.habits(),
            over: AtomicU64::new(0),
            acts: AtomicU64::new(0),
            renewed: AtomicU64::new(0),
            renewals: AtomicU64::new(0),
            invalidated,
            stops: Mutex::new(Vec::new(alloc)),
        })
    }

    /// Ends the run: all threads must exit.
    pub fn end(&self) {
        self.over.store(1, Ordering::SeqCst);
    }

    pub fn is_over(&self) -> bool {
        self.over.load(Ordering::SeqCst) != 0
    }

    /// Allows each thread this many acts, and this many exits with a new start, both counted from the beginning of the run.
    pub fn allow(&self, acts: u64, renewals: u64) {
        self.acts.store(acts, Ordering::SeqCst);
        self.renewals.store(renewals, Ordering::SeqCst);
    }

    /// How many acts each thread may have made.
    pub fn acts(&self) -> u64 {
        self.acts.load(Ordering::SeqCst)
    }

    /// Whether a thread may exit and start anew now. Counts the exit if it is allowed.
    pub fn may_renew(&self) -> bool {
        let renewed = self.renewed.load(Ordering::SeqCst);
        renewed < self.renewals.load(Ordering::SeqCst)
            && self
                .renewed
                .compare_exchange(
                    renewed,
                    renewed.saturating_add(1),
                    Ordering::SeqCst,
                    Ordering::SeqCst,
                )
                .is_ok()
    }

    /// Notes that the codes of the method up to this serial are invalidated, by calls that have returned.
    pub fn note_invalidated(&self, method: u32, serial: u64) {
        if let Some(word) = self.invalidated.get(method as usize) {
            word.store(serial, Ordering::SeqCst);
        }
    }

    /// The last serial of the method's invalidated codes; 0 if there is none.
    pub fn invalidated(&self, method: u32) -> u64 {
        match self.invalidated.get(method as usize) {
            Some(word) => word.load(Ordering::SeqCst),
            None => 0,
        }
    }

    /// Notes what a thread saw at a stop.
    pub fn note_stop<R: Wait>(&self, rt: &R, seen: Seen) -> Result<(), AllocError> {
        let mut stops = self.stops.lock(rt);
        keep(&mut stops, seen)
    }

    /// Takes all noted stops.
    pub fn take_stops<R: Wait>(&self, rt: &R, alloc: Global) -> Vec<Seen> {
        let mut stops = self.stops.lock(rt);
        std::mem::replace(&mut *stops, Vec::new(alloc))
    }
}
