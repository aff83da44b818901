//! What is seen of a run by its jobs and by its ticks.

use frames::Frame;
use std::alloc::{AllocError, Global};
use std::sync::atomic::{AtomicU64, Ordering};

/// How many jobs ran for each thread, how many of all jobs found other frames than they should, how many ticks began, how many of them
/// waited in vain for others, and how many ticks of each thread began once all jobs had run.
#[derive(Drop)]
pub struct Seen {
    methods: u64,
    jobs: Vec<AtomicU64>,
    unlike: AtomicU64,
    pub ticks: AtomicU64,
    pub missed: AtomicU64,
    later: Vec<AtomicU64>,
}

// So many words, each 0.
fn zeros(alloc: Global, count: usize) -> Result<Vec<AtomicU64>, AllocError> {
    let mut words = Vec::new(alloc);
    for _ in 0..count {
        words.push(AtomicU64::new(0)).map_err(|_| AllocError)?;
    }
    Ok(words)
}

// Counts in the word of a name.
fn count(words: &[AtomicU64], name: u64) {
    if let Some(word) = words.get(name.saturating_sub(1) as usize) {
        word.fetch_add(1, Ordering::SeqCst);
    }
}

// Whether a frame is of the method, interpreted or by a code of it. Each method got its first code in turn, and then its second.
fn is_of(frame: &Frame, method: u64, methods: u64) -> bool {
    let by_its_own = match frame.code {
        None => true,
        Some(code) => {
            let serial = code.serial;
            serial == method.saturating_add(1)
                || serial == method.saturating_add(methods).saturating_add(1)
        }
    };
    (frame.method as u64) == method && by_its_own
}

impl Seen {
    /// Nothing was seen of a run of so many threads and methods.
    pub fn new(alloc: Global, threads: usize, methods: usize) -> Result<Seen, AllocError> {
        Ok(Seen {
            methods: methods as u64,
            jobs: zeros(alloc, threads)?,
            unlike: AtomicU64::new(0),
            ticks: AtomicU64::new(0),
            missed: AtomicU64::new(0),
            later: zeros(alloc, threads)?,
        })
    }

    /// A job for the thread of the name runs on these frames. They should be one of each method, in order.
    pub fn note(&self, name: u64, frames: &[Frame]) {
        let mut is_alike = (frames.len() as u64) == self.methods;
        let mut method = 0;
        for frame in frames {
            is_alike = is_alike && is_of(frame, method, self.methods);
            method = method.saturating_add(1);
        }
        if !is_alike {
            self.unlike.fetch_add(1, Ordering::SeqCst);
        }
        count(self.jobs.as_slice(), name);
    }

    /// Whether all jobs ran: one for each thread and method.
    pub fn is_done(&self) -> bool {
        for word in &self.jobs {
            if word.load(Ordering::SeqCst) < self.methods {
                return false;
            }
        }
        true
    }

    /// A tick of the thread of the name began once all jobs had run.
    pub fn tick_later(&self, name: u64) {
        count(self.later.as_slice(), name);
    }

    // Whether each thread had a tick once all jobs had run.
    fn each_ticked_later(&self) -> bool {
        for word in &self.later {
            if word.load(Ordering::SeqCst) == 0 {
                return false;
            }
        }
        true
    }

    /// What the jobs saw.
    pub fn jobs_text(&self, alloc: Global) -> Result<String, AllocError> {
        let mut text = String::from_str(alloc, "jobs")?;
        for word in &self.jobs {
            let one = format!(in alloc; " {}", word.load(Ordering::SeqCst))?;
            text.push_str(&one)?;
        }
        let unlike = self.unlike.load(Ordering::SeqCst);
        let later = if self.each_ticked_later() {
            "yes"
        } else {
            "no"
        };
        let rest = format!(in alloc; "\nunlike {unlike}\nticks later {later}\n")?;
        text.push_str(&rest)?;
        Ok(text)
    }

    /// What the ticks saw of one another.
    pub fn ticks_text(&self, alloc: Global) -> Result<String, AllocError> {
        let ticks = self.ticks.load(Ordering::SeqCst);
        let missed = self.missed.load(Ordering::SeqCst);
        format!(in alloc; "ticks {ticks}\nmissed {missed}\n")
    }
}
