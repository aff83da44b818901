//! What happened in schedules, as numbers and as text.
use crate::play::Stopped;
use crate::said::Said;
use std::fmt;

/// The kinds of results that are counted.
#[derive(Clone, Copy)]
pub(crate) enum Counted {
    Refused,
    Exited,
    Reply,
    Census,
    Freed,
    /// An Open while others were open.
    Beside,
    Forgot,
}

const KINDS: usize = 7;

// The text after the count of each kind.
const WORDS: [&str; KINDS] = [
    " were refused; ",
    " exits, ",
    " replies, ",
    " censuses, ",
    " codes reclaimed, ",
    " handshakes opened beside others, ",
    " times what is closed was forgotten",
];

/// The number of calls, and how many of them had each kind of result.
#[derive(Clone, Copy)]
pub struct Tally {
    pub calls: u64,
    counts: [u64; KINDS],
}

impl Tally {
    /// The tally of no call.
    pub fn none() -> Tally {
        Tally {
            calls: 0,
            counts: [0; KINDS],
        }
    }

    /// Adds another tally.
    pub fn add(&mut self, other: Tally) {
        self.calls = self.calls.saturating_add(other.calls);
        for kind in 0..KINDS {
            self.counts[kind] = self.counts[kind].saturating_add(other.counts[kind]);
        }
    }

    /// Adds this many results of a kind.
    pub(crate) fn count(&mut self, counted: Counted, more: u64) {
        if let Some(count) = self.counts.get_mut(counted as usize) {
            *count = count.saturating_add(more);
        }
    }

    /// Counts a call, after which this many requests are open.
    pub(crate) fn note(&mut self, said: Said, open: usize) {
        self.calls = self.calls.saturating_add(1);
        if let Some(counted) = Counted::of(said, open) {
            self.count(counted, 1);
        }
    }
}

impl Counted {
    fn of(said: Said, open: usize) -> Option<Counted> {
        match said {
            Said::Refused(_) => Some(Counted::Refused),
            Said::Exited(_) => Some(Counted::Exited),
            Said::Census(_) => Some(Counted::Census),
            Said::Freed => Some(Counted::Freed),
            Said::Opened(_) if open > 1 => Some(Counted::Beside),
            Said::Forgot => Some(Counted::Forgot),
            _ => None,
        }
    }
}

/// The tally of this many seeds.
#[derive(Clone, Copy)]
pub struct Total {
    pub seeds: u64,
    pub first: u64,
    pub all: Tally,
}

/// A seed whose schedule stopped early, and why.
#[derive(Drop)]
pub struct Found {
    pub seed: u64,
    pub stopped: Stopped,
}

impl fmt::Display for Total {
    fn fmt<W: fmt::Write>(&self, f: &mut fmt::Formatter<W>) -> fmt::Result {
        let Total { seeds, first, all } = *self;
        write!(f, "{seeds} seeds from {first}: no difference in {all}")
    }
}

impl fmt::Display for Tally {
    fn fmt<W: fmt::Write>(&self, f: &mut fmt::Formatter<W>) -> fmt::Result {
        let calls = self.calls;
        write!(f, "{calls} calls, of which ")?;
        for kind in 0..KINDS {
            let count = self.counts[kind];
            let words = WORDS[kind];
            write!(f, "{count}{words}")?;
        }
        Ok(())
    }
}

impl fmt::Display for Found {
    fn fmt<W: fmt::Write>(&self, f: &mut fmt::Formatter<W>) -> fmt::Result {
        let seed = self.seed;
        write!(f, "seed {seed}: ")?;
        match &self.stopped {
            Stopped::NoMemory => f.write_str("no memory"),
            Stopped::Few(calls) => write!(f, "only {calls} calls found nothing to wait for"),
            Stopped::Differ(found) => f.write_str(found),
        }
    }
}
