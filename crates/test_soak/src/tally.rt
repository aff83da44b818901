//! Counters of a run.
use crate::wrong::Wrong;
use operations::Ask;
use std::alloc::{AllocError, Global};
use std::fmt;
use test_tools::keep;

/// The stack of a thread when it stopped for an operation.
#[derive(Drop)]
pub struct Seen {
    pub name: u64,
    pub op: u64,
    depth: u64,
    // The serial of the top frame's code, 0 if it is interpreted or there is none.
    top: u64,
    // The codes that have frames, each with the number of its frames.
    frames: Vec<(u64, u64)>,
}

impl Seen {
    /// Counts the frames of a stack, given by the serial of each frame's code, 0 if it is interpreted. Fails only if memory is refused.
    pub fn of(name: u64, op: u64, stack: &[u64], alloc: Global) -> Result<Seen, AllocError> {
        let mut frames = Vec::new(alloc);
        for serial in stack {
            add_frame(&mut frames, *serial)?;
        }
        Ok(Seen {
            name,
            op,
            depth: stack.len() as u64,
            top: stack.last().copied().unwrap_or(0),
            frames,
        })
    }

    /// The reply of this stack to a query.
    pub fn answer(&self, ask: Ask) -> u64 {
        match ask {
            Ask::Depth => self.depth,
            Ask::CountOf(serial) => frames_of(self.frames.as_slice(), serial),
            Ask::Top => self.top,
        }
    }
}

// Counts one more frame of the code.
fn add_frame(frames: &mut Vec<(u64, u64)>, serial: u64) -> Result<(), AllocError> {
    for entry in frames.iter_mut() {
        if entry.0 == serial {
            entry.1 = entry.1.saturating_add(1);
            return Ok(());
        }
    }
    keep(frames, (serial, 1))
}

// How many frames the code has.
fn frames_of(frames: &[(u64, u64)], serial: u64) -> u64 {
    for entry in frames {
        if entry.0 == serial {
            return entry.1;
        }
    }
    0
}

/// Counts of what was done.
#[derive(Clone, Copy, Default, Drop)]
pub struct Tally {
    pub names: u64,
    pub calls: u64,
    pub compiled: u64,
    pub stops: u64,
    pub handshakes: u64,
    pub replies: u64,
    pub censuses: u64,
    pub installed: u64,
    pub freed: u64,
    pub forgets: u64,
}

/// What a thread did, and the first thing that went wrong.
#[derive(Clone, Copy, Default, Drop)]
pub struct Report {
    pub tally: Tally,
    pub wrong: Option<Wrong>,
}

impl Tally {
    /// Adds the report of a thread.
    pub fn add(&mut self, other: Tally) {
        self.names = self.names.saturating_add(other.names);
        self.calls = self.calls.saturating_add(other.calls);
        self.compiled = self.compiled.saturating_add(other.compiled);
        self.stops = self.stops.saturating_add(other.stops);
    }
}

impl fmt::Display for Tally {
    fn fmt<W: fmt::Write>(&self, f: &mut fmt::Formatter<W>) -> fmt::Result {
        write!(
            f,
            "names {} calls {} compiled {} ",
            self.names, self.calls, self.compiled
        )?;
        write!(
            f,
            "stops {} handshakes {} replies {} ",
            self.stops, self.handshakes, self.replies
        )?;
        write!(
            f,
            "censuses {} installs {} freed {} forgets {}",
            self.censuses, self.installed, self.freed, self.forgets
        )
    }
}
