//! Requests to threads, the queue in which requests wait, and the jobs that answer them.
//! `system`, `bodies`, `desk` and all crates above them use this crate.
//! Read `src/requests.rt` first, then `src/job.rt` and `specs/Asks.antt`.
#![tactic(auto)]

ghost use Rattle.std.specs.Prelude.{◌≡◌};

use std::marker::Model;

pub mod asks;
pub mod job;
pub mod queue;
pub mod requests;

/// The question of a handshake to each target.
#[derive(Clone, Copy, Debug, PartialEq, Eq, Drop)]
pub enum Ask {
    /// The number of frames.
    Depth,
    /// The number of frames whose code has the serial.
    CountOf(u64),
    /// The serial of the top frame's code; 0 if that frame is interpreted or the stack is empty.
    Top,
}

/// Names of threads, in the given order.
#[derive(Debug, Drop)]
pub struct Targets {
    names: Vec<u64>,
}

impl Model for Targets {
    ghost use Rattle.std.specs.Prelude.{List, ℕ};

    ghost Value = { List ℕ };

    ghost view = { λ l. l.names.items };
}

impl Targets {
    pub fn from_vec(names: Vec<u64>) -> Targets
        ensures { result ≡ names.items }
    {
        Targets { names }
    }

    pub fn as_slice(&self) -> &[u64]
        ensures { result.now ≡ self.now }
    {
        self.names.as_slice()
    }

    /// Returns the list without allocating.
    pub fn into_vec(self) -> Vec<u64>
        ensures { result.items ≡ self }
    {
        let Self { names } = self;
        names
    }
}

/// A handshake of the listed threads, or a census of all threads.
#[derive(Debug, Drop)]
pub enum Request {
    Handshake { targets: Targets, ask: Ask },
    Census,
}

/// The kind of a request.
#[derive(Clone, Copy, Debug, PartialEq, Eq, Drop)]
pub enum Kind {
    Handshake,
    Census,
}
