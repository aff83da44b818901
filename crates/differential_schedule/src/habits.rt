//! Which kinds of calls a schedule prefers, by its seed and its phase.
ghost use Rattle.std.specs.Prelude.{◌<◌};

/// What threads mostly do. One phase follows another.
#[derive(Clone, Copy)]
pub enum Phase {
    /// Threads start, and stacks grow.
    Grow,
    /// Stacks keep about their size.
    Stay,
    /// Threads go into native code or block, and the coordinator works on requests.
    Rest,
    /// Stacks shrink, and threads exit.
    Shrink,
}

/// The habits of a seed.
#[derive(Clone, Copy)]
pub struct Habits {
    /// The length of a phase, in calls.
    pub phase: u64,
    /// Whether requests are submitted until the queue is full.
    pub greedy: bool,
    /// Whether stacks grow to their limit.
    pub deep: bool,
    /// Whether closed operations are forgotten now and then.
    pub forgets: bool,
}

/// Shares in a hundred. Of all calls: those of threads, and those of threads or codes; the rest are about requests. Of the calls of a
/// thread in Java: calls of methods, and those or returns.
#[derive(Clone, Copy)]
pub struct Shares {
    pub threads: u64,
    pub codes: u64,
    pub calls: u64,
    pub returns: u64,
}

impl Shares {
    fn of(threads: u64, codes: u64, calls: u64, returns: u64) -> Shares {
        Shares {
            threads,
            codes,
            calls,
            returns,
        }
    }
}

impl Habits {
    pub fn of(seed: u64, places: usize) -> Habits {
        let deep = places == 1 && seed % 2 == 1;
        let greedy = seed % 5 == 2;
        let phase = if deep {
            330
        } else if greedy {
            250
        } else {
            seed % 4 * 40 + 30
        };
        Habits {
            phase,
            greedy,
            deep,
            forgets: seed % 3 == 1,
        }
    }

    /// What the call with this number is about.
    pub fn phase_at(&self, number: u64) -> Phase {
        match number / self.phase.max(1) % 5 {
            0 => Phase::Grow,
            2 => Phase::Stay,
            3 => Phase::Shrink,
            _ => Phase::Rest,
        }
    }

    pub fn shares(&self, phase: Phase) -> Shares {
        match phase {
            Phase::Grow if self.deep => Shares::of(96, 98, 94, 95),
            Phase::Grow => Shares::of(68, 86, 60, 66),
            Phase::Stay => Shares::of(50, 68, 38, 64),
            Phase::Rest => Shares::of(25, 50, 12, 24),
            Phase::Shrink => Shares::of(78, 90, 4, 76),
        }
    }
}
