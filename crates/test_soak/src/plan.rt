//! The plan of a run.
use std::fmt;

const MOST_THREADS: u64 = 64;

// The history of a run has room for this many rounds.
const MOST_ROUNDS: u64 = 500;

// A history that forgets closed operations doesn't limit the rounds; this bound is the program's own.
const MOST_FORGETTING: u64 = 1_000_000_000;

// There are few slots, hardly more than methods, so that slots are used again.
const SIZES: Sizes = Sizes {
    places: 4,
    slots: 7,
    methods: 5,
};

// A recorded run allows each thread this many more acts after every `ROUNDS` rounds.
const ACTS: u64 = 100;

const ROUNDS: u64 = 8;

/// What a run does with its calls.
#[derive(Clone, Copy, PartialEq, Eq, Drop)]
pub enum Kind {
    /// It counts them.
    Counted,
    /// It counts them, and forgets closed operations now and then.
    Forgotten,
    /// It records them.
    Recorded,
    /// It records them, and makes them all in one machine thread.
    ByOne,
}

/// The sizes of a run's system.
#[derive(Clone, Copy, Drop)]
pub struct Sizes {
    pub places: usize,
    pub slots: u32,
    pub methods: u32,
}

/// A run with a thread for each place, and this many rounds of the main thread.
#[derive(Clone, Copy, Drop)]
pub struct Plan {
    pub kind: Kind,
    pub sizes: Sizes,
    pub rounds: u64,
    pub seed: u64,
}

/// How threads act.
#[derive(Clone, Copy, Drop)]
pub struct Habits {
    /// How many methods a chain of calls enters at most.
    pub chain: u64,
    /// In one of this many calls a thread yields between loading a hint and the call.
    pub hesitation: u64,
}

impl Plan {
    /// The plan of these words; None unless there are 1 to 64 threads and not too many rounds.
    pub fn new(kind: Kind, threads: u64, rounds: u64, seed: u64) -> Option<Plan> {
        let most = match kind {
            Kind::Forgotten => MOST_FORGETTING,
            _ => MOST_ROUNDS,
        };
        if threads == 0 || threads > MOST_THREADS || rounds == 0 || rounds > most {
            return None;
        }
        let plan = Plan::short(kind);
        let sizes = Sizes {
            places: threads as usize,
            ..plan.sizes
        };
        Some(Plan {
            sizes,
            rounds,
            seed,
            ..plan
        })
    }

    /// A short run.
    pub fn short(kind: Kind) -> Plan {
        Plan {
            kind,
            sizes: SIZES,
            rounds: 20,
            seed: 1,
        }
    }

    /// The run in one machine thread.
    pub fn by_one() -> Plan {
        let sizes = Sizes {
            places: 1,
            slots: 2,
            methods: 1,
        };
        Plan {
            sizes,
            ..Plan::short(Kind::ByOne)
        }
    }

    pub fn is_recorded(self) -> bool {
        matches!(self.kind, Kind::Recorded | Kind::ByOne)
    }

    /// How many acts each thread may have made by this round; `u64::MAX` for no limit.
    pub fn acts(self, round: u64) -> u64 {
        if self.is_recorded() {
            (round / ROUNDS).saturating_add(1).saturating_mul(ACTS)
        } else {
            u64::MAX
        }
    }

    /// How many threads may exit and start anew in each round. If acts are limited, a thread exits after its acts.
    pub fn renewals(self) -> u64 {
        if self.is_recorded() { 0 } else { 2 }
    }

    /// Some chains of calls fill the stack. A recorded run has short ones, since each call makes the log longer; its threads yield more
    /// often, so that calls overlap.
    pub fn habits(self) -> Habits {
        let (chain, hesitation) = if self.is_recorded() {
            (6, 2)
        } else {
            (300, 64)
        };
        Habits { chain, hesitation }
    }
}

impl fmt::Display for Plan {
    fn fmt<W: fmt::Write>(&self, f: &mut fmt::Formatter<W>) -> fmt::Result {
        let behind = match self.kind {
            Kind::Counted => "",
            Kind::Forgotten => " forget",
            Kind::Recorded | Kind::ByOne => " record",
        };
        write!(
            f,
            "threads {} rounds {} seed {}{behind}",
            self.sizes.places, self.rounds, self.seed
        )
    }
}
