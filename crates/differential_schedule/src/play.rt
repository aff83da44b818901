//! Plays a schedule on both sides, call by call.
use crate::calls::Call;
use crate::habits::{Habits, Phase};
use crate::losses::Loss;
use crate::oracle::Oracle;
use crate::running::{Running, Sizes, Thread};
use crate::said::Said;
use crate::schedule::Scene;
use crate::stock::Stock;
use crate::tally::{Counted, Tally};
use std::alloc::{AllocError, Global};
use test_tools::{Choices, keep};

/// The number of calls of a schedule. It is lower only if a census keeps threads for good.
const CALLS: u64 = 1000;

// How many draws may look for a call that doesn't wait.
const DRAWS: u32 = 1000;

// After this many calls everything is compared, and not only what is cheap to read.
const ALL: u64 = 100;

/// The schedule of a seed on a system of these sizes, and what its core drops.
#[derive(Clone, Copy)]
pub struct Plan {
    pub seed: u64,
    pub sizes: Sizes,
    pub loss: Option<Loss>,
}

/// Why a schedule stops before its end.
#[derive(Drop)]
pub enum Stopped {
    NoMemory,
    /// The two sides differ. The text says at which call, in what, and what each side has.
    Differ(String),
    /// Only this many calls were made: after them every drawn call would have waited.
    Few(u64),
}

impl From<AllocError> for Stopped {
    fn from(_: AllocError) -> Stopped {
        Stopped::NoMemory
    }
}

impl Plan {
    /// The plan of a seed. Most plans have small sizes, and reuse places and slots again and again; some have the greatest sizes.
    pub fn of(seed: u64, loss: Option<Loss>) -> Plan {
        let places = match seed % 7 {
            0 => 1,
            1 | 2 => 2,
            3 => 3,
            4 => 5,
            5 => 12,
            _ => 64,
        };
        let slots = (seed % 1000 * 5 % 7 + 1) as u32;
        let methods = (seed % 4 + 1) as u32;
        let sizes = Sizes {
            places,
            slots,
            methods,
        };
        Plan { seed, sizes, loss }
    }

    // In one of sixteen seeds a poll may stop a thread for a census, which then stays open for good.
    fn is_reckless(self) -> bool {
        self.seed % 16 == 0
    }
}

/// The running system and the core.
#[derive(Drop)]
pub(crate) struct Pair<'r, R, S: Running<R>> {
    pub rt: &'r R,
    pub alloc: Global,
    pub sizes: Sizes,
    pub oracle: Oracle,
    pub running: S,
    // The running system's threads.
    pub threads: Vec<Thread>,
    pub stock: Stock,
    pub tally: Tally,
    // The last call.
    pub last: Call,
}

/// Plays the plan on both sides. Then it enters, looks for and weighs all codes, ends all threads and frees all codes. Answers how often
/// each kind of result occurred.
pub fn play<R, S: Running<R>>(
    rt: &R,
    alloc: Global,
    plan: Plan,
    running: S,
) -> Result<Tally, Stopped> {
    let stock = Stock::new(alloc, plan.sizes.places)?;
    let oracle = Oracle::new(alloc, plan.sizes, plan.is_reckless(), plan.loss)?;
    let mut pair = Pair {
        rt,
        alloc,
        sizes: plan.sizes,
        oracle,
        running,
        threads: Vec::new(alloc),
        stock,
        tally: Tally::none(),
        last: Call::Start,
    };
    pair.play_all(plan)
}

/// The result of a try to make a call.
#[derive(Clone, Copy)]
pub(crate) enum Made {
    /// The call wasn't made, since it would wait.
    Waits,
    Refused,
    Done,
}

impl<R, S: Running<R>> Pair<'_, R, S> {
    /// Makes a call on both sides, and compares them.
    pub fn make(&mut self, call: Call) -> Result<Made, Stopped> {
        let core = self.oracle.answer(call);
        if let Said::Waits = core {
            return Ok(Made::Waits);
        }
        let said = self.running.answer(self.rt, call);
        self.last = call;
        self.tally.note(said, self.oracle.open.len());
        self.list_threads()?;
        self.compare(core, said)?;
        Ok(self.note(call, said))
    }

    fn list_threads(&mut self) -> Result<(), Stopped> {
        self.threads.clear();
        for index in 0..self.sizes.places {
            let Some(thread) = self.running.thread(index) else {
                break;
            };
            keep(&mut self.threads, thread)?;
        }
        Ok(())
    }

    // Notes an answer that both sides gave. The jobs that the call took are gone.
    fn note(&mut self, call: Call, said: Said) -> Made {
        if let Said::Refused(_) = said {
            return Made::Refused;
        }
        if let Some(handshake) = call.takes_jobs() {
            self.stock.take(handshake);
        }
        Made::Done
    }

    // Compares the answers and the visible state. If memory was refused, nothing can be compared.
    fn compare(&mut self, core: Said, said: Said) -> Result<(), Stopped> {
        if matches!(core, Said::NoMemory) || matches!(said, Said::NoMemory) {
            return Err(Stopped::NoMemory);
        }
        let seen = self.compare_answers(core, said);
        if self.oracle.starved {
            return Err(Stopped::NoMemory);
        }
        seen
    }

    // Plays the schedule, and then the calls that end all threads. Answers how often each kind of result occurred.
    fn play_all(&mut self, plan: Plan) -> Result<Tally, Stopped> {
        self.play_by(plan)?;
        if self.tally.calls < CALLS && !plan.is_reckless() {
            return Err(Stopped::Few(self.tally.calls));
        }
        self.finish()?;
        self.tally
            .count(Counted::Reply, self.oracle.replies.len() as u64);
        Ok(self.tally)
    }

    fn play_by(&mut self, plan: Plan) -> Result<(), Stopped> {
        let mut draw = Choices::new(plan.seed);
        let habits = Habits::of(plan.seed, plan.sizes.places);
        for number in 0..CALLS {
            self.make_next(habits, habits.phase_at(number), &mut draw)?;
        }
        Ok(())
    }

    // Draws calls until one doesn't wait, and makes that call. It makes none if all draws would wait.
    fn make_next(
        &mut self,
        habits: Habits,
        phase: Phase,
        draw: &mut Choices,
    ) -> Result<(), Stopped> {
        for _drawn in 0..DRAWS {
            let call = self.pick(habits, phase, draw);
            match self.make(call)? {
                Made::Waits => {}
                _ => return Ok(()),
            }
        }
        Ok(())
    }

    fn pick(&self, habits: Habits, phase: Phase, draw: &mut Choices) -> Call {
        let scene = Scene {
            phase,
            habits,
            sizes: self.sizes,
            oracle: &self.oracle,
            threads: self.threads.as_slice(),
            stock: &self.stock,
        };
        scene.pick(draw)
    }

    /// Whether everything is compared after this call.
    pub fn is_turn_of_all(&self) -> bool {
        self.tally.calls % ALL == 0
    }
}
