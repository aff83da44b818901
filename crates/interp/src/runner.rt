ghost use Rattle.std.specs.Prelude.{◌≡◌, ◌<◌, ◌≤◌, ◌+◌, ◌-◌, ◌^◌, min, [], ◌∷◌, ◌++◌, length, take, vec_capacity};
ghost use Rattle.interp.specs.Moves.{action_ahead as action_ahead_of};

use crate::frame::{Ahead, Frame, Move, Phase};
use crate::mark::{Mark, Steps};
use script::{Action, Code, Op};
use std::alloc::{AllocError, Global};

/// The most calls that are active at once.
pub const MAX_DEPTH: usize = 256;

/// How a run ended.
#[derive(Debug, Drop)]
pub enum Outcome<E> {
    /// The whole trace is made.
    Finished,
    /// The next mark would begin a call on top of [`MAX_DEPTH`] active ones.
    Overflow,
    /// A mark is left, but no fuel.
    OutOfFuel,
    /// The next mark was refused.
    Refused(E),
}

/// Runs checked code, one mark at a time.
#[derive(Drop)]
pub struct Runner<'c> {
    code: &'c Code,
    phase: Phase,
    frame: Frame,
    callers: Vec<Frame>,
    made: u64,
    ghost room: { 255 ≤ vec_capacity callers },
    ghost counted: { made < 2 ^ 64 },
}

impl<'c> Runner<'c> {
    ghost use Rattle.interp.specs.Moves.{ahead_of, Fits, MoveFits, Moved};
    ghost use Rattle.std.specs.Prelude.{IfOk, map, List, if◌then◌else◌};
    ghost use Rattle.script.specs.Body.{Body};
    ghost use Rattle.script.specs.Checked.{AreChecked};
    ghost use Rattle.script.specs.Layout.{routine};
    ghost use Rattle.interp.specs.Trace.{trace};
    ghost use Rattle.interp.specs.Left.{Left, made_by};
    ghost use Rattle.interp.specs.Stepped.{Stepped, Ran};

    /// A runner that has the whole trace of a checked script left; `code` is that script's code. This call
    /// takes all the memory that the runner ever needs.
    pub fn new(alloc: Global, code: &'c Code) -> Result<Runner<'c>, AllocError>
        ensures left { IfOk result (λ r. (bs : List Body) → code.now ≡ map routine bs
            → AreChecked bs → Left r (trace bs)) }
        ensures made { IfOk result (λ r. made_by r ≡ 0) }
    {
        Ok(Runner {
            code,
            phase: Phase::Fresh,
            frame: Frame::new(0),
            callers: Vec::with_capacity(alloc, MAX_DEPTH - 1)?,
            made: 0,
        })
    }

    /// How many marks are made, at most 2^64 - 1.
    pub fn made(&self) -> u64
        ensures { result ≡ made_by self.now }
    {
        self.made
    }

    /// Makes the next mark, and returns true if one was left. After a refusal the runner is as before. The
    /// call takes no memory but what `mark` takes.
    pub fn step<S: Steps>(&mut self, steps: &mut S) -> Result<bool, S::Refusal>
        ensures stepped { Stepped S.marked S.refused self.old steps.old result self.new steps.new }
        ensures made { IfOk result
            (λ b. made_by self.new
            ≡ (if b then min (made_by self.old + 1) (2 ^ 64 - 1) else made_by self.old)) }
    {
        match self.ahead() {
            Ahead::Finished => Ok(false),
            Ahead::Overflow => Ok(false),
            Ahead::Made(mark, step) => match steps.mark(mark) {
                Ok(()) => {
                    self.advance(step);
                    Ok(true)
                }
                Err(refusal) => Err(refusal),
            },
        }
    }

    /// Makes marks until none is left, the fuel is used up, or a mark is refused, tested in this order.
    /// Each mark uses one unit of fuel.
    pub fn run<S: Steps>(&mut self, steps: &mut S, fuel: u64) -> Outcome<S::Refusal>
        ensures { Ran S.marked S.refused self.old steps.old fuel result self.new steps.new }
    {
        let mut left = fuel;
        loop {
            let (mark, step) = match self.ahead() {
                Ahead::Finished => return Outcome::Finished,
                Ahead::Overflow => return Outcome::Overflow,
                Ahead::Made(mark, step) => (mark, step),
            };
            if left == 0 {
                return Outcome::OutOfFuel;
            }
            if let Err(refusal) = steps.mark(mark) {
                return Outcome::Refused(refusal);
            }
            self.advance(step);
            left -= 1;
        }
    }

    fn ahead(&self) -> Ahead
        ensures value { result
            ≡ ahead_of self.now.code.now self.now.phase self.now.frame self.now.callers.items }
        ensures fits { Fits self.now.frame self.now.callers.items result }
    {
        match self.phase {
            Phase::Fresh => Ahead::Made(Mark::In(0), Move::Begin),
            Phase::Finished => Ahead::Finished,
            Phase::Running => match self.code.op(self.frame.method, self.frame.at) {
                None => Ahead::Made(Mark::Out(self.frame.method), Move::Leave),
                Some(
                    Op::Edge {
                        turns,
                        start,
                        level,
                    },
                ) => Ahead::Made(
                    Mark::Edge,
                    Move::Turn {
                        turns,
                        start,
                        level,
                    },
                ),
                Some(Op::Action(action)) => action_ahead(self.callers.len(), action),
            },
        }
    }

    fn advance(&mut self, step: Move)
        requires { MoveFits self.old.frame self.old.callers.items step }
        ensures moved { Moved step self.old.phase self.old.frame self.old.callers.items
            self.new.phase self.new.frame self.new.callers.items }
        ensures code { self.new.code ≡ self.old.code }
        ensures made { self.new.made ≡ min (self.old.made + 1) (2 ^ 64 - 1) }
    {
        self.made = self.made.saturating_add(1);
        match step {
            Move::Begin => self.phase = Phase::Running,
            Move::Pass => self.frame = self.frame.passed(),
            Move::Enter(method) => {
                self.callers.push_reserved(self.frame.passed());
                self.frame = Frame::new(method);
            }
            Move::Leave => match self.callers.pop() {
                Some(caller) => self.frame = caller,
                None => self.phase = Phase::Finished,
            },
            Move::Turn {
                turns,
                start,
                level,
            } => self.frame = self.frame.turned(turns, start, level),
        }
    }
}

/// What an action makes below so many active callers.
fn action_ahead(depth: usize, action: Action) -> Ahead
    ensures { result ≡ action_ahead_of depth action }
{
    match action {
        Action::Native => Ahead::Made(Mark::Native, Move::Pass),
        Action::Vm => Ahead::Made(Mark::Vm, Move::Pass),
        Action::Block => Ahead::Made(Mark::Block, Move::Pass),
        Action::Tick => Ahead::Made(Mark::Tick, Move::Pass),
        Action::Call(method) => {
            if depth < MAX_DEPTH - 1 {
                Ahead::Made(Mark::In(method as usize), Move::Enter(method as usize))
            } else {
                Ahead::Overflow
            }
        }
    }
}
