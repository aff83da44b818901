//! The main thread of a run: it installs, invalidates and reclaims codes, and submits requests to the other threads.
ghost use Rattle.std.specs.Prelude.{◌≡◌, ◌<◌};

use crate::answers::Came;
use crate::asked::AskedList;
use crate::codes::Codes;
use crate::counts::Words;
use crate::hands::Hands;
use crate::making::Makes;
use crate::plan::Plan;
use crate::requests::Gone;
use crate::signals::Signals;
use crate::tally::Tally;
use crate::wrong::{Step, Wrong};
use bodies::Name;
use operations::job::HandshakeOp;
use std::alloc::AllocError;
use std::sync::Wait;
use std::thread;
use test_tools::Choices;

// How many codes a round installs or invalidates at most.
const CODE_ACTS: u64 = 6;

// How often the main thread yields between two rounds at most.
const YIELDS: u64 = 128;

/// The main thread's part of a run.
#[derive(Drop)]
pub struct Driver<'c, 'x, 'a, N: Name, J: HandshakeOp, R: Wait, M: Makes<J>> {
    pub(crate) hands: Hands<'c, 'x, 'a, N, J, R>,
    pub(crate) jobs: M,
    pub(crate) signals: &'a Signals,
    pub(crate) plan: Plan,
    pub(crate) choices: Choices,
    pub(crate) codes: Codes,
    pub(crate) words: Words<'a, N, J>,
    pub(crate) asked: AskedList,
    /// The counts of the last census.
    pub(crate) counted: Vec<(u64, u32)>,
    pub(crate) tally: Tally,
}

impl<'c, 'x, 'a, N: Name, J: HandshakeOp, R: Wait, M: Makes<J>> Driver<'c, 'x, 'a, N, J, R, M> {
    pub fn new(
        hands: Hands<'c, 'x, 'a, N, J, R>,
        jobs: M,
        signals: &'a Signals,
        plan: Plan,
    ) -> Result<Driver<'c, 'x, 'a, N, J, R, M>, Wrong>
        requires slots { plan.sizes.slots ≡ N.board.slots }
    {
        let (alloc, shared) = (hands.alloc, hands.shared);
        Ok(Driver {
            hands,
            jobs,
            signals,
            plan,
            choices: Choices::new(plan.seed),
            codes: Codes::new(alloc, plan.sizes.methods, plan.sizes.slots)?,
            words: Words::new(shared, plan.sizes.slots),
            asked: AskedList::new(alloc),
            counted: Vec::new(alloc),
            tally: Tally::default(),
        })
    }

    /// Makes the rounds. Answers the first thing that goes wrong; before that it closes all requests.
    pub fn drive_threads(&mut self) -> Option<Wrong> {
        match self.work() {
            Ok(()) => None,
            Err(found) => {
                self.close_all();
                Some(found)
            }
        }
    }

    // Makes the rounds, and stops at the first that goes wrong. In each round the threads may make more acts, and more of them may exit and
    // start anew.
    fn work(&mut self) -> Result<(), Wrong> {
        for round in 0..self.plan.rounds {
            let renewals = round.saturating_mul(self.plan.renewals());
            self.signals.allow(self.plan.acts(round), renewals);
            self.round()?;
            let next = self.asked.next();
            self.may_forget(next)?;
        }
        Ok(())
    }

    fn round(&mut self) -> Result<(), Wrong> {
        self.give_way(YIELDS);
        self.change_codes()?;
        self.ask_something()?;
        self.reclaim()
    }

    /// Lets other threads run a while.
    pub fn give_way(&mut self, yields: u64)
        requires { 0 < yields }
    {
        for _ in 0..self.choices.below(yields) {
            thread::yield_now();
        }
    }

    fn change_codes(&mut self) -> Result<(), Wrong> {
        for _ in 0..self.choices.below(CODE_ACTS) {
            let method = self.pick_method();
            match self.choices.below(5) {
                0 | 1 => self.install(method)?,
                2 | 3 => self.invalidate(method)?,
                _ => self.reclaim_unready(method)?,
            }
        }
        Ok(())
    }

    // Requests that wait by hand for threads aren't recorded: their log may be long.
    fn ask_something(&mut self) -> Result<(), Wrong> {
        let kinds = if self.plan.is_recorded() { 6 } else { 9 };
        match self.choices.below(kinds) {
            0 => self.ask_and_drive(),
            1 => self.ask_and_drive_four(),
            2 | 3 => self.step_at_random(),
            4 => self.reclaim_with_jobs(),
            5 => self.reclaim(),
            6 => self.count_by_hand(),
            7 => self.shake_by_hand(),
            _ => self.shake_four_by_hand(),
        }
    }

    /// Drives all requests that a failed round has left to their Close, so that no thread waits for one.
    pub fn close_all(&mut self) {
        let rt = self.hands.rt;
        for _ in rt.forever() {
            match self.drive_next() {
                Gone::Handshake(_) | Gone::Census(_) => {}
                Gone::Empty | Gone::NoMemory => return,
            }
        }
    }

    /// Checks, after all threads exited, that no thread is live, that each code is freed once it is invalidated, and that nothing is
    /// counted.
    pub fn finish(&mut self) -> Result<(), Wrong> {
        if self.is_any_live()? {
            return Err(Wrong::Live);
        }
        self.invalidate_all()?;
        self.reclaim_all()?;
        match self.hands.shared.peek_counts() {
            0 => Ok(()),
            sum => Err(Wrong::Counted(sum)),
        }
    }

    fn is_any_live(&mut self) -> Result<bool, AllocError> {
        let live = self.hands.live()?;
        Ok(!live.is_empty())
    }

    fn invalidate_all(&mut self) -> Result<(), Wrong> {
        for method in 0..self.hands.shared.methods() {
            if self.codes.current(method).is_some() {
                self.invalidate(method)?;
            }
        }
        Ok(())
    }

    fn reclaim_all(&mut self) -> Result<(), Wrong> {
        for _ in 0..self.codes.last() {
            let Some(serial) = self.codes.left(0) else {
                break;
            };
            self.reclaim_last(serial)?;
        }
        Ok(())
    }

    // Frees a code on which no thread has a frame.
    fn reclaim_last(&mut self, serial: u64) -> Result<(), Wrong> {
        let came = self.hands.reclaim_alone(serial);
        match came {
            Came::Freed => self.note_reclaimed(serial, came),
            Came::Used(_) | Came::Late(_) => Err(Wrong::Unfreed(serial)),
            _ => Err(Wrong::Answer(Step::Reclaim)),
        }
    }
}
