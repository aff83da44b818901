//! The requests of the main thread to the others: handshakes and censuses, driven to their Close.
use crate::driver::Driver;
use crate::making::Makes;
use crate::verdict::{check_census, check_names, check_replies};
use crate::wrong::{Step, Wrong};
use bodies::Name;
use coordinator::{DriveFault, Driven};
use operations::job::{HandshakeOp, Query};
use operations::{Ask, Request, Targets};
use std::alloc::AllocError;
use std::sync::Wait;
use test_tools::keep;

// How many requests wait at once at most.
const BATCH: u64 = 3;

// How many requests wait at most before they are driven four at once: some wait for a second round.
const FOUR: u64 = 6;

/// The result of driving the oldest request to its Close. The driver has the counts of a census.
#[derive(Clone, Copy, Drop)]
pub enum Gone {
    Handshake(u64),
    Census(u64),
    Empty,
    NoMemory,
}

impl<'c, 'x, 'a, N: Name, J: HandshakeOp, R: Wait, M: Makes<J>> Driver<'c, 'x, 'a, N, J, R, M> {
    /// Submits some requests, and drives them one after the other. While one waits it checks that no code is reclaimed.
    pub fn ask_and_drive(&mut self) -> Result<(), Wrong> {
        let count = self.choices.below(BATCH) + 1;
        let last = self.submit_some(count)?;
        self.reclaim_in_vain()?;
        let before = last.saturating_sub(count);
        self.may_forget(before.saturating_add(1))?;
        for behind in 0..count {
            self.drive(before.saturating_add(behind).saturating_add(1))?;
        }
        match self.drive_next() {
            Gone::Empty => Ok(()),
            _ => Err(Wrong::Answer(Step::Drive)),
        }
    }

    /// Submits some requests, and drives up to four at once, or a census alone, until none is left.
    pub fn ask_and_drive_four(&mut self) -> Result<(), Wrong> {
        let count = self.choices.below(FOUR) + 1;
        let last = self.submit_some(count)?;
        let closed = self.drive_all()?;
        if closed != count {
            return Err(Wrong::Answer(Step::Drive));
        }
        for before in 0..count {
            self.check_closed(last.saturating_sub(before))?;
        }
        Ok(())
    }

    // Checks a request that was just closed. The counts of a census aren't kept.
    pub fn check_closed(&mut self, op: u64) -> Result<(), Wrong> {
        if self.is_census(op) {
            self.tally.censuses = self.tally.censuses.saturating_add(1);
            return Ok(());
        }
        self.check_handshake(op)
    }

    // Submits some requests. Answers the number of the last.
    pub fn submit_some(&mut self, count: u64) -> Result<u64, Wrong> {
        let mut last = 0;
        for _ in 0..count {
            last = self.submit()?;
        }
        Ok(last)
    }

    // Drives all waiting requests, up to four at once. Answers how many were closed.
    pub fn drive_all(&mut self) -> Result<u64, Wrong> {
        let rt = self.hands.rt;
        let mut closed: u64 = 0;
        for _ in rt.forever() {
            match self.hands.drive_four() {
                Ok(count) => closed = closed.saturating_add(count as u64),
                Err(DriveFault::QueueEmpty) => return Ok(closed),
                Err(DriveFault::NoMemory) => return Err(Wrong::NoMemory),
            }
        }
        unreachable!()
    }

    // Submits a handshake of most live threads, or a census.
    pub fn submit(&mut self) -> Result<u64, Wrong> {
        if self.choices.one_in(3) {
            return self.submit_census();
        }
        match self.submit_handshake()? {
            Some(op) => Ok(op),
            None => self.submit_census(),
        }
    }

    // Submits a handshake of most live threads; answers None if there are none.
    pub fn submit_handshake(&mut self) -> Result<Option<u64>, Wrong> {
        let names = self.pick_live()?;
        if names.is_empty() {
            return Ok(None);
        }
        let ask = self.pick_ask();
        self.ask_names(ask, names.as_slice())?;
        Ok(Some(self.asked.note(Some(ask), names)?))
    }

    /// Most of the live threads.
    pub fn pick_live(&mut self) -> Result<Vec<u64>, AllocError> {
        let mut names = self.hands.live()?;
        names.retain(|_| !self.choices.one_in(8));
        Ok(names)
    }

    // Submits a handshake of the names. It must get the next number.
    fn ask_names(&mut self, ask: Ask, names: &[u64]) -> Result<(), Wrong> {
        let jobs = self.jobs_of(names, ask)?;
        let targets = Targets::from_vec(Vec::from_slice(self.hands.alloc, names)?);
        self.ask(Request::Handshake { targets, ask }, jobs)
    }

    /// A job with this query for each of the names.
    pub fn jobs_of(&self, names: &[u64], ask: Ask) -> Result<Vec<J>, AllocError> {
        let mut jobs = Vec::with_capacity(self.hands.alloc, names.len())?;
        for name in names {
            keep(&mut jobs, self.jobs.job(Query::new(*name, ask)))?;
        }
        Ok(jobs)
    }

    pub fn submit_census(&mut self) -> Result<u64, Wrong> {
        let alloc = self.hands.alloc;
        self.ask(Request::Census, Vec::new(alloc))?;
        Ok(self.asked.note(None, Vec::new(alloc))?)
    }

    // Submits the request. It must get the next number.
    fn ask(&mut self, request: Request, jobs: Vec<J>) -> Result<(), Wrong> {
        match self.hands.submit(request, jobs) {
            Some(op) if op == self.asked.next() => Ok(()),
            _ => Err(Wrong::Answer(Step::Submit)),
        }
    }

    /// A query: the depth of the stack, the code of its top frame, or the frames of a code with about the serials that exist.
    pub fn pick_ask(&mut self) -> Ask {
        match self.choices.below(3) {
            0 => Ask::Depth,
            1 => Ask::Top,
            _ => {
                let back = self.choices.below(8);
                let about = self.codes.last().saturating_add(2);
                Ask::CountOf(about.saturating_sub(back).max(1))
            }
        }
    }

    pub fn is_census(&self, op: u64) -> bool {
        self.asked.ask_of(op).is_none()
    }

    /// Drives the oldest request to its Close.
    pub fn drive_next(&mut self) -> Gone {
        match self.hands.drive() {
            Ok(Driven::Handshake(op)) => Gone::Handshake(op),
            Ok(Driven::Census(op, list)) => {
                self.counted = list;
                Gone::Census(op)
            }
            Err(DriveFault::NoMemory) => Gone::NoMemory,
            Err(DriveFault::QueueEmpty) => Gone::Empty,
        }
    }

    // Drives the oldest request, which must be this one, and checks its result.
    pub fn drive(&mut self, op: u64) -> Result<(), Wrong> {
        match self.drive_next() {
            Gone::Handshake(driven) if driven == op => self.check_handshake(op),
            Gone::Census(driven) if driven == op && self.is_census(op) => self.check_counted(op),
            Gone::NoMemory => Err(Wrong::NoMemory),
            _ => Err(Wrong::Answer(Step::Drive)),
        }
    }

    // Checks the counts of a census that was just closed.
    pub fn check_counted(&mut self, op: u64) -> Result<(), Wrong> {
        self.tally.censuses = self.tally.censuses.saturating_add(1);
        check_census(op, self.counted.as_slice(), &self.codes)
    }

    /// Checks the replies of a handshake that was just closed.
    pub fn check_handshake(&mut self, op: u64) -> Result<(), Wrong> {
        let replies = self.hands.replies(op)?;
        self.tally.handshakes = self.tally.handshakes.saturating_add(1);
        self.tally.replies = self.tally.replies.saturating_add(replies.len() as u64);
        self.check_replies_of(op, replies.as_slice())
    }

    fn check_replies_of(&self, op: u64, replies: &[(u64, u64)]) -> Result<(), Wrong> {
        let live = self.hands.shared.live(self.hands.rt)?;
        self.check_beside(op, live.as_slice(), replies)
    }

    // Checks the replies against the names that are live.
    fn check_beside(&self, op: u64, live: &[u64], replies: &[(u64, u64)]) -> Result<(), Wrong> {
        let Some(asked) = self.asked.of(op) else {
            return Err(Wrong::Answer(Step::Drive));
        };
        let Some(ask) = asked.ask else {
            return Err(Wrong::Answer(Step::Drive));
        };
        check_names(op, asked.targets.as_slice(), live, replies)?;
        check_replies(op, ask, &self.codes, replies)
    }
}
