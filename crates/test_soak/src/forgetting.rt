//! The main thread compares what the threads saw at their stops with the replies, and forgets closed operations.
use crate::driver::Driver;
use crate::making::Makes;
use crate::plan::Kind;
use crate::tally::Seen;
use crate::verdict::check_reply;
use crate::wrong::Wrong;
use bodies::Name;
use operations::job::HandshakeOp;
use std::sync::Wait;

// One in this many chances to forget closed operations is taken.
const TIMES: u64 = 6;

impl<'c, 'x, 'a, N: Name, J: HandshakeOp, R: Wait, M: Makes<J>> Driver<'c, 'x, 'a, N, J, R, M> {
    /// Checks that each thread that stopped for an operation before this one has a reply of it that fits the stack it had there. The
    /// operations before this one are closed.
    pub fn check_stops(&mut self, op: u64) -> Result<(), Wrong> {
        for stop in self.signals.take_stops(self.hands.rt, self.hands.alloc) {
            self.check_stop(op, stop)?;
        }
        Ok(())
    }

    fn check_stop(&self, op: u64, stop: Seen) -> Result<(), Wrong> {
        if stop.op < op {
            return check_reply(self.hands.rt, self.hands.shared, &self.asked, &stop);
        }
        self.signals.note_stop(self.hands.rt, stop)?;
        Ok(())
    }

    /// Forgets the operations before this one now and then, if the run forgets. All of them are closed.
    pub fn may_forget(&mut self, op: u64) -> Result<(), Wrong> {
        if self.plan.kind != Kind::Forgotten || !self.choices.one_in(TIMES) {
            return Ok(());
        }
        self.check_stops(op)?;
        self.hands.shared.forget(self.hands.rt);
        self.asked.forget_before(op);
        self.tally.forgets = self.tally.forgets.saturating_add(1);
        self.check_forgotten(op)
    }

    // Checks that the replies before this operation are forgotten, and that its own and all later ones are kept.
    fn check_forgotten(&self, op: u64) -> Result<(), Wrong> {
        let before = op.saturating_sub(1);
        if before != 0 && self.are_kept(before)? {
            return Err(Wrong::Kept(before));
        }
        for later in op..self.asked.next().saturating_add(1) {
            if !self.are_kept(later)? {
                return Err(Wrong::Forgotten(later));
            }
        }
        Ok(())
    }

    fn are_kept(&self, op: u64) -> Result<bool, Wrong> {
        Ok(self.hands.shared.kept_replies(self.hands.rt, op)?.is_some())
    }
}
