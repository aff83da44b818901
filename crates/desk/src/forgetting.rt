//! Reads replies, and forgets old entries and replies.
ghost use Rattle.std.specs.Prelude.{◌≡◌, ℕ, ◌+◌, ◌<◌, ◌≤◌, length, true, Some, None, IfOk, IfSome, IfNone};
ghost use Rattle.desk.specs.Fields.{at};
ghost use Rattle.desk.specs.Once.{replies_of};
ghost use Rattle.desk.specs.Replies.{replies_kept};
ghost use Rattle.desk.specs.Pending.{least_pending, is_pending};

use crate::desk::Desk;
use bodies::Name;
use operations::job::HandshakeOp;
use std::alloc::AllocError;

impl<N: Name, J: HandshakeOp> Desk<N, J> {
    /// Returns the replies to an operation, each with its thread's name, in the order of the Finish entries; an empty
    /// list if the replies were forgotten. Refused only if memory is refused.
    pub fn replies(&self, op: u64) -> Result<Vec<(u64, u64)>, AllocError>
        ensures { IfOk result (λ list. list.items ≡ replies_kept op self.now.book) }
    {
        self.log.replies(self.alloc, op)
    }

    /// Returns the replies to an operation, each with its thread's name; None if they were forgotten. Refused only if
    /// memory is refused.
    pub fn kept_replies(&self, op: u64) -> Result<Option<Vec<(u64, u64)>>, AllocError>
        ensures some { IfOk result (λ r.
            IfSome r (λ list. list.items ≡ replies_of op self.now.book.history)) }
        ensures none { IfOk result (λ r. IfNone r (op ≤ self.now.book.gone.operations)) }
        ensures kept { IfOk result (λ r. IfSome r (λ _. self.now.book.gone.operations < op)) }
    {
        if op <= self.log.forgotten() {
            return Ok(None);
        }
        let list = self.log.replies(self.alloc, op)?;
        Ok(Some(list))
    }

    /// Forgets all entries so far, and the replies to each operation before the first that is open or waits. The memory
    /// of these replies is reused, and forgotten entries don't count towards `HistoryFull`. Contracts still see the
    /// whole history.
    pub fn forget(&mut self)
        ensures history { (self.new.book.history ≡ self.old.book.history)
            × (self.new.book.reserved ≡ self.old.book.reserved) }
        ensures entries { self.new.book.gone.entries ≡ length self.old.book.history }
        ensures operations { self.new.book.gone.operations + 1 ≡ least_pending (at self.old) }
        ensures same { (self.new.slots ≡ self.old.slots)
            × (self.new.methods ≡ self.old.methods)
            × (self.new.keeper ≡ self.old.keeper)
            × (self.new.jobs ≡ self.old.jobs) }
    {
        let least = self.least_pending();
        self.log.forget(least.saturating_sub(1));
    }

    /// Law: the replies to a request that is open or waits haven't been forgotten.
    pub fn pending_are_kept(&self)
        ensures { (n : ℕ) → is_pending n (at self.now) ≡ true → self.now.book.gone.operations < n }
    {
        // This use makes the invariant known to the proof.
        let _ = &self.log;
    }
}
