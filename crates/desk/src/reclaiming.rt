//! Looks for codes, weighs them and begins to reclaim them.
ghost use Rattle.std.specs.Prelude.{◌≡◌, ℕ, ◌+◌, ◌<◌, ◌≤◌, ◌^◌, length, true, false, nat_le, Some, None, IfOk, IfErr, IfSome, IfNone, OnOk, OnErr, ◌≢◌};
ghost use Rattle.frames.specs.BoardViews.{went_round, looked_at, slot_of};
ghost use Rattle.frames.specs.BoardStep.{is_past};
ghost use Rattle.method_table.specs.declared.Code.{Code as CodeOf};
ghost use Rattle.method_table.specs.TableView.{retire_fault};
ghost use Rattle.method_table.specs.Codes.{unfreed, id_of};
ghost use Rattle.desk.specs.CodeBoard.{KeeperWeighs, stored};
ghost use Rattle.desk.specs.Machine.{steps_of};
ghost use Rattle.desk.specs.Refusals.{reclaim_refused, is_idle, MayAsk};
ghost use Rattle.desk.specs.Fields.{at, Enters, LooksAtAll};
ghost use Rattle.desk.specs.JobsFit.{jobs_fit};

use crate::desk::Desk;
use crate::entries::Entry;
use crate::faults::{NotReclaimed, ReclaimFault, Refused};
use crate::log::Receipt;
use crate::weighing::Weighing;
use board::{Board, Spent, Weighed};
use bodies::Name;
use method_table::table::RetireFault;
use operations::Request;
use operations::job::HandshakeOp;

impl<N: Name, J: HandshakeOp> Desk<N, J> {
    /// Does the first step of reclaiming a code: queues the request, if there is one, and begins the next moment
    /// (epoch). Returns the request's number and receipt.
    ///
    /// # Errors
    /// The first fault in the order of `ReclaimFault`, with the jobs.
    pub fn begin_reclaim(
        &mut self,
        board: &Board,
        serial: u64,
        request: Option<Request>,
        jobs: Vec<J>,
    ) -> Result<Option<(u64, Receipt<N>)>, NotReclaimed<J>>
        requires board { board.now ≡ N.board }

        ensures asked { IfOk result (λ r.
            IfSome r (λ a.
            IfSome request (λ asked. Enters self.old self.new (Entry.Ask a.0 asked) a.1))) }
        ensures allowed { OnOk result
            ((retire_fault (unfreed (at self.old).table.codes serial) ≡ None)
            × (is_idle (at self.old) ≡ true)
            × (nat_le (2 ^ 40) (self.old.keeper.moment + 1) ≡ false)) }
        ensures accepted { OnOk result
            (IfSome request (λ asked.
            MayAsk (at self.old) asked (jobs_fit J.whom J.asks asked jobs.items)
            self.old.book)) }
        ensures wanted { IfOk result (λ r. IfSome r (λ a. request ≢ None)) }
        ensures reserved { IfOk result (λ r.
            IfSome r (λ a.
            IfSome request (λ asked.
            self.new.book.reserved ≡ self.old.book.reserved + (2 + steps_of asked)))) }
        ensures quiet { IfOk result (λ r.
            IfNone r ((request ≡ None) × (self.new.book ≡ self.old.book))) }
        ensures sizes { OnOk result
            ((self.new.slots ≡ self.old.slots) × (self.new.methods ≡ self.old.methods)) }
        ensures round { OnOk result
            (self.new.keeper ≡ went_round self.old.keeper self.old.keeper.moment) }
        ensures jobs { self.new.jobs ≡ self.old.jobs }

        ensures err { IfErr result (λ e.
            (self.new ≡ self.old)
            × reclaim_refused (at self.old) serial request
            (λ asked. jobs_fit J.whom J.asks asked jobs.items) self.old.book
            self.old.keeper.moment e.fault) }
        ensures handed_back { IfErr result (λ e. e.jobs ≡ jobs) }
    {
        if let Some(fault) = self.weigh_fault(serial) {
            return Err(NotReclaimed {
                fault: ReclaimFault::Code(fault),
                jobs,
            });
        }
        if !self.is_idle() {
            return Err(NotReclaimed {
                fault: ReclaimFault::AlreadyOpen,
                jobs,
            });
        }
        if self.is_last_moment() {
            return Err(NotReclaimed {
                fault: ReclaimFault::Spent,
                jobs,
            });
        }
        let asked = match request {
            None => None,
            Some(request) => match self.submit(request, jobs) {
                Ok(asked) => Some(asked),
                Err(back) => {
                    let Refused { fault, jobs } = back;
                    return Err(NotReclaimed {
                        fault: ReclaimFault::Ask(fault),
                        jobs,
                    });
                }
            },
        };
        match self.round(board) {
            Ok(()) => Ok(asked),
            Err(_) => unreachable!(),
        }
    }

    /// Begins the next moment (epoch). Refused at the last one.
    pub fn round(&mut self, board: &Board) -> Result<(), Spent>
        requires board { board.now ≡ N.board }

        ensures ok { OnOk result
            (self.new.keeper ≡ went_round self.old.keeper self.old.keeper.moment) }
        ensures accepted { OnOk result (nat_le (2 ^ 40) (self.old.keeper.moment + 1) ≡ false) }
        ensures spent { OnErr result
            ((self.new ≡ self.old) × (2 ^ 40 ≤ self.old.keeper.moment + 1)) }
        ensures jobs { self.new.jobs ≡ self.old.jobs }
        ensures book { (self.new.book ≡ self.old.book)
            × (self.new.slots ≡ self.old.slots)
            × (self.new.methods ≡ self.old.methods) }
    {
        self.codes.round(board)
    }

    /// Looks at a place for a code that is not entrant. Returns whether the place is covered: it can't have an
    /// uncounted frame of the code any more. Refusals in the order of `RetireFault`.
    pub fn look(&mut self, board: &Board, serial: u64, place: usize) -> Result<bool, RetireFault>
        requires board { board.now ≡ N.board }
        requires place { place < N.board.places }

        ensures step { IfOk result (λ past.
            (code : CodeOf)
            × (unfreed (at self.old).table.codes serial ≡ Some code)
            × (found : ℕ)
            × (self.new.keeper ≡ looked_at self.old.keeper (id_of code) place found)
            × (past ≡ is_past (slot_of self.old.keeper code.slot).left found)) }
        ensures book { (self.new.book ≡ self.old.book)
            × (self.new.slots ≡ self.old.slots)
            × (self.new.methods ≡ self.old.methods) }
        ensures jobs { self.new.jobs ≡ self.old.jobs }
        ensures accepted { OnOk result
            (retire_fault (unfreed (at self.old).table.codes serial) ≡ None) }
        ensures err { IfErr result (λ e.
            (self.new ≡ self.old)
            × (retire_fault (unfreed (at self.old).table.codes serial) ≡ Some e)) }
    {
        self.codes.look(board, serial, place)
    }

    /// Looks for the code at each place below `places`, in ascending order. Refusals in the order of `RetireFault`.
    #[inline(always)]
    pub fn look_at_all(
        &mut self,
        board: &Board,
        serial: u64,
        places: usize,
    ) -> Result<(), RetireFault>
        requires board { board.now ≡ N.board }
        requires places { places ≤ N.board.places }
        ensures looks { OnOk result (LooksAtAll serial places self.old self.new) }
        ensures accepted { OnOk result
            (retire_fault (unfreed (at self.old).table.codes serial) ≡ None) }
        ensures err { IfErr result (λ e.
            (self.new ≡ self.old)
            × (retire_fault (unfreed (at self.old).table.codes serial) ≡ Some e)) }
    {
        self.codes.look_at_all(board, serial, places)
    }

    /// Weighs a code. If it has no activation left, it becomes a zombie, in the history and in the board. Returns the
    /// result, the receipt of the weighing and, for a zombie, that of its Retire. Refusals in the order of
    /// `RetireFault`.
    pub fn weigh(
        &mut self,
        board: &Board,
        serial: u64,
    ) -> Result<(Weighed, Weighing<N>, Option<Receipt<N>>), RetireFault>
        requires board { board.now ≡ N.board }

        ensures weighing { IfOk result (λ r.
            r.1 ≡ record { serial = serial; said = r.0; length = length self.old.book.history }) }
        ensures retired { IfOk result (λ r.
            IfSome r.2 (λ receipt. Enters self.old self.new (Entry.Retire serial) receipt)) }
        ensures weighed { IfOk result (λ r.
            (code : CodeOf)
            × (unfreed (at self.old).table.codes serial ≡ Some code)
            × KeeperWeighs N.board.places (id_of code) self.old.keeper self.new.keeper r.0) }
        ensures clear { IfOk result (λ r. IfSome r.2 (λ _. r.0 ≡ Weighed.Clear)) }
        ensures reserved { IfOk result (λ r.
            IfSome r.2 (λ _. self.new.book.reserved + 1 ≡ self.old.book.reserved)) }
        ensures others { IfOk result (λ r.
            IfNone r.2
            ((self.new.book ≡ self.old.book)
            × (self.new.slots ≡ self.old.slots)
            × (self.new.methods ≡ self.old.methods)
            × (r.0 ≢ Weighed.Clear))) }
        ensures jobs { self.new.jobs ≡ self.old.jobs }
        ensures accepted { OnOk result
            (retire_fault (unfreed (at self.old).table.codes serial) ≡ None) }

        ensures err { IfErr result (λ e.
            (self.new ≡ self.old)
            × (retire_fault (unfreed (at self.old).table.codes serial) ≡ Some e)) }
    {
        let said = self.codes.weigh(board, serial)?;
        let weighing = Weighing::of(serial, &said, self.log.length());
        let Weighed::Clear = said else {
            return Ok((said, weighing, None));
        };
        Ok((said, weighing, Some(self.log.enter(Entry::Retire(serial)))))
    }

    /// Returns why `weigh` refuses the code; None if it doesn't.
    pub fn weigh_fault(&self, serial: u64) -> Option<RetireFault>
        ensures { result ≡ retire_fault (unfreed (at self.now).table.codes serial) }
    {
        self.codes.weigh_fault(serial)
    }
}
