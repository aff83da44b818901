//! Operates a census: counts the frames of each code on the published stacks of all live threads, which are held.
ghost use Rattle.std.specs.Prelude.{◌≡◌, true, IfOk, IfErr, OnOk};
ghost use Rattle.bodies.specs.Census.{IsCensus};
ghost use Rattle.desk.specs.declared.entries.Entry.{Entry};
ghost use Rattle.desk.specs.Fields.{Enters, at};
ghost use Rattle.desk.specs.Refusals.{MayOperate};
ghost use Rattle.thread_list.specs.Moves.{IsOperated};
ghost use Rattle.stopped_threads.specs.Held.{AreEach};
ghost use Rattle.stopped_threads.specs.Refused.{census_refused};

use crate::coordinator::CoordinatorCore;
use board::Board;
use bodies::Name;
use desk::{Desk, Operating};
use operations::job::HandshakeOp;
use poll::PollRow;
use std::alloc::Global;
use stopped_threads::{OperateFault, operate_over};

impl<N: Name> CoordinatorCore<N> {
    /// Operates the open census over the held threads, which must be all live threads: publishes each stack, counts the
    /// frames of each code, and clears the operation for each thread. Returns the operation's number; a pair of serial
    /// and frames for each code with frames, in ascending order of serials; and the receipt of the Operate, which shows
    /// these counts.
    ///
    /// # Errors
    /// A refusal of the desk, then `NoMemory`.
    pub fn operate<J: HandshakeOp>(
        &mut self,
        desk: &mut Desk<N, J>,
        board: &Board,
        row: &PollRow,
        alloc: Global,
    ) -> Result<(u64, Vec<(u64, u32)>, Operating<N>), OperateFault>
        requires board { board.now ≡ N.board }
        requires row { row.now ≡ N.poll_row }

        ensures operated { IfOk result
            (λ r. Enters desk.old desk.new (Entry.Operate r.0) r.2.stands) }
        ensures shown { IfOk result (λ r. r.2.list ≡ r.1.items) }
        ensures all { OnOk result (MayOperate (at desk.old) self.old.held) }
        ensures counted { IfOk result (λ r. IsCensus self.new.held r.1.items) }
        ensures held { IfOk result (λ r. AreEach (IsOperated r.0) self.old.held self.new.held) }
        ensures others { OnOk result ((self.new.armer ≡ self.old.armer)
            × (self.new.operated ≡ true)) }

        ensures refused { IfErr result
            (λ e. census_refused (at desk.old) self.old.held e × (self.new ≡ self.old)
            × (desk.new ≡ desk.old)) }
    {
        match operate_over(desk, &mut self.bodies, board, alloc) {
            Ok((number, list, receipt)) => {
                self.operated = true;
                self.bodies.clear_all(row, number);
                Ok((number, list, receipt))
            }
            Err(fault) => Err(fault),
        }
    }
}
