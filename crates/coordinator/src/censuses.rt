//! Operates a census: counts the frames of each code on the published stacks of all live threads, which are held.
ghost use Rattle.std.specs.Prelude.{◌≡◌, true, IfOk, IfErr, OnOk};
ghost use Rattle.bodies.specs.Bodies.{IsPublished};
ghost use Rattle.bodies.specs.Census.{IsCensus};
ghost use Rattle.desk.specs.declared.entries.Entry.{Entry};
ghost use Rattle.desk.specs.Machine.{State as DeskState};
ghost use Rattle.desk.specs.Refusals.{MayOperate};
ghost use Rattle.stopped_threads.specs.Held.{AreEach};
ghost use Rattle.thread_list.specs.Moves.{IsOperated};
ghost use Rattle.stopped_threads.specs.Refused.{census_refused};

use crate::coordinator::Coordinator;
use bodies::Name;
use desk::Operating;
use operations::job::HandshakeOp;
use std::sync::Wait;
use stopped_threads::{OperateFault, operate_over};

impl<'a, N: Name, J: HandshakeOp> Coordinator<'a, N, J> {
    /// Operates the open census over the held threads, which must be all live threads: publishes each stack, counts the
    /// frames of each code, and clears the operation for each thread. Returns the operation's number; a pair of serial
    /// and frames for each code with frames, in ascending order of serials; and the receipt of the Operate, which shows
    /// these counts.
    ///
    /// # Errors
    /// A refusal of the desk, then `NoMemory`.
    pub fn operate<R: Wait>(
        &mut self,
        rt: &R,
    ) -> Result<(u64, Vec<(u64, u32)>, Operating<N>), OperateFault>
        ensures operated { IfOk result (λ r. r.2.stands.entry ≡ Entry.Operate r.0) }
        ensures shown { IfOk result (λ r. r.2.list ≡ r.1.items) }
        ensures all { OnOk result ((s : DeskState) × MayOperate s self.old.held) }
        ensures counted { IfOk result (λ r. IsCensus self.new.held r.1.items) }
        ensures before { IfOk result (λ r. IsCensus self.old.held r.1.items) }
        ensures held { IfOk result (λ r. AreEach (IsOperated r.0) self.old.held self.new.held) }
        ensures others { OnOk result ((self.new.armer ≡ self.old.armer)
            × (self.new.operated ≡ true)) }

        ensures refused { IfErr result (λ e. (s : DeskState) × census_refused s self.old.held e
            × (self.new ≡ self.old)) }
    {
        let (number, list, receipt) = self.enter_operated(rt)?;
        self.operated = true;
        self.bodies.clear_all(self.shared.row(), number);
        Ok((number, list, receipt))
    }

    fn enter_operated<R: Wait>(
        &mut self,
        rt: &R,
    ) -> Result<(u64, Vec<(u64, u32)>, Operating<N>), OperateFault>
        ensures operated { IfOk result (λ r. r.2.stands.entry ≡ Entry.Operate r.0) }
        ensures shown { IfOk result (λ r. r.2.list ≡ r.1.items) }
        ensures all { OnOk result ((s : DeskState) × MayOperate s self.old.held) }
        ensures counted { IfOk result (λ r. IsCensus self.new.held r.1.items) }
        ensures published { OnOk result (AreEach IsPublished self.old.held self.new.held) }
        ensures others { (self.new.armer ≡ self.old.armer)
            × (self.new.operated ≡ self.old.operated) }

        ensures refused { IfErr result (λ e. (s : DeskState) × census_refused s self.old.held e
            × (self.new.held ≡ self.old.held)) }
    {
        let mut desk = self.shared.desk().lock(rt);
        let board = self.shared.board();
        let operated = match operate_over(&mut desk, &mut self.bodies, board, self.alloc) {
            Ok(operated) => operated,
            Err(fault) => return Err(fault),
        };
        Ok(operated)
    }
}
