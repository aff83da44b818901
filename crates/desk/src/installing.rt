//! Installs, invalidates and frees codes.
ghost use Rattle.std.specs.Prelude.{◌≡◌, ◌+◌, ◌<◌, Some, IfOk, IfErr, OnOk, option_map};
ghost use Rattle.frames.specs.BoardViews.{slot_of, entry_stored, not_entrant, in_state};
ghost use Rattle.frames.specs.declared.board_rule.EntryState.TheVariants.{Vacant};
ghost use Rattle.method_table.specs.declared.Code.{Code as CodeOf};
ghost use Rattle.method_table.specs.TableView.{invalidate_fault, free_fault};
ghost use Rattle.method_table.specs.Codes.{unfreed, id_of, in_use_for};
ghost use Rattle.desk.specs.CodeBoard.{stored};
ghost use Rattle.desk.specs.Refusals.{install_refused, MayInstall};
ghost use Rattle.desk.specs.Fields.{at, Enters, EntersInstall, kept_before};

use crate::desk::Desk;
use crate::entries::Entry;
use crate::faults::CodeFault;
use crate::log::Receipt;
use board::Board;
use bodies::Name;
use method_table::table::{FreeFault, Installed, InvalidateFault};
use operations::job::HandshakeOp;

impl<N: Name, J: HandshakeOp> Desk<N, J> {
    /// Installs a code for the method, in the history and in the board, and returns it with the receipt of the Install.
    /// If it replaces a code in use, the Invalidate of that code is entered and stored first, in room that was reserved
    /// when that code was installed. Refusals in the order of `CodeFault`.
    pub fn install(
        &mut self,
        board: &Board,
        method: u64,
    ) -> Result<(Installed, Receipt<N>), CodeFault>
        requires board { board.now ≡ N.board }

        ensures ok { IfOk result (λ r.
            EntersInstall self.old self.new r.0.replaced r.0.code method r.1) }
        ensures replaced { IfOk result (λ r.
            r.0.replaced ≡ option_map id_of (in_use_for (at self.old).table.codes method)) }
        ensures slot { IfOk result (λ r. r.0.code.slot < N.board.slots) }
        ensures stored { IfOk result (λ r.
            self.new.keeper ≡ stored r.0.replaced self.old.keeper r.0.code) }
        ensures reserved { IfOk result (λ r.
            self.new.book.reserved + kept_before r.0.replaced ≡ self.old.book.reserved + 3) }
        ensures jobs { self.new.jobs ≡ self.old.jobs }
        ensures accepted { OnOk result (MayInstall (at self.old) method self.old.book) }

        ensures err { IfErr result (λ e.
            (self.new ≡ self.old) × install_refused (at self.old) method self.old.book e) }
    {
        if let Some(fault) = self.codes.refusal(method) {
            return Err(CodeFault::Install(fault));
        }
        if !self.log.keep(4) {
            return Err(CodeFault::HistoryFull);
        }
        match self.codes.install(board, method) {
            Ok(installed) => Ok((installed, self.log.enter_install(installed, method))),
            Err(_) => {
                self.log.give_back(4);
                Err(CodeFault::NoMemory)
            }
        }
    }

    /// Makes a code not entrant, in the history and in the board. Refusals in the order of `InvalidateFault`.
    pub fn invalidate(&mut self, board: &Board, serial: u64) -> Result<Receipt<N>, InvalidateFault>
        requires board { board.now ≡ N.board }

        ensures ok { IfOk result (λ r. Enters self.old self.new (Entry.Invalidate serial) r) }
        ensures stored { OnOk result
            ((code : CodeOf)
            × (unfreed (at self.old).table.codes serial ≡ Some code)
            × (self.new.keeper ≡ entry_stored self.old.keeper (id_of code)
            (not_entrant (id_of code) self.old.keeper.moment))) }
        ensures reserved { OnOk result (self.new.book.reserved + 1 ≡ self.old.book.reserved) }
        ensures jobs { self.new.jobs ≡ self.old.jobs }
        ensures err { IfErr result (λ e.
            (self.new ≡ self.old)
            × (invalidate_fault (unfreed (at self.old).table.codes serial) ≡ Some e)) }
    {
        self.codes.invalidate(board, serial)?;
        Ok(self.log.enter(Entry::Invalidate(serial)))
    }

    /// Frees the slot of a zombie, in the history and in the board. Refusals in the order of `FreeFault`.
    pub fn free(&mut self, board: &Board, serial: u64) -> Result<Receipt<N>, FreeFault>
        requires board { board.now ≡ N.board }

        ensures ok { IfOk result (λ r. Enters self.old self.new (Entry.Free serial) r) }
        ensures stored { OnOk result
            ((code : CodeOf)
            × (unfreed (at self.old).table.codes serial ≡ Some code)
            × (self.new.keeper ≡ entry_stored self.old.keeper (id_of code)
            (in_state (slot_of self.old.keeper code.slot) Vacant))) }
        ensures reserved { OnOk result (self.new.book.reserved + 1 ≡ self.old.book.reserved) }
        ensures jobs { self.new.jobs ≡ self.old.jobs }
        ensures err { IfErr result (λ e.
            (self.new ≡ self.old)
            × (free_fault (unfreed (at self.old).table.codes serial) ≡ Some e)) }
    {
        self.codes.free(board, serial)?;
        Ok(self.log.enter(Entry::Free(serial)))
    }
}
