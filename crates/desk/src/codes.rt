//! The method table and the keeper's view of the board, which agree.
ghost use Rattle.std.specs.Prelude.{◌≡◌, ◌≢◌, ℕ, ◌+◌, ◌<◌, ◌≤◌, ◌^◌, [], true, false, length, Some, None, IfOk, OnOk, OnErr, IfErr, IfSome, IfNone, option_map, nat_le};
ghost use Rattle.frames.specs.BoardViews.{slot_of, IsIn, entry_stored, not_entrant, in_state, looked_at, went_round, keeper_view};
ghost use Rattle.frames.specs.BoardStep.{is_past};
ghost use Rattle.frames.specs.declared.board_rule.EntryState.TheVariants.{InUse, NotEntrant as IsNotEntrant, Vacant, Zombie};
ghost use Rattle.board.specs.Boards.{first_keeper};
ghost use Rattle.method_table.specs.declared.Code.{Code as CodeOf};
ghost use Rattle.method_table.specs.declared.CodeState.TheVariants.{NotEntrant, Freed};
ghost use Rattle.method_table.specs.Codes.{id_of, unfreed, in_use_for, with_code, with_state, without_use, next_serial, free_slot};
ghost use Rattle.method_table.specs.TableView.{IsTable, install_fault, reason, invalidate_fault, retire_fault, free_fault};
ghost use Rattle.desk.specs.CodeBoard.{AreEntries, CodesSeen, IsCodeOf, LooksBelow, Weighs, with_codes, stored};

use board::{Board, Keeper, Spent, Weighed};
use bodies::Name;
use frames::CodeId;
use method_table::table::{
    FreeFault, InstallFault, Installed, InvalidateFault, MethodTable, RetireFault,
};
use method_table::{Code, CodeState};
use std::marker::{Model, PhantomData};

/// The codes, and the keeper of the board of N.
#[derive(Drop)]
pub struct Codes<N: Name> {
    table: MethodTable,
    keeper: Keeper,
    of: PhantomData<N>,
}

impl<N: Name> Model for Codes<N> {
    ghost use Rattle.std.specs.Prelude.{◌≡◌};
    ghost use Rattle.desk.specs.CodeBoard.{CodesSeen, AreEntries};

    ghost Value = { CodesSeen };

    ghost view = { λ c. record { table = c.table; keeper = c.keeper.seen } };

    ghost invariant = { λ c. (c.keeper.board ≡ N.board)
        × (N.board.slots ≡ c.table.slots)
        × AreEntries c.table c.keeper.seen };
}

fn id_of(code: Code) -> CodeId
    ensures { result ≡ id_of code }
{
    CodeId {
        slot: code.slot,
        serial: code.serial,
    }
}

// The code with this serial, if it is not entrant.
fn find_not_entrant(table: &MethodTable, serial: u64) -> Result<Code, RetireFault>
    ensures sound { IsTable table.now }
    ensures code { IfOk result (λ code. unfreed table.now.codes serial ≡ Some code) }
    ensures state { IfOk result (λ code. code.state ≡ NotEntrant) }
    ensures accepted { OnOk result (retire_fault (unfreed table.now.codes serial) ≡ None) }
    ensures refused { IfErr result (λ fault.
        retire_fault (unfreed table.now.codes serial) ≡ Some fault) }
{
    let Some(code) = table.find(serial) else {
        return Err(RetireFault::Unknown);
    };
    match code.state {
        CodeState::NotEntrant => Ok(code),
        CodeState::InUse | CodeState::Zombie | CodeState::Freed => Err(RetireFault::NotNotEntrant),
    }
}

// Stores in the board that the replaced code, if any, is not entrant, and then that the new code is in use in its
// vacant slot.
fn store_new(keeper: &mut Keeper, board: &Board, installed: Installed)
    requires board { keeper.old.board ≡ board.now }
    requires old { IfSome installed.replaced (λ old.
        (old.slot < keeper.old.board.slots) × IsIn keeper.old.seen old InUse) }
    requires slot { installed.code.slot < keeper.old.board.slots }
    requires vacant { (slot_of keeper.old.seen installed.code.slot).state ≡ Vacant }
    requires later { (slot_of keeper.old.seen installed.code.slot).serial < installed.code.serial }
    requires small { installed.code.serial < 2 ^ 40 }

    ensures board { keeper.new.board ≡ keeper.old.board }
    ensures entry { keeper.new.seen ≡ stored installed.replaced keeper.old.seen installed.code }
{
    match installed.replaced {
        Some(old) => keeper.replace(board, old, installed.code),
        None => keeper.install(board, installed.code),
    }
}

// Stores in the board that a zombie's slot is vacant.
fn store_vacant(keeper: &mut Keeper, board: &Board, id: CodeId)
    requires board { keeper.old.board ≡ board.now }
    requires slot { id.slot < keeper.old.board.slots }
    requires code { IsIn keeper.old.seen id Zombie }
    ensures board { keeper.new.board ≡ keeper.old.board }
    ensures entry { keeper.new.seen
        ≡ entry_stored keeper.old.seen id (in_state (slot_of keeper.old.seen id.slot) Vacant) }
{
    keeper.free(board, id);
}

// Looks for the code, which is not entrant, at each place below `places`, in ascending order.
#[inline(always)]
fn look_below(keeper: &mut Keeper, board: &Board, id: CodeId, places: usize)
    requires board { keeper.old.board ≡ board.now }
    requires bounds { (id.slot < keeper.old.board.slots) × (places ≤ keeper.old.board.places) }
    requires code { IsIn keeper.old.seen id IsNotEntrant }
    ensures board { keeper.new.board ≡ keeper.old.board }
    ensures looks { LooksBelow id places keeper.old.seen keeper.new.seen }
{
    for place in 0..places {
        let _past = keeper.look(board, id, place);
    }
}

impl<N: Name> Codes<N> {
    pub fn new(table: MethodTable, keeper: Keeper, board: &Board) -> Codes<N>
        requires board { board.now ≡ N.board }
        requires keeper { keeper ≡ first_keeper board.now }
        requires table { (table.codes ≡ []) × (table.slots ≡ N.board.slots) }
        ensures { (result.table ≡ table) × (result.keeper ≡ keeper.seen) }
    {
        Codes {
            table,
            keeper,
            of: PhantomData,
        }
    }

    /// Returns why `install` refuses the method, except for lack of memory.
    pub fn refusal(&self, method: u64) -> Option<InstallFault>
        ensures { result ≡ install_fault self.now.table method }
    {
        self.table.refusal(method)
    }

    /// Adds a new code for the method to the table and stores its entry in the board. If another code is in use for the
    /// method, that code becomes not entrant first, in the table and in the board. Refusals in the order of
    /// `InstallFault`.
    pub fn install(&mut self, board: &Board, method: u64) -> Result<Installed, InstallFault>
        requires board { board.now ≡ N.board }

        ensures sound { OnOk result (IsTable self.old.table) }
        ensures slot { IfOk result (λ r.
            free_slot self.old.table.codes self.old.table.slots ≡ Some r.code.slot) }
        ensures bound { IfOk result (λ r. r.code.slot < N.board.slots) }
        ensures serial { IfOk result (λ r. r.code.serial ≡ next_serial self.old.table.codes) }
        ensures replaced { IfOk result (λ r.
            r.replaced ≡ option_map id_of (in_use_for self.old.table.codes method)) }
        ensures codes { IfOk result (λ r.
            self.new.table ≡ with_codes self.old.table
            (with_code
            (without_use self.old.table.codes (in_use_for self.old.table.codes method))
            method r.code.slot)) }
        ensures entry { IfOk result (λ r.
            self.new.keeper ≡ stored r.replaced self.old.keeper r.code) }
        ensures accepted { OnOk result (install_fault self.old.table method ≡ None) }

        ensures refused { IfErr result (λ fault.
            install_fault self.old.table method ≡ reason fault) }
        ensures unchanged { OnErr result (self.new ≡ self.old) }
    {
        let _slots = self.table.slots();
        let installed = self.table.install(method)?;
        store_new(&mut self.keeper, board, installed);
        Ok(installed)
    }

    /// Makes the code not entrant, in the table and in the board. Refusals in the order of `InvalidateFault`.
    pub fn invalidate(&mut self, board: &Board, serial: u64) -> Result<CodeId, InvalidateFault>
        requires board { board.now ≡ N.board }

        ensures sound { OnOk result (IsTable self.old.table) }
        ensures code { IfOk result (λ id.
            (code : CodeOf) × IsCodeOf self.old serial code × (id ≡ id_of code)) }
        ensures codes { OnOk result
            (self.new.table
            ≡ with_codes self.old.table (with_state self.old.table.codes serial NotEntrant)) }
        ensures entry { IfOk result (λ id.
            self.new.keeper
            ≡ entry_stored self.old.keeper id (not_entrant id self.old.keeper.moment)) }
        ensures accepted { OnOk result
            (invalidate_fault (unfreed self.old.table.codes serial) ≡ None) }

        ensures refused { IfErr result (λ fault.
            invalidate_fault (unfreed self.old.table.codes serial) ≡ Some fault) }
        ensures unchanged { OnErr result (self.new ≡ self.old) }
    {
        let Some(code) = self.table.find(serial) else {
            return Err(InvalidateFault::Unknown);
        };
        self.table.invalidate(serial)?;
        let id = id_of(code);
        self.keeper.invalidate(board, id);
        Ok(id)
    }

    /// Begins the next moment (epoch). Refused at the last one.
    pub fn round(&mut self, board: &Board) -> Result<(), Spent>
        requires board { board.now ≡ N.board }
        ensures ok { OnOk result
            (self.new.keeper ≡ went_round self.old.keeper self.old.keeper.moment) }
        ensures accepted { OnOk result (nat_le (2 ^ 40) (self.old.keeper.moment + 1) ≡ false) }
        ensures spent { OnErr result
            ((self.new.keeper ≡ self.old.keeper) × (2 ^ 40 ≤ self.old.keeper.moment + 1)) }
        ensures table { self.new.table ≡ self.old.table }
    {
        if self.keeper.is_last_moment() {
            return Err(Spent);
        }
        self.keeper.round(board)
    }

    /// Looks at a place for a code that is not entrant. Returns whether the place is covered: it can't have an
    /// uncounted frame of the code any more. Refusals in the order of `RetireFault`.
    pub fn look(&mut self, board: &Board, serial: u64, place: usize) -> Result<bool, RetireFault>
        requires board { board.now ≡ N.board }
        requires place { place < N.board.places }

        ensures step { IfOk result (λ past.
            (code : CodeOf)
            × IsCodeOf self.old serial code
            × (found : ℕ)
            × (self.new.keeper ≡ looked_at self.old.keeper (id_of code) place found)
            × (past ≡ is_past (slot_of self.old.keeper code.slot).left found)) }
        ensures table { self.new.table ≡ self.old.table }
        ensures accepted { OnOk result (retire_fault (unfreed self.old.table.codes serial) ≡ None) }
        ensures refused { IfErr result (λ fault.
            retire_fault (unfreed self.old.table.codes serial) ≡ Some fault) }
        ensures unchanged { OnErr result (self.new ≡ self.old) }
    {
        let code = find_not_entrant(&self.table, serial)?;
        Ok(self.keeper.look(board, id_of(code), place))
    }

    /// Looks for the code at each place below `places`, in ascending order. Refusals in the order of `RetireFault`.
    #[inline(always)]
    pub fn look_at_all(
        &mut self,
        board: &Board,
        serial: u64,
        places: usize,
    ) -> Result<(), RetireFault>
        requires board { board.now ≡ N.board }
        requires places { places ≤ N.board.places }

        ensures looks { OnOk result
            ((code : CodeOf)
            × IsCodeOf self.old serial code
            × LooksBelow (id_of code) places self.old.keeper self.new.keeper) }
        ensures table { self.new.table ≡ self.old.table }
        ensures accepted { OnOk result (retire_fault (unfreed self.old.table.codes serial) ≡ None) }
        ensures refused { IfErr result (λ fault.
            retire_fault (unfreed self.old.table.codes serial) ≡ Some fault) }
        ensures unchanged { OnErr result (self.new ≡ self.old) }
    {
        let code = find_not_entrant(&self.table, serial)?;
        look_below(&mut self.keeper, board, id_of(code), places);
        Ok(())
    }

    /// Weighs the code. If it has no activation left, it becomes a zombie, in the table and in the board. Refusals in
    /// the order of `RetireFault`.
    pub fn weigh(&mut self, board: &Board, serial: u64) -> Result<Weighed, RetireFault>
        requires board { board.now ≡ N.board }

        ensures sound { OnOk result (IsTable self.old.table) }
        ensures step { IfOk result (λ said.
            (code : CodeOf)
            × IsCodeOf self.old serial code
            × Weighs N.board.places serial (id_of code) self.old self.new said) }
        ensures accepted { OnOk result (retire_fault (unfreed self.old.table.codes serial) ≡ None) }
        ensures refused { IfErr result (λ fault.
            retire_fault (unfreed self.old.table.codes serial) ≡ Some fault) }
        ensures unchanged { OnErr result (self.new ≡ self.old) }
    {
        let code = find_not_entrant(&self.table, serial)?;
        let id = id_of(code);
        let said = self.keeper.weigh(board, id);
        if let Weighed::Clear = said {
            self.table.retire(serial)?;
            self.keeper.retire(board, id);
        }
        Ok(said)
    }

    /// Frees the slot of a zombie, in the table and in the board. Refusals in the order of `FreeFault`.
    pub fn free(&mut self, board: &Board, serial: u64) -> Result<CodeId, FreeFault>
        requires board { board.now ≡ N.board }

        ensures sound { OnOk result (IsTable self.old.table) }
        ensures code { IfOk result (λ id.
            (code : CodeOf) × IsCodeOf self.old serial code × (id ≡ id_of code)) }
        ensures codes { OnOk result
            (self.new.table
            ≡ with_codes self.old.table (with_state self.old.table.codes serial Freed)) }
        ensures entry { IfOk result (λ id.
            self.new.keeper ≡ entry_stored self.old.keeper id
            (in_state (slot_of self.old.keeper id.slot) Vacant)) }
        ensures accepted { OnOk result (free_fault (unfreed self.old.table.codes serial) ≡ None) }

        ensures refused { IfErr result (λ fault.
            free_fault (unfreed self.old.table.codes serial) ≡ Some fault) }
        ensures unchanged { OnErr result (self.new ≡ self.old) }
    {
        let Some(code) = self.table.find(serial) else {
            return Err(FreeFault::Unknown);
        };
        self.table.free(serial)?;
        let id = id_of(code);
        store_vacant(&mut self.keeper, board, id);
        Ok(id)
    }

    /// Law: the method table and the keeper's view agree.
    pub fn are_entries(&self)
        ensures { AreEntries self.now.table self.now.keeper }
    {
        // This use makes the invariant known to the proof.
        let _ = &self.keeper;
    }

    /// Returns whether the current moment (epoch) is the last one.
    pub fn is_last_moment(&self) -> bool
        ensures { result ≡ nat_le (2 ^ 40) (self.now.keeper.moment + 1) }
    {
        self.keeper.is_last_moment()
    }

    /// Returns why `weigh` refuses the code; None if it doesn't.
    pub fn weigh_fault(&self, serial: u64) -> Option<RetireFault>
        ensures { result ≡ retire_fault (unfreed self.now.table.codes serial) }
    {
        find_not_entrant(&self.table, serial).err()
    }
}
