//! The keeper of the codes.
ghost use Rattle.std.specs.Prelude.{◌≡◌, ◌≢◌, ℕ, true, false, nat_le, [], replicate, length, IfSome, IfNone, ◌+◌, ◌*◌, ◌^◌, ◌<◌, ◌≤◌, OnOk, OnErr};
ghost use Rattle.frames.specs.declared.board_rule.BoardView.TheVariants.{Keeper as IsKeepers};
ghost use Rattle.frames.specs.declared.board_rule.EntryState.TheVariants.{InUse, NotEntrant, Zombie, Vacant};
ghost use Rattle.frames.specs.BoardWords.{pack};
ghost use Rattle.frames.specs.BoardStep.{is_past};
ghost use Rattle.frames.specs.BoardViews.{slot_of, IsIn, keeper_view, went_round, entry_stored, in_use, not_entrant, in_state, looked_at, weighed, has_place};
ghost use Rattle.board.specs.Boards.{KeeperSeen, board_id, of_keeper, IsKeeper, keeper_of, words_at, first_keeper, KeeperSteps};
ghost use Rattle.board.specs.Plays.{asked, asked_of};
ghost use Rattle.board.specs.Replaced.{left_by, replaced};
ghost use Rattle.board.specs.Notes.{AreNoted, IsLooked, IsWeighed, WeighSteps, WeighStamps, WeighTells, blank};

use crate::board::Board;
use crate::note::Note;
use crate::rule::{About, Free, GoRound, Install, Invalidate, Look, Retire, Weigh};
use crate::weighed::Weighed;
use crate::words::{MOMENT, count_at, entry_at, place_at};
use atomic_table::Seat;
use frames::board_rule::{BoardView, Entry, EntryState};
use frames::{CodeId, LAST};
use std::marker::{Brand, Model};

/// The board has reached its last moment, 2^40 - 1.
#[derive(Clone, Copy, Debug, PartialEq, Eq)]
pub struct Spent;

/// Stores the entries of the codes, looks at the places, weighs the codes, and increments the moment. A board has one keeper.
/// Contracts see its board and its view.
#[derive(Drop)]
pub struct Keeper {
    pub(crate) seat: Seat<(), BoardView>,
    slots: usize,
    places: usize,
    // The view's moment, and the part of the view of each slot that the calls need.
    moment: u64,
    notes: Vec<Note>,
}

impl Model for Keeper {
    ghost Value = { KeeperSeen };

    ghost view = { λ k. of_keeper (board_id k.seat.table_id k.slots k.places) k.seat.me.0 };

    ghost invariant = { λ k. IsKeeper k.seat.me.0 × (k.moment ≡ (keeper_of k.seat.me.0).moment)
        × (k.seat.table_id.words ≡ words_at k.slots k.places) × (k.slots ≤ 1024) × (k.places ≤ 64)
        × (0 < k.places) × AreNoted k.slots k.notes.items (keeper_of k.seat.me.0) };
}

/// The entry's word for the code in this state. The serial is below 2^40.
fn word_of(code: CodeId, state: EntryState) -> u64
    requires { code.serial < 2 ^ 40 }
    ensures { result ≡ pack code.serial state }
{
    let entry = Entry {
        serial: code.serial,
        state,
    };
    entry.pack()
}

impl Keeper {
    pub(crate) fn of(
        seat: Seat<(), BoardView>,
        slots: usize,
        places: usize,
        notes: Vec<Note>,
    ) -> Keeper
        requires keeper { seat.me.0 ≡ IsKeepers (keeper_view slots places) [] 0 }
        requires notes { notes.items ≡ replicate slots blank }
        requires board { (seat.table_id.words ≡ words_at slots places) × (slots ≤ 1024)
            × (places ≤ 64) × (0 < places) }
        ensures { result ≡ first_keeper (board_id seat.table_id slots places) }
    {
        Keeper {
            seat,
            slots,
            places,
            moment: 1,
            notes,
        }
    }

    pub(crate) fn into_seat(self) -> Seat<(), BoardView>
        ensures table { result.table_id ≡ self.board.table }
        ensures view { result.me.0 ≡ IsKeepers self.seen [] self.stamp }
    {
        let Keeper {
            seat,
            slots: _,
            places: _,
            moment: _,
            notes: _,
        } = self;
        seat
    }

    /// The view has each slot of the board, each with a serial that fits into a word.
    fn has_slots(&self)
        ensures slots { length self.now.seen.slots ≡ self.now.board.slots }
        ensures small { (i : ℕ) → i < self.now.board.slots
            → (slot_of self.now.seen i).serial < 2 ^ 40 }
    {
        let _slots = self.slots;
    }

    fn store_in_use<A: About>(&mut self, board: &Board, code: CodeId)
        requires about { A.asked ≡ asked self.old.board code 0 }
        requires board { self.old.board ≡ board.now }
        requires slot { code.slot < self.old.board.slots }
        requires vacant { (slot_of self.old.seen code.slot).state ≡ Vacant }
        requires later { (slot_of self.old.seen code.slot).serial < code.serial }
        requires small { code.serial < 2 ^ 40 }

        ensures board { self.new.board ≡ self.old.board }
        ensures step { self.new.seen ≡ entry_stored self.old.seen code (in_use code) }
        ensures made { KeeperSteps self.old.board self.old.seen self.new.seen }
        ensures stamp { self.old.stamp < self.new.stamp }
    {
        let word = word_of(code, EntryState::InUse);
        board
            .table
            .shared
            .store::<Install<A>>(&mut self.seat, entry_at(code.slot), word);
        self.notes[code.slot as usize] = Note::at(0);
    }

    /// Installs a code in a vacant slot: the code is in use. One store of its entry. The serial is greater than that of the slot's
    /// last code.
    pub fn install(&mut self, board: &Board, code: CodeId)
        requires board { self.old.board ≡ board.now }
        requires slot { code.slot < self.old.board.slots }
        requires vacant { (slot_of self.old.seen code.slot).state ≡ Vacant }
        requires later { (slot_of self.old.seen code.slot).serial < code.serial }
        requires small { code.serial < 2 ^ 40 }

        ensures board { self.new.board ≡ self.old.board }
        ensures step { self.new.seen ≡ entry_stored self.old.seen code (in_use code) }
        ensures made { KeeperSteps self.old.board self.old.seen self.new.seen }
        ensures stamp { self.old.stamp < self.new.stamp }
        ensures code { slot_of self.new.seen code.slot ≡ in_use code }
        ensures slots { length self.new.seen.slots ≡ self.new.board.slots }
    {
        self.has_slots();
        self.store_in_use::<Brand>(board, code);
    }

    fn store_not_entrant<A: About>(&mut self, board: &Board, code: CodeId)
        requires about { A.asked ≡ asked self.old.board code 0 }
        requires board { self.old.board ≡ board.now }
        requires slot { code.slot < self.old.board.slots }
        requires code { IsIn self.old.seen code InUse }
        requires small { code.serial < 2 ^ 40 }

        ensures board { self.new.board ≡ self.old.board }
        ensures step { self.new.seen
            ≡ entry_stored self.old.seen code (not_entrant code self.old.seen.moment) }
        ensures made { KeeperSteps self.old.board self.old.seen self.new.seen }
        ensures stamp { self.old.stamp < self.new.stamp }
    {
        let word = word_of(code, EntryState::NotEntrant);
        board
            .table
            .shared
            .store::<Invalidate<A>>(&mut self.seat, entry_at(code.slot), word);
        self.notes[code.slot as usize] = Note::at(self.moment);
    }

    /// Makes a code that is in use not entrant, in the board's moment: one store of its entry.
    pub fn invalidate(&mut self, board: &Board, code: CodeId)
        requires board { self.old.board ≡ board.now }
        requires slot { code.slot < self.old.board.slots }
        requires code { IsIn self.old.seen code InUse }

        ensures board { self.new.board ≡ self.old.board }
        ensures step { self.new.seen
            ≡ entry_stored self.old.seen code (not_entrant code self.old.seen.moment) }
        ensures made { KeeperSteps self.old.board self.old.seen self.new.seen }
        ensures stamp { self.old.stamp < self.new.stamp }
        ensures code { slot_of self.new.seen code.slot ≡ not_entrant code self.old.seen.moment }
        ensures slots { length self.new.seen.slots ≡ self.new.board.slots }
    {
        self.has_slots();
        self.store_not_entrant::<Brand>(board, code);
    }

    /// Replaces a code that is in use by another one in a vacant slot: makes the old code not entrant, in the board's moment, and
    /// then puts the new code in use. It makes two stores in this order, and the board's rule holds after each. Between them
    /// neither code is in use.
    pub fn replace(&mut self, board: &Board, old: CodeId, code: CodeId)
        requires board { self.old.board ≡ board.now }
        requires old { (old.slot < self.old.board.slots) × IsIn self.old.seen old InUse }
        requires slot { code.slot < self.old.board.slots }
        requires vacant { (slot_of self.old.seen code.slot).state ≡ Vacant }
        requires later { (slot_of self.old.seen code.slot).serial < code.serial }
        requires small { code.serial < 2 ^ 40 }

        ensures board { self.new.board ≡ self.old.board }
        ensures step { self.new.seen ≡ replaced self.old.seen old code }
        ensures made { KeeperSteps self.old.board self.old.seen (left_by self.old.seen old)
            × KeeperSteps self.old.board (left_by self.old.seen old) self.new.seen }
        ensures stamp { self.old.stamp + 1 < self.new.stamp }
    {
        self.invalidate(board, old);
        self.install(board, code);
    }

    fn add_moment<A: About>(&mut self, board: &Board)
        requires about { A.asked ≡ asked_of self.old.board }
        requires board { self.old.board ≡ board.now }
        requires room { self.old.seen.moment + 1 < 2 ^ 40 }

        ensures board { self.new.board ≡ self.old.board }
        ensures step { self.new.seen ≡ went_round self.old.seen self.old.seen.moment }
        ensures made { KeeperSteps self.old.board self.old.seen self.new.seen }
        ensures stamp { self.old.stamp < self.new.stamp }
    {
        board
            .table
            .shared
            .fetch_add::<GoRound<A>>(&mut self.seat, MOMENT, 1);
        self.moment += 1;
    }

    /// The board's moment, from 1 to 2^40 - 1. This call makes no step.
    pub fn moment(&self) -> u64
        ensures { result ≡ self.now.seen.moment }
    {
        let _ = &self.seat;
        self.moment
    }

    /// Whether the board has reached its last moment: then `round` fails with `Spent`. This call makes no step.
    pub fn is_last_moment(&self) -> bool
        ensures { result ≡ nat_le (2 ^ 40) (self.now.seen.moment + 1) }
    {
        let _ = &self.seat;
        self.moment >= LAST
    }

    /// Begins the next moment: one fetch-add. The error is `Spent`, without a step: the board has reached its last moment.
    pub fn round(&mut self, board: &Board) -> Result<(), Spent>
        requires board { self.old.board ≡ board.now }

        ensures board { self.new.board ≡ self.old.board }
        ensures ok { OnOk result ((self.new.seen ≡ went_round self.old.seen self.old.seen.moment)
            × KeeperSteps self.old.board self.old.seen self.new.seen) }
        ensures stamp { OnOk result (self.old.stamp < self.new.stamp) }
        ensures spent { OnErr result ((self.new.seen ≡ self.old.seen)
            × (2 ^ 40 ≤ self.old.seen.moment + 1)) }
        ensures slots { length self.new.seen.slots ≡ self.new.board.slots }
    {
        self.has_slots();
        if self.is_last_moment() {
            return Err(Spent);
        }
        self.add_moment::<Brand>(board);
        Ok(())
    }

    fn load_place<A: About>(&mut self, board: &Board, code: CodeId, place: usize) -> bool
        requires about { A.asked ≡ asked self.old.board code place }
        requires board { self.old.board ≡ board.now }
        requires slot { (code.slot < self.old.board.slots) × (place < self.old.board.places) }
        requires code { IsIn self.old.seen code NotEntrant }

        ensures board { self.new.board ≡ self.old.board }
        ensures step { (found : ℕ) × (self.new.seen ≡ looked_at self.old.seen code place found)
            × (result ≡ is_past (slot_of self.old.seen code.slot).left found) }
        ensures made { KeeperSteps self.old.board self.old.seen self.new.seen }
        ensures stamp { self.old.stamp < self.new.stamp }
    {
        let word = place_at(self.slots, place);
        let found = board.table.shared.load::<Look<A>>(&mut self.seat, word);
        let mut note = self.notes[code.slot as usize];
        let past = note.look(place, found);
        self.notes[code.slot as usize] = note;
        past
    }

    /// Looks at a place for a code that is not entrant: one load of the place's moment. Returns whether the place is covered: its
    /// stack was published in a moment after the code's invalidation, or the place is vacant. A covered place counts as looked at
    /// from then on.
    pub fn look(&mut self, board: &Board, code: CodeId, place: usize) -> bool
        requires board { self.old.board ≡ board.now }
        requires slot { (code.slot < self.old.board.slots) × (place < self.old.board.places) }
        requires code { IsIn self.old.seen code NotEntrant }

        ensures board { self.new.board ≡ self.old.board }
        ensures step { (found : ℕ) × (self.new.seen ≡ looked_at self.old.seen code place found)
            × (result ≡ is_past (slot_of self.old.seen code.slot).left found) }
        ensures made { KeeperSteps self.old.board self.old.seen self.new.seen }
        ensures stamp { self.old.stamp < self.new.stamp }
        ensures looked { result ≡ true → IsLooked self.new.seen code place }
        ensures code { IsIn self.new.seen code NotEntrant }
        ensures slots { length self.new.seen.slots ≡ self.new.board.slots }
    {
        self.has_slots();
        self.load_place::<Brand>(board, code, place)
    }

    /// The least place that wasn't looked at for the code, if there is one.
    fn unlooked(&self, code: CodeId) -> Option<usize>
        requires slot { code.slot < self.now.board.slots }
        ensures some { IfSome result (λ p. (p < self.now.board.places)
            × (has_place (slot_of self.now.seen code.slot).looked p ≡ false)
            × ((q : ℕ) → q < p → IsLooked self.now.seen code q)) }
        ensures none { IfNone result ((q : ℕ) → q < self.now.board.places
            → IsLooked self.now.seen code q) }
    {
        let place = self.notes[code.slot as usize].least_unlooked();
        if place < self.places {
            Some(place)
        } else {
            None
        }
    }

    fn load_count<A: About>(&mut self, board: &Board, code: CodeId) -> u64
        requires about { A.asked ≡ asked self.old.board code 0 }
        requires board { self.old.board ≡ board.now }
        requires slot { code.slot < self.old.board.slots }
        requires code { IsIn self.old.seen code NotEntrant }
        requires looked { (p : ℕ) → p < self.old.board.places → IsLooked self.old.seen code p }

        ensures board { self.new.board ≡ self.old.board }
        ensures step { self.new.seen ≡ weighed self.old.seen code result }
        ensures made { KeeperSteps self.old.board self.old.seen self.new.seen }
        ensures stamp { self.old.stamp < self.new.stamp }
    {
        board
            .table
            .shared
            .load::<Weigh<A>>(&mut self.seat, count_at(self.slots, code.slot))
    }

    /// Weighs a code that is not entrant. Returns the least place that wasn't looked at for it, without a step, if there is one.
    /// Otherwise returns how often the seats count the code, by one load. `Clear` means that no seat counts the code or has it
    /// fresh.
    pub fn weigh(&mut self, board: &Board, code: CodeId) -> Weighed
        requires board { self.old.board ≡ board.now }
        requires slot { code.slot < self.old.board.slots }
        requires code { IsIn self.old.seen code NotEntrant }

        ensures board { self.new.board ≡ self.old.board }
        ensures step { IsWeighed self.old.board.places code self.old.seen self.new.seen result }
        ensures made { WeighSteps self.old.board self.old.seen self.new.seen result }
        ensures stamp { WeighStamps self.old.stamp self.new.stamp result }
        ensures clear { WeighTells self.old.board self.new.seen code result }
        ensures code { IsIn self.new.seen code NotEntrant }
        ensures slots { length self.new.seen.slots ≡ self.new.board.slots }
    {
        self.has_slots();
        if let Some(place) = self.unlooked(code) {
            return Weighed::NotLooked(place);
        }
        match self.load_count::<Brand>(board, code) {
            0 => Weighed::Clear,
            n => Weighed::Used(n),
        }
    }

    fn store_zombie<A: About>(&mut self, board: &Board, code: CodeId)
        requires about { A.asked ≡ asked self.old.board code 0 }
        requires board { self.old.board ≡ board.now }
        requires slot { code.slot < self.old.board.slots }
        requires code { IsIn self.old.seen code NotEntrant }
        requires small { code.serial < 2 ^ 40 }
        requires clear { (slot_of self.old.seen code.slot).clear ≡ true }

        ensures board { self.new.board ≡ self.old.board }
        ensures step { self.new.seen
            ≡ entry_stored self.old.seen code (in_state (slot_of self.old.seen code.slot) Zombie) }
        ensures made { KeeperSteps self.old.board self.old.seen self.new.seen }
        ensures stamp { self.old.stamp < self.new.stamp }
    {
        let word = word_of(code, EntryState::Zombie);
        board
            .table
            .shared
            .store::<Retire<A>>(&mut self.seat, entry_at(code.slot), word);
    }

    /// Makes a zombie of a code that is not entrant and was weighed clear: one store of its entry.
    pub fn retire(&mut self, board: &Board, code: CodeId)
        requires board { self.old.board ≡ board.now }
        requires slot { code.slot < self.old.board.slots }
        requires code { IsIn self.old.seen code NotEntrant }
        requires clear { (slot_of self.old.seen code.slot).clear ≡ true }

        ensures board { self.new.board ≡ self.old.board }
        ensures step { self.new.seen
            ≡ entry_stored self.old.seen code (in_state (slot_of self.old.seen code.slot) Zombie) }
        ensures made { KeeperSteps self.old.board self.old.seen self.new.seen }
        ensures stamp { self.old.stamp < self.new.stamp }
        ensures code { IsIn self.new.seen code Zombie }
        ensures slots { length self.new.seen.slots ≡ self.new.board.slots }
    {
        self.has_slots();
        self.store_zombie::<Brand>(board, code);
    }

    fn store_vacant<A: About>(&mut self, board: &Board, code: CodeId)
        requires about { A.asked ≡ asked self.old.board code 0 }
        requires board { self.old.board ≡ board.now }
        requires slot { code.slot < self.old.board.slots }
        requires code { IsIn self.old.seen code Zombie }
        requires small { code.serial < 2 ^ 40 }

        ensures board { self.new.board ≡ self.old.board }
        ensures step { self.new.seen
            ≡ entry_stored self.old.seen code (in_state (slot_of self.old.seen code.slot) Vacant) }
        ensures made { KeeperSteps self.old.board self.old.seen self.new.seen }
        ensures stamp { self.old.stamp < self.new.stamp }
    {
        let word = word_of(code, EntryState::Vacant);
        board
            .table
            .shared
            .store::<Free<A>>(&mut self.seat, entry_at(code.slot), word);
    }

    /// Frees the slot of a zombie: one store of its entry, which keeps the serial.
    pub fn free(&mut self, board: &Board, code: CodeId)
        requires board { self.old.board ≡ board.now }
        requires slot { code.slot < self.old.board.slots }
        requires code { IsIn self.old.seen code Zombie }

        ensures board { self.new.board ≡ self.old.board }
        ensures step { self.new.seen
            ≡ entry_stored self.old.seen code (in_state (slot_of self.old.seen code.slot) Vacant) }
        ensures made { KeeperSteps self.old.board self.old.seen self.new.seen }
        ensures stamp { self.old.stamp < self.new.stamp }
        ensures code { IsIn self.new.seen code Vacant }
        ensures slots { length self.new.seen.slots ≡ self.new.board.slots }
    {
        self.has_slots();
        self.store_vacant::<Brand>(board, code);
    }
}
