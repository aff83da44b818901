//! The seat of one place, with which its thread steps on the board.
ghost use Rattle.std.specs.Prelude.{◌≡◌, ◌≢◌, ℕ, [], pos, ◌+ℤ◌, ◌<ℤ◌, ◌≤ℤ◌, true, false, ◌+◌, ◌*◌, ◌==◌, ◌<◌, ◌≤◌};
ghost use Rattle.frames.specs.declared.CodeId.{CodeId as Code};
ghost use Rattle.frames.specs.declared.board_rule.BoardView.TheVariants.{Thread as IsThreads};
ghost use Rattle.frames.specs.declared.board_rule.EntryState.TheVariants.{InUse};
ghost use Rattle.frames.specs.BoardWords.{pack};
ghost use Rattle.frames.specs.BoardViews.{how_often, has_code, IsHeld, IsStandingWord, seat_view, entered, moment_read, stored_as, counted_up, counted_down, count_changed};
ghost use Rattle.board.specs.Boards.{SeatSeen, board_id, of_thread, IsThread, thread_of, words_at, first_seat, ThreadSteps};
ghost use Rattle.board.specs.Plays.{asked, asked_of};

use crate::board::Board;
use crate::rule::{About, CountDown, CountUp, Enter, Read, Store};
use crate::words::{MOMENT, count_at, entry_at, place_at};
use atomic_table::Seat;
use frames::CodeId;
use frames::board_rule::BoardView;
use std::marker::{Brand, Model};

// Below this bound, the word of a serial fits into 64 bits.
const SERIALS: u64 = 1 << 62;

/// Whether the entry's word says that the serial is in use. It compares whole words, since unpacking the word that was found takes
/// two tests.
#[inline(always)]
fn is_in_use(word: u64, serial: u64) -> bool
    ensures { result ≡ (word == pack serial InUse) }
{
    serial < SERIALS && word == 4 * serial
}

/// Enters codes, counts them, and publishes, for the thread of one place. Contracts see its board and its view.
#[derive(Drop)]
pub struct ThreadSeat {
    seat: Seat<(), BoardView>,
    slots: usize,
    places: usize,
    place: usize,
    // The view's moment: the one that was read, 0 for none.
    moment: u64,
}

impl Model for ThreadSeat {
    ghost Value = { SeatSeen };

    ghost view = { λ t. of_thread (board_id t.seat.table_id t.slots t.places) t.seat.me.0 };

    ghost invariant = { λ t. IsThread t.seat.me.0 × (t.seat.me.1 ≡ [])
        × (t.place ≡ (thread_of t.seat.me.0).place) × (t.place < t.places)
        × (t.moment ≡ (thread_of t.seat.me.0).moment)
        × (t.seat.table_id.words ≡ words_at t.slots t.places) × (t.slots ≤ 1024)
        × (t.places ≤ 64) };
}

impl ThreadSeat {
    pub(crate) fn of(
        seat: Seat<(), BoardView>,
        slots: usize,
        places: usize,
        place: usize,
    ) -> ThreadSeat
        requires seat { seat.me ≡ (IsThreads (seat_view place) 0, []) }
        requires board { (place < places) × (seat.table_id.words ≡ words_at slots places)
            × (slots ≤ 1024) × (places ≤ 64) }
        ensures { result ≡ first_seat (board_id seat.table_id slots places) place }
    {
        ThreadSeat {
            seat,
            slots,
            places,
            place,
            moment: 0,
        }
    }

    pub(crate) fn into_seat(self) -> Seat<(), BoardView>
        ensures table { result.table_id ≡ self.board.table }
        ensures view { result.me ≡ (IsThreads self.seen self.stamp, []) }
    {
        let ThreadSeat {
            seat,
            slots: _,
            places: _,
            place: _,
            moment: _,
        } = self;
        seat
    }

    /// The seat's place.
    #[inline(always)]
    pub fn place(&self) -> usize
        ensures value { result ≡ self.now.seen.place }
        ensures bound { result < self.now.board.places }
    {
        let _ = &self.seat;
        self.place
    }

    #[inline(always)]
    fn load_entry<A: About>(&mut self, board: &Board, code: CodeId) -> u64
        requires about { A.asked ≡ asked self.old.board code 0 }
        requires board { self.old.board ≡ board.now }
        requires slot { code.slot < self.old.board.slots }
        requires published { self.old.seen.stored ≢ 0 }

        ensures board { self.new.board ≡ self.old.board }
        ensures step { self.new.seen ≡ entered self.old.seen code result }
        ensures made { ThreadSteps self.old.board self.old.seen self.new.seen }
        ensures stamp { self.old.stamp < self.new.stamp }
        ensures gone { has_code self.old.seen.gone code ≡ true → result ≢ pack code.serial InUse }
        ensures stands { IsHeld self.old.seen code → IsStandingWord code result }
    {
        board
            .table
            .shared
            .load::<Enter<A>>(&mut self.seat, entry_at(code.slot))
    }

    /// Tries to enter a code: one load of the entry of its slot. Returns whether the code is in use, so that an activation of it
    /// may be made. A code that is in use joins the fresh codes of this seat. A code that no longer is joins the codes that this
    /// seat never enters again. A code that the seat counts or has fresh is found in its slot, in use or not entrant.
    ///
    /// The seat must have ended a publication, and the code's slot must be one of the board's.
    #[inline(always)]
    pub fn enter(&mut self, board: &Board, code: CodeId) -> bool
        requires board { self.old.board ≡ board.now }
        requires slot { code.slot < self.old.board.slots }
        requires published { self.old.seen.stored ≢ 0 }

        ensures board { self.new.board ≡ self.old.board }
        ensures step { (found : ℕ) × (self.new.seen ≡ entered self.old.seen code found)
            × (result ≡ (found == pack code.serial InUse))
            × (IsHeld self.old.seen code → IsStandingWord code found) }
        ensures made { ThreadSteps self.old.board self.old.seen self.new.seen }
        ensures stamp { self.old.stamp < self.new.stamp }
        ensures fresh { result ≡ true → has_code self.new.seen.fresh code ≡ true }
        ensures gone { has_code self.old.seen.gone code ≡ true → result ≡ false }
    {
        is_in_use(self.load_entry::<Brand>(board, code), code.serial)
    }

    #[inline(always)]
    fn load_moment<A: About>(&mut self, board: &Board)
        requires about { A.asked ≡ asked_of self.old.board }
        requires board { self.old.board ≡ board.now }

        ensures board { self.new.board ≡ self.old.board }
        ensures step { self.new.seen ≡ moment_read self.old.seen self.new.seen.moment }
        ensures made { ThreadSteps self.old.board self.old.seen self.new.seen }
        ensures stamp { self.old.stamp < self.new.stamp }
        ensures some { 0 < self.new.seen.moment }
    {
        self.moment = board.table.shared.load::<Read<A>>(&mut self.seat, MOMENT);
    }

    /// Begins a publication: one load of the board's moment, which isn't 0.
    #[inline(always)]
    pub fn read_moment(&mut self, board: &Board)
        requires board { self.old.board ≡ board.now }

        ensures board { self.new.board ≡ self.old.board }
        ensures step { self.new.seen ≡ moment_read self.old.seen self.new.seen.moment }
        ensures made { ThreadSteps self.old.board self.old.seen self.new.seen }
        ensures stamp { self.old.stamp < self.new.stamp }
        ensures some { 0 < self.new.seen.moment }
    {
        self.load_moment::<Brand>(board)
    }

    #[inline(always)]
    fn store_read<A: About>(&mut self, board: &Board)
        requires about { A.asked ≡ asked_of self.old.board }
        requires board { self.old.board ≡ board.now }
        requires begun { self.old.seen.moment ≢ 0 }

        ensures board { self.new.board ≡ self.old.board }
        ensures step { self.new.seen ≡ stored_as self.old.seen self.old.seen.moment }
        ensures made { ThreadSteps self.old.board self.old.seen self.new.seen }
        ensures stamp { self.old.stamp < self.new.stamp }
    {
        let word = place_at(self.slots, self.place);
        let moment = self.moment;
        board
            .table
            .shared
            .store::<Store<A>>(&mut self.seat, word, moment);
        self.moment = 0;
    }

    /// Ends a publication: one store of the moment that was read at its start. No code is fresh from then on.
    #[inline(always)]
    pub fn end_publication(&mut self, board: &Board)
        requires board { self.old.board ≡ board.now }
        requires begun { self.old.seen.moment ≢ 0 }

        ensures board { self.new.board ≡ self.old.board }
        ensures step { self.new.seen ≡ stored_as self.old.seen self.old.seen.moment }
        ensures made { ThreadSteps self.old.board self.old.seen self.new.seen }
        ensures stamp { self.old.stamp < self.new.stamp }
    {
        self.store_read::<Brand>(board)
    }

    fn store_vacant<A: About>(&mut self, board: &Board)
        requires about { A.asked ≡ asked_of self.old.board }
        requires board { self.old.board ≡ board.now }
        requires uncounted { (c : Code) → how_often self.old.seen.counted c ≡ 0 }

        ensures board { self.new.board ≡ self.old.board }
        ensures step { self.new.seen ≡ stored_as self.old.seen 0 }
        ensures made { ThreadSteps self.old.board self.old.seen self.new.seen }
        ensures stamp { self.old.stamp < self.new.stamp }
    {
        let word = place_at(self.slots, self.place);
        board
            .table
            .shared
            .store::<Store<A>>(&mut self.seat, word, 0);
        self.moment = 0;
    }

    /// Gives the place up: one store of 0. The seat must count no code.
    pub fn vacate(&mut self, board: &Board)
        requires board { self.old.board ≡ board.now }
        requires uncounted { (c : Code) → how_often self.old.seen.counted c ≡ 0 }

        ensures board { self.new.board ≡ self.old.board }
        ensures step { self.new.seen ≡ stored_as self.old.seen 0 }
        ensures made { ThreadSteps self.old.board self.old.seen self.new.seen }
        ensures stamp { self.old.stamp < self.new.stamp }
    {
        self.store_vacant::<Brand>(board)
    }

    #[inline(always)]
    fn add_count<A: About>(&mut self, board: &Board, code: CodeId, by: u64) -> u64
        requires about { A.asked ≡ asked self.old.board code 0 }
        requires board { self.old.board ≡ board.now }
        requires slot { code.slot < self.old.board.slots }
        requires some { 0 < by }
        requires fresh { has_code self.old.seen.fresh code ≡ true }
        requires few { how_often self.old.seen.counted code + by ≤ 256 }

        ensures board { self.new.board ≡ self.old.board }
        ensures step { self.new.seen ≡ counted_up self.old.seen code by result }
        ensures made { ThreadSteps self.old.board self.old.seen self.new.seen }
        ensures stamp { self.old.stamp < self.new.stamp }
    {
        board
            .table
            .shared
            .fetch_add::<CountUp<A>>(&mut self.seat, count_at(self.slots, code.slot), by)
    }

    #[inline(always)]
    fn sub_count<A: About>(&mut self, board: &Board, code: CodeId, by: u64) -> u64
        requires about { A.asked ≡ asked self.old.board code 0 }
        requires board { self.old.board ≡ board.now }
        requires slot { code.slot < self.old.board.slots }
        requires counted { (0 < by) × (by ≤ how_often self.old.seen.counted code) }

        ensures board { self.new.board ≡ self.old.board }
        ensures step { self.new.seen ≡ counted_down self.old.seen code by result }
        ensures made { ThreadSteps self.old.board self.old.seen self.new.seen }
        ensures stamp { self.old.stamp < self.new.stamp }
    {
        board
            .table
            .shared
            .fetch_sub::<CountDown<A>>(&mut self.seat, count_at(self.slots, code.slot), by)
    }

    /// Changes how often this seat counts the code, inside a publication: one fetch-add, or one fetch-sub if `by` is negative.
    ///
    /// `by` isn't 0, the count stays from 0 to 256, and it rises only for a fresh code.
    #[inline(always)]
    pub fn count_change(&mut self, board: &Board, code: CodeId, by: i32)
        requires board { self.old.board ≡ board.now }
        requires slot { code.slot < self.old.board.slots }
        requires begun { self.old.seen.moment ≢ 0 }
        requires some { by ≢ pos 0 }
        requires fresh { pos 0 <ℤ by → has_code self.old.seen.fresh code ≡ true }
        requires few { (pos (how_often self.old.seen.counted code) +ℤ by) ≤ℤ pos 256 }
        requires counted { pos 0 ≤ℤ (pos (how_often self.old.seen.counted code) +ℤ by) }

        ensures board { self.new.board ≡ self.old.board }
        ensures step { (found : ℕ) × (self.new.seen ≡ count_changed self.old.seen code by found) }
        ensures made { ThreadSteps self.old.board self.old.seen self.new.seen }
        ensures stamp { self.old.stamp < self.new.stamp }
    {
        if by > 0 {
            self.add_count::<Brand>(board, code, by as u64);
        } else {
            self.sub_count::<Brand>(board, code, by.unsigned_abs() as u64);
        }
    }
}
