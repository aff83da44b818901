//! The board and its words.
ghost use Rattle.std.specs.Prelude.{◌≡◌, ℕ, ◌+◌, ◌*◌, ◌<◌, ◌≤◌, length, IfOk, Some, slice_get};
ghost use Rattle.board.specs.Boards.{BoardId, SeatSeen, board_id, words_at, AreFirst, first_seat, first_keeper};
ghost use Rattle.frames.specs.BoardWords.{count_of};
ghost use Rattle.board.specs.Closing.{IsLeftBy, AreVacant, word_left};

use crate::closed::ClosedBoard;
use crate::keeper::Keeper;
use crate::note::Note;
use crate::rule::{BoardRule, GivenBack, SplitOff};
use crate::thread_seat::ThreadSeat;
use crate::words::{MOMENT, count_at, entry_at, word_count};
use atomic_table::Table;
use frames::board_rule::BoardView;
use std::alloc::{AllocError, Global};
use std::marker::Model;

/// The words of the codes and places, shared by any number of threads. Contracts see the board's identity.
#[derive(Drop)]
pub struct Board {
    pub(crate) table: Table<(), BoardView, (usize, usize), BoardRule, Global>,
    slots: usize,
    places: usize,
}

impl Model for Board {
    ghost Value = { BoardId };

    ghost view = { λ b. board_id b.table.shared.table_id b.slots b.places };

    ghost invariant = { λ b. (b.table.shared.key ≡ (b.slots, b.places))
        × (b.table.shared.table_id.words ≡ words_at b.slots b.places)
        × (b.table.shared.table_id.slots ≡ 0) × (0 < b.places) × (b.slots ≤ 1024)
        × (b.places ≤ 64) };
}

fn first_words(alloc: Global, slots: usize, places: usize) -> Result<Vec<u64>, AllocError>
    requires { (slots ≤ 1024) × (places ≤ 64) }
    ensures { IfOk result (λ v. AreFirst slots places v.items) }
{
    let mut words = vec![in alloc; 0; word_count(slots, places)]?;
    words[MOMENT] = 1;
    for slot in 0..slots {
        // Vacant, with serial 0.
        words[entry_at(slot as u32)] = 3;
    }
    Ok(words)
}

impl Board {
    /// Makes a board of vacant places and slots in its first moment, its keeper, and the seat of each place in order. The error is
    /// that memory was refused.
    ///
    /// There are 1 to 64 places and at most 1024 slots. This call takes all memory that the board needs, and no later call takes
    /// any.
    pub fn new(
        alloc: Global,
        places: usize,
        slots: usize,
    ) -> Result<(Board, Keeper, Vec<ThreadSeat>), AllocError>
        requires places { (0 < places) × (places ≤ 64) }
        requires slots { slots ≤ 1024 }

        ensures board { IfOk result (λ t. (t.0.slots ≡ slots) × (t.0.places ≡ places)) }
        ensures keeper { IfOk result (λ t. t.1 ≡ first_keeper t.0) }
        ensures seats { IfOk result (λ t. length t.2.items ≡ places) }
        ensures each_seat { IfOk result (λ t. (k : ℕ) → k < places
            → slice_get t.2.items k ≡ Some (first_seat t.0 k)) }
    {
        let words = first_words(alloc, slots, places)?;
        let notes = vec![in alloc; Note::at(0); slots]?;
        let mut seats = Vec::with_capacity(alloc, places)?;
        let (table, mut seat) = Table::of_words(alloc, words.as_slice(), &(slots, places))?;
        for place in 0..places {
            let seat = table.shared.split_seat::<SplitOff>(&mut seat);
            seats.push_reserved(ThreadSeat::of(seat, slots, places, place));
        }
        let board = Board {
            table,
            slots,
            places,
        };
        Ok((board, Keeper::of(seat, slots, places, notes), seats))
    }

    /// The recent value of the slot's count. Nothing is guaranteed about it, and reading it is no step. The slot is one of the
    /// board's.
    pub fn peek_count(&self, slot: u32) -> u64
        requires { slot < self.now.slots }
    {
        self.table.shared.peek(count_at(self.slots, slot))
    }

    /// Ends the board, which no thread shares any more, with the seats that are given back. Returns its words: those of a board
    /// that meets the rule and that agrees with the views of the keeper and of these seats. If each place was given up, every count
    /// is 0.
    pub fn close(self, keeper: Keeper, mut seats: Vec<ThreadSeat>) -> ClosedBoard
        requires keeper { keeper.board ≡ self }
        requires seats { (i : ℕ) (s : SeatSeen) → slice_get seats.items i ≡ Some s
            → s.board ≡ self }
        ensures sizes { (result.slots ≡ self.slots) × (result.places ≡ self.places) }
        ensures rule { IsLeftBy keeper seats.items result }
        ensures vacant { AreVacant self.places seats.items → (slot : ℕ) → slot < self.slots
            → word_left result (count_of slot) ≡ 0 }
    {
        let Board {
            table,
            slots,
            places,
        } = self;
        let mut keeper = keeper.into_seat();
        while let Some(seat) = seats.pop() {
            let seat = seat.into_seat();
            table.shared.join_seat::<GivenBack>(&mut keeper, seat);
        }
        ClosedBoard::of(table.close_with(keeper), slots, places)
    }
}
