// A board and a poll row, with all seats that act on them.
ghost use Rattle.std.specs.Prelude.{◌≡◌, ◌<◌, ◌≤◌, ℕ, Some, length, vec_len, slice_get};
ghost use Rattle.board.specs.Boards.{first_keeper, first_seat};
ghost use Rattle.poll.specs.Rows.{first_poller};

use super::place::Place;
use super::shelf::Shelf;
use board::{Board, Keeper, ThreadSeat};
use bodies::Name;
use poll::{Armer, PollRow, Poller};
use std::alloc::{AllocError, Global};

#[derive(Drop)]
pub struct Tables<N: Name> {
    pub board: Board,
    pub row: PollRow,
    pub shelf: Shelf<N>,
    pub armer: Armer,
    pub places: Vec<Place<N>>,
    ghost are: { (board ≡ N.board) × (row ≡ N.poll_row) × (armer.table ≡ N.poll_row) },
}

impl<N: Name> Tables<N> {
    // A keeper acts only on this slot, and a place counts only the slot's first code.
    pub fn of(
        board: Board,
        row: PollRow,
        keeper: Keeper,
        armer: Armer,
        places: Vec<Place<N>>,
        many: usize,
        slot: u32,
    ) -> Tables<N>
        requires names { (board ≡ N.board) × (row ≡ N.poll_row) }
        requires sizes { (slot < N.board.slots) × (many ≡ N.board.places) }
        requires keeper { keeper ≡ first_keeper board }
        requires armer { armer.table ≡ row }
    {
        Tables {
            board,
            row,
            shelf: Shelf::new(keeper, many, slot),
            armer,
            places,
        }
    }
}

// The places of the seats and pollers, in their order.
pub fn places_of<N: Name>(
    alloc: Global,
    places: usize,
    mut seats: Vec<ThreadSeat>,
    mut pollers: Vec<Poller>,
    slot: u32,
) -> Result<Vec<Place<N>>, AllocError>
    requires slot { slot < N.board.slots }
    requires seats { length seats.items ≡ places }
    requires each_seat { (k : ℕ) → k < places
        → slice_get seats.items k ≡ Some (first_seat N.board k) }
    requires pollers { vec_len pollers ≡ places }
    requires each_poller { (k : ℕ) → k < places
        → slice_get pollers.items k ≡ Some (first_poller N.poll_row k) }
{
    let mut made = Vec::with_capacity(alloc, places)?;
    while let Some(seat) = seats.pop() {
        let Some(poller) = pollers.pop() else {
            return Ok(made);
        };
        made.push(Place::new(seat, poller, slot))?;
    }
    made.reverse();
    Ok(made)
}
