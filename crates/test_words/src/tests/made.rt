// A board or a poll row, with the first of its seats.
ghost use Rattle.std.specs.Prelude.{◌≡◌, ◌<◌, ◌≤◌, IfOk};
ghost use Rattle.board.specs.Boards.{first_seat, first_keeper};
ghost use Rattle.poll.specs.Rows.{first_poller, full_armer};

use board::{Board, Keeper, ThreadSeat};
use poll::{Armer, PollRow, Poller};
use std::alloc::{AllocError, Global};

pub fn one_seat(
    alloc: Global,
    places: usize,
    slots: usize,
) -> Result<(Board, Keeper, ThreadSeat), AllocError>
    requires { (0 < places) × (places ≤ 64) × (slots ≤ 1024) }
    ensures board { IfOk result (λ t. (t.0.slots ≡ slots) × (t.0.places ≡ places)) }
    ensures keeper { IfOk result (λ t. t.1 ≡ first_keeper t.0) }
    ensures seat { IfOk result (λ t. t.2 ≡ first_seat t.0 0) }
{
    let (board, keeper, mut seats) = Board::new(alloc, places, slots)?;
    let seat = seats.swap_remove(0);
    Ok((board, keeper, seat))
}

// The parts of a poll row with one place.
pub fn one_poller(alloc: Global) -> Result<(PollRow, Armer, Poller), AllocError>
    ensures armer { IfOk result (λ t. t.1 ≡ full_armer t.0 1) }
    ensures poller { IfOk result (λ t. t.2 ≡ first_poller t.0 0) }
{
    let (row, armer, mut pollers) = PollRow::new(alloc, 1)?;
    let poller = pollers.swap_remove(0);
    Ok((row, armer, poller))
}
