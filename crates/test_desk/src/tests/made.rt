//! The state on which calls are made: a board of two slots and one place, a desk over it, and the body of thread 1.
ghost use Rattle.std.specs.Prelude.{◌≡◌, [], false, IfOk, IfErr};
ghost use Rattle.board.specs.Boards.{first_keeper, first_seat};
ghost use Rattle.poll.specs.Rows.{first_poller};
ghost use Rattle.frames.specs.ImageView.{IsSettled};

use board::{Board, Keeper, ThreadSeat};
use bodies::{Body, Name, Seats, SpareSeat};
use desk::Desk;
use frames::image::Image;
use method_table::table::MethodTable;
use operations::job::HandshakeOp;
use poll::{PollRow, Poller};
use std::alloc::{AllocError, Global};

const SLOTS: usize = 2;

pub fn small_board(alloc: Global) -> Result<(Board, Keeper, ThreadSeat), AllocError>
    ensures board { IfOk result (λ t. (t.0.slots ≡ 2) × (t.0.places ≡ 1)) }
    ensures keeper { IfOk result (λ t. t.1 ≡ first_keeper t.0) }
    ensures seat { IfOk result (λ t. t.2 ≡ first_seat t.0 0) }
{
    let (board, keeper, mut seats) = Board::new(alloc, 1, SLOTS)?;
    let seat = seats.swap_remove(0);
    Ok((board, keeper, seat))
}

pub fn small_row(alloc: Global) -> Result<(PollRow, Poller), AllocError>
    ensures poller { IfOk result (λ t. t.1 ≡ first_poller t.0 0) }
{
    let (row, _armer, mut pollers) = PollRow::new(alloc, 1)?;
    let poller = pollers.swap_remove(0);
    Ok((row, poller))
}

// A desk; if memory is refused, the keeper again.
fn desk_or_keeper<N: Name, J: HandshakeOp>(
    alloc: Global,
    board: &Board,
    keeper: Keeper,
) -> Result<Desk<N, J>, Keeper>
    requires board { board.now ≡ N.board }
    requires keeper { keeper ≡ first_keeper board.now }
    requires sizes { (N.board.slots ≡ 2) × (N.board.places ≡ 1) }
    ensures handed_back { IfErr result (λ k. k ≡ keeper) }
{
    match MethodTable::new(alloc, SLOTS as u32, 2) {
        Ok(table) => Desk::new(alloc, table, keeper, board, 1),
        Err(_) => Err(keeper),
    }
}

// The desk, and whether it was made only at the second try.
pub fn small_desk<N: Name, J: HandshakeOp>(
    alloc: Global,
    board: &Board,
    keeper: Keeper,
) -> Result<(Desk<N, J>, bool), AllocError>
    requires board { board.now ≡ N.board }
    requires keeper { keeper ≡ first_keeper board.now }
    requires sizes { (N.board.slots ≡ 2) × (N.board.places ≡ 1) }
{
    let keeper = match desk_or_keeper(alloc, board, keeper) {
        Ok(desk) => return Ok((desk, false)),
        Err(keeper) => keeper,
    };
    match desk_or_keeper(alloc, board, keeper) {
        Ok(desk) => Ok((desk, true)),
        Err(_) => Err(AllocError),
    }
}

// The body of thread 1. It makes no call and publishes nothing: its place stays vacant.
pub fn first_body<N: Name>(
    alloc: Global,
    seat: ThreadSeat,
    poller: Poller,
) -> Result<Body<N>, AllocError>
    requires seat { seat ≡ first_seat N.board 0 }
    requires poller { (poller.table ≡ N.poll_row) × (poller.seen.place ≡ 0) }
    ensures name { IfOk result (λ b. b.name ≡ 1) }
    ensures settled { IfOk result (λ b. IsSettled b.image) }
{
    let seats = Seats::new(alloc, seat, poller)?;
    let image = Image::new(alloc)?;
    Ok(Body::new(1, image, SpareSeat::new(seats)))
}
