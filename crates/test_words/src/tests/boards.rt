// Boards that are closed, and the greatest sizes.
ghost use Rattle.std.specs.Prelude.{◌≡◌, ◌<◌, ◌≤◌};
ghost use Rattle.board.specs.Boards.{first_seat, first_keeper};

use super::made::one_seat;
use super::run::are_words;
use board::{Board, Keeper, ThreadSeat};
use frames::CodeId;
use std::alloc::{AllocError, Global};
use std::process::Abort;
use std::test::*;

const C: CodeId = CodeId { slot: 0, serial: 1 };

// Enters and counts a code in the second moment, and invalidates it. Answers whether all calls gave the right answers.
fn counted_once(board: &Board, keeper: &mut Keeper, seat: &mut ThreadSeat) -> bool
    requires keeper { keeper.old ≡ first_keeper board.now }
    requires seat { seat.old ≡ first_seat board.now 0 }
    requires slots { board.now.slots ≡ 1 }
    ensures boards { (keeper.new.board ≡ board.now) × (seat.new.board ≡ board.now) }
{
    keeper.install(board, C);
    let is_first = keeper.moment() == 1 && seat.place() == 0;
    seat.read_moment(board);
    seat.end_publication(board);
    if !seat.enter(board, C) || keeper.round(board).is_err() {
        return false;
    }
    seat.read_moment(board);
    seat.count_change(board, C, 1);
    seat.end_publication(board);
    keeper.invalidate(board, C);
    is_first && keeper.moment() == 2 && !keeper.is_last_moment()
}

#[test]
fn a_board_that_ends_shows_its_words(rt: HostRuntime) -> Result<(), Fail> {
    let (board, mut keeper, mut seat) = one_seat(rt.alloc(), 2, 1)?;
    let is_said = counted_once(&board, &mut keeper, &mut seat);
    let closed = board.close(keeper, vec![in rt.alloc(); seat]?);
    let are_left = are_words(&closed, 1, 2, "5 1 2 0 2");
    closed.free();
    assert!(rt; is_said && are_left);
    Ok(())
}

// Makes and closes a board. Answers its keeper's moment, how many seats it has, and its last moment.
fn made_and_closed(
    alloc: Global,
    places: usize,
    slots: usize,
) -> Result<(u64, usize, u64), AllocError>
    requires { (0 < places) × (places ≤ 64) × (slots ≤ 1024) }
{
    let (board, keeper, seats) = Board::new(alloc, places, slots)?;
    let moment = keeper.moment();
    let count = seats.len();
    let closed = board.close(keeper, seats);
    let left = closed.moment();
    closed.free();
    Ok((moment, count, left))
}

#[test]
fn a_board_is_made_after_another(rt: HostRuntime) -> Result<(), Fail> {
    made_and_closed(rt.alloc(), 64, 1024)?;
    let (moment, seats, _) = made_and_closed(rt.alloc(), 64, 1024)?;
    assert!(rt; moment == 1 && seats == 64);
    Ok(())
}

// Passes whichever allocation is refused: the board is made whole, or not at all.
#[test]
fn a_board_is_made_whole_or_not_at_all(rt: HostRuntime) -> Result<(), Fail> {
    let Ok((_, seats, left)) = made_and_closed(rt.alloc(), 3, 5) else {
        println!(rt; "refused")?;
        return Ok(());
    };
    assert!(rt; seats == 3 && left == 1);
    println!(rt; "no growth was refused")?;
    Ok(())
}
