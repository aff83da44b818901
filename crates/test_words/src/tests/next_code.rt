// The next code of a method has a slot of its own. It is installed while a frame of the old code is on a stack.
ghost use Rattle.std.specs.Prelude.{◌≡◌};
ghost use Rattle.board.specs.Boards.{first_seat, first_keeper};

use super::core_lines::is_answered;
use super::made::one_seat;
use super::run::are_words;
use board::{Board, Keeper, ThreadSeat, Weighed};
use frames::CodeId;
use std::process::Abort;
use std::test::*;

const C: CodeId = CodeId { slot: 0, serial: 1 };

const NEXT: CodeId = CodeId { slot: 1, serial: 2 };

const BY_CORE: &str = "size 1 4 2 => ok
one thread runs
install 0 => code 1; enter 0 0 1 => entered; install 0 => code 2
enter 0 0 1 => wrong method; enter 0 0 2 => entered; look 1 0 => late; round => ok
begin 0 => ok; change 0 => change 1 +1; change 0 => change 2 +1; end 0 => ok
look 1 0 => clear; weigh 1 => used 1";

// Whether each call gives the core's answer.
fn replaced(rt: &impl Abort, board: &Board, keeper: &mut Keeper, seat: &mut ThreadSeat) -> bool
    requires keeper { keeper.old ≡ first_keeper board.now }
    requires seat { seat.old ≡ first_seat board.now 0 }
    requires sizes { (board.now.slots ≡ 4) × (board.now.places ≡ 1) }
    ensures board { keeper.new.board ≡ board.now }
{
    seat.read_moment(board);
    seat.end_publication(board);
    keeper.install(board, C);
    assert!(rt; seat.enter(board, C));
    keeper.replace(board, C, NEXT);
    let is_old_in = seat.enter(board, C);
    assert!(rt; seat.enter(board, NEXT));
    let is_early = keeper.look(board, C, 0);
    let went_round = keeper.round(board).is_ok();
    seat.read_moment(board);
    seat.count_change(board, C, 1);
    seat.count_change(board, NEXT, 1);
    seat.end_publication(board);
    let is_past = keeper.look(board, C, 0);
    let is_used = matches!(keeper.weigh(board, C), Weighed::Used(1));
    !is_old_in && !is_early && went_round && is_past && is_used
}

#[test]
fn a_method_has_its_next_code(rt: HostRuntime) -> Result<(), Fail> {
    assert!(rt; is_answered(&rt, rt.alloc(), BY_CORE));
    let (board, mut keeper, mut seat) = one_seat(rt.alloc(), 1, 4)?;
    let is_said = replaced(&rt, &board, &mut keeper, &mut seat);
    let closed = board.close(keeper, Vec::new(rt.alloc()));
    let are_left = are_words(&closed, 4, 1, "5 8 3 3 1 1 0 0 2 2");
    closed.free();
    assert!(rt; is_said && are_left);
    Ok(())
}
