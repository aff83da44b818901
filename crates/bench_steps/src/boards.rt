//! A board's calls.
ghost use Rattle.std.specs.Prelude.{◌≡◌, ◌≢◌, ◌<◌, ◌≤◌};
ghost use Rattle.frames.specs.declared.CodeId.{CodeId as Code};
ghost use Rattle.frames.specs.declared.board_rule.EntryState.TheVariants.{NotEntrant};
ghost use Rattle.frames.specs.BoardViews.{how_often, IsIn};

use crate::report::report;
use board::{Board, Keeper, ThreadSeat, Weighed};
use frames::CodeId;
use std::io;
use std::time::Instant;

/// Enters the code, and counts how often it was in use.
fn enters(seat: &mut ThreadSeat, board: &Board, code: CodeId, turns: u64) -> u64
    requires board { seat.old.board ≡ board.now }
    requires slot { code.slot < board.now.slots }
    requires published { seat.old.seen.stored ≢ 0 }
    requires uncounted { how_often seat.old.seen.counted code ≡ 0 }

    ensures board { seat.new.board ≡ seat.old.board }
    ensures published { seat.new.seen.stored ≢ 0 }
    ensures uncounted { how_often seat.new.seen.counted code ≡ 0 }
{
    let mut hits = 0u64;
    for turn in 0..turns {
        if seat.enter(board, code) {
            hits = hits.wrapping_add(1);
        }
    }
    hits
}

/// Publishes a stack that didn't change: two steps a turn.
fn publishes(seat: &mut ThreadSeat, board: &Board, code: CodeId, turns: u64)
    requires board { seat.old.board ≡ board.now }
    requires published { seat.old.seen.stored ≢ 0 }
    requires uncounted { how_often seat.old.seen.counted code ≡ 0 }

    ensures board { seat.new.board ≡ seat.old.board }
    ensures published { seat.new.seen.stored ≢ 0 }
    ensures uncounted { how_often seat.new.seen.counted code ≡ 0 }
{
    for turn in 0..turns {
        seat.read_moment(board);
        seat.end_publication(board);
    }
}

/// Enters the code, publishes one activation more, and publishes one less: seven steps a turn.
fn changes(seat: &mut ThreadSeat, board: &Board, code: CodeId, turns: u64)
    requires board { seat.old.board ≡ board.now }
    requires slot { code.slot < board.now.slots }
    requires published { seat.old.seen.stored ≢ 0 }
    requires uncounted { how_often seat.old.seen.counted code ≡ 0 }
    ensures board { seat.new.board ≡ seat.old.board }
{
    for turn in 0..turns {
        if seat.enter(board, code) {
            seat.read_moment(board);
            seat.count_change(board, code, 1);
            seat.end_publication(board);
            seat.read_moment(board);
            seat.count_change(board, code, -1);
            seat.end_publication(board);
        }
    }
}

/// Looks at a place for a code that is not entrant.
fn looks(keeper: &mut Keeper, board: &Board, code: CodeId, turns: u64) -> u64
    requires board { keeper.old.board ≡ board.now }
    requires slot { (code.slot < board.now.slots) × (0 < board.now.places) }
    requires code { IsIn keeper.old.seen code NotEntrant }
    ensures board { keeper.new.board ≡ keeper.old.board }
    ensures code { IsIn keeper.new.seen code NotEntrant }
{
    let mut passed = 0u64;
    for turn in 0..turns {
        if keeper.look(board, code, 0) {
            passed = passed.wrapping_add(1);
        }
    }
    passed
}

/// Weighs a code that is not entrant.
fn weighs(keeper: &mut Keeper, board: &Board, code: CodeId, turns: u64) -> u64
    requires board { keeper.old.board ≡ board.now }
    requires slot { code.slot < board.now.slots }
    requires code { IsIn keeper.old.seen code NotEntrant }
    ensures board { keeper.new.board ≡ keeper.old.board }
    ensures code { IsIn keeper.new.seen code NotEntrant }
{
    let mut clear = 0u64;
    for turn in 0..turns {
        if matches!(keeper.weigh(board, code), Weighed::Clear) {
            clear = clear.wrapping_add(1);
        }
    }
    clear
}

/// A thread's calls, on a board of its own.
pub fn time_seat(rt: &HostRuntime, shown: bool, turns: u64) -> io::Result<u64> {
    let code = CodeId { slot: 0, serial: 1 };
    let (board, mut keeper, mut seats) = Board::new(rt.alloc(), 4, 4)?;
    keeper.install(&board, code);
    let mut seat = seats.swap_remove(0);
    seat.read_moment(&board);
    seat.end_publication(&board);
    let start = Instant::now(rt);
    let hits = enters(&mut seat, &board, code, turns);
    report(rt, shown, "enter", start, turns)?;
    let start = Instant::now(rt);
    publishes(&mut seat, &board, code, turns);
    report(rt, shown, "publication of no change, 2 steps", start, turns)?;
    let start = Instant::now(rt);
    changes(&mut seat, &board, code, turns);
    let told = "enter and two publications of one change, 7 steps";
    report(rt, shown, told, start, turns)?;
    Ok(hits)
}

/// The keeper's calls, on a board of its own whose one place is vacant.
pub fn time_keeper(rt: &HostRuntime, shown: bool, turns: u64) -> io::Result<u64> {
    let code = CodeId { slot: 0, serial: 1 };
    let (board, mut keeper, _seats) = Board::new(rt.alloc(), 1, 4)?;
    keeper.install(&board, code);
    keeper.invalidate(&board, code);
    let start = Instant::now(rt);
    let passed = looks(&mut keeper, &board, code, turns);
    report(rt, shown, "look", start, turns)?;
    let start = Instant::now(rt);
    let clear = weighs(&mut keeper, &board, code, turns);
    report(rt, shown, "weigh", start, turns)?;
    Ok(passed.wrapping_add(clear))
}
