// A publication stops at each of its boundaries, while another thread makes the code not entrant and looks.
ghost use Rattle.std.specs.Prelude.{◌≡◌, ◌≢◌, [], true, IfOk};
ghost use Rattle.frames.specs.declared.board_rule.EntryState.TheVariants.{InUse, NotEntrant};
ghost use Rattle.frames.specs.BoardRule.{code};
ghost use Rattle.frames.specs.BoardViews.{IsIn, has_code};

use super::made::one_seat;
use board::{Board, Keeper, ThreadSeat, Weighed};
use frames::CodeId;
use std::alloc::{AllocError, Global};
use std::process::Abort;
use std::sync::atomic::{AtomicBool, Ordering};
use std::test::Fail;
use std::thread::{Threads, join, yield_now};

const C: CodeId = CodeId { slot: 0, serial: 1 };

const D: CodeId = CodeId { slot: 1, serial: 2 };

// How often a thread yields at most while it waits for the other.
const TURNS: u32 = 1_000_000;

// The boundary at which a publisher stops until the other thread has looked. Boundary 0 is before the load of the global moment, and
// boundary 4 after the store of the place's moment.
#[derive(Drop)]
struct Stop {
    boundary: u32,
    is_there: AtomicBool,
    may_go_on: AtomicBool,
    missed: AtomicBool,
}

impl Stop {
    fn at(boundary: u32) -> Stop {
        Stop {
            boundary,
            is_there: AtomicBool::new(false),
            may_go_on: AtomicBool::new(false),
            missed: AtomicBool::new(false),
        }
    }

    // Yields until the flag is raised. After too many turns it notes that the other thread was missed.
    fn wait_for(&self, flag: &AtomicBool) {
        for _ in 0..TURNS {
            if flag.load(Ordering::SeqCst) {
                return;
            }
            yield_now();
        }
        self.missed.store(true, Ordering::SeqCst);
    }

    // The publisher is at this boundary, and stops there if it is the chosen one.
    fn pass(&self, boundary: u32) {
        if boundary == self.boundary {
            self.is_there.store(true, Ordering::SeqCst);
            self.wait_for(&self.may_go_on);
        }
    }

    fn wait_for_publisher(&self) {
        self.wait_for(&self.is_there);
    }

    fn let_go_on(&self) {
        self.may_go_on.store(true, Ordering::SeqCst);
    }

    fn was_missed(&self) -> bool {
        self.missed.load(Ordering::SeqCst)
    }
}

// A board of two slots with the codes C and D in use, and one place, whose seat has ended a publication.
fn two_codes(alloc: Global) -> Result<(Board, Keeper, ThreadSeat), AllocError>
    ensures board { IfOk result (λ t. (t.0.slots ≡ 2) × (t.0.places ≡ 1)) }
    ensures keeper { IfOk result (λ t. (t.1.board ≡ t.0) × IsIn t.1.seen (code 0 1) InUse) }
    ensures seat { IfOk result (λ t. (t.2.board ≡ t.0) × (t.2.seen.stored ≢ 0)
        × (t.2.seen.counted ≡ [])) }
{
    let (board, mut keeper, mut seat) = one_seat(alloc, 1, 2)?;
    keeper.install(&board, C);
    keeper.install(&board, D);
    seat.read_moment(&board);
    seat.end_publication(&board);
    Ok((board, keeper, seat))
}

// Publishes one activation of C and one of D, and stops at the chosen boundary.
fn publish(board: &Board, seat: &mut ThreadSeat, stop: &Stop)
    requires board { (seat.old.board ≡ board.now) × (board.now.slots ≡ 2) }
    requires fresh { (has_code seat.old.seen.fresh (code 0 1) ≡ true)
        × (has_code seat.old.seen.fresh (code 1 2) ≡ true) }
    requires uncounted { seat.old.seen.counted ≡ [] }
    ensures board { seat.new.board ≡ seat.old.board }
{
    stop.pass(0);
    seat.read_moment(board);
    stop.pass(1);
    seat.count_change(board, C, 1);
    stop.pass(2);
    seat.count_change(board, D, 1);
    stop.pass(3);
    seat.end_publication(board);
    stop.pass(4);
}

// Invalidates C, makes a round, and looks at place 0. Answers whether the round succeeded, and whether the place is covered for C.
fn invalidate_and_look(board: &Board, keeper: &mut Keeper) -> (bool, bool)
    requires board { keeper.old.board ≡ board.now }
    requires sizes { (board.now.slots ≡ 2) × (board.now.places ≡ 1) }
    requires code { IsIn keeper.old.seen (code 0 1) InUse }
    ensures board { keeper.new.board ≡ keeper.old.board }
    ensures code { IsIn keeper.new.seen (code 0 1) NotEntrant }
{
    keeper.invalidate(board, C);
    let went_round = keeper.round(board).is_ok();
    (went_round, keeper.look(board, C, 0))
}

// One thread publishes and stops; the other then invalidates and looks, and answers what it found.
fn meet<R: Threads + Sync>(
    rt: &R,
    board: &Board,
    keeper: Keeper,
    seat: ThreadSeat,
    stop: &Stop,
) -> (Keeper, ThreadSeat, (bool, bool))
    requires sizes { (board.now.slots ≡ 2) × (board.now.places ≡ 1) }
    requires keeper { (keeper.board ≡ board.now) × IsIn keeper.seen (code 0 1) InUse }
    requires seat { seat.board ≡ board.now }
    requires fresh { (has_code seat.seen.fresh (code 0 1) ≡ true)
        × (has_code seat.seen.fresh (code 1 2) ≡ true) }
    requires uncounted { seat.seen.counted ≡ [] }

    ensures keeper { (result.0.board ≡ board.now) × IsIn result.0.seen (code 0 1) NotEntrant }
    ensures seat { result.1.board ≡ board.now }
{
    let ((keeper, found), seat) = join(
        rt,
        move || -> (Keeper, (bool, bool))
            requires { (board.now.slots ≡ 2) × (board.now.places ≡ 1) × (keeper.board ≡ board.now)
                × IsIn keeper.seen (code 0 1) InUse }
            ensures { (result.0.board ≡ board.entry.now)
                × IsIn result.0.seen (code 0 1) NotEntrant }
        {
            let mut keeper = keeper;
            stop.wait_for_publisher();
            let found = invalidate_and_look(board, &mut keeper);
            stop.let_go_on();
            (keeper, found)
        },
        move || -> ThreadSeat
            requires { (board.now.slots ≡ 2) × (seat.board ≡ board.now)
                × (has_code seat.seen.fresh (code 0 1) ≡ true)
                × (has_code seat.seen.fresh (code 1 2) ≡ true) × (seat.seen.counted ≡ []) }
            ensures { result.board ≡ board.entry.now }
        {
            let mut seat = seat;
            publish(board, &mut seat, stop);
            seat
        },
    );
    (keeper, seat, found)
}

// Whether the look passes: at once, or else only after one more publication. The code then has one activation.
fn passes_then(board: &Board, keeper: &mut Keeper, seat: &mut ThreadSeat, is_at_once: bool) -> bool
    requires boards { (keeper.old.board ≡ board.now) × (seat.old.board ≡ board.now) }
    requires sizes { (board.now.slots ≡ 2) × (board.now.places ≡ 1) }
    requires code { IsIn keeper.old.seen (code 0 1) NotEntrant }
{
    if !is_at_once {
        if keeper.look(board, C, 0) || !matches!(keeper.weigh(board, C), Weighed::NotLooked(0)) {
            return false;
        }
        seat.read_moment(board);
        seat.end_publication(board);
    }
    keeper.look(board, C, 0) && matches!(keeper.weigh(board, C), Weighed::Used(1))
}

// A publication stops at this boundary, and the other thread looks again after it has ended. The look passes only if the publication
// reads the moment after the round; otherwise it needs one more publication.
fn publication_stopped_at<R: Threads + Sync + Abort>(
    rt: &R,
    alloc: Global,
    boundary: u32,
) -> Result<(), AllocError> {
    let (board, keeper, mut seat) = two_codes(alloc)?;
    assert!(rt; seat.enter(&board, C));
    assert!(rt; seat.enter(&board, D));
    let stop = Stop::at(boundary);
    let (mut keeper, mut seat, (went_round, is_past)) = meet(rt, &board, keeper, seat, &stop);
    assert!(rt; !stop.was_missed() && went_round && !is_past, "{boundary}");
    assert!(rt;
        passes_then(&board, &mut keeper, &mut seat, boundary == 0),
        "{boundary}"
    );
    Ok(())
}

#[test]
fn a_publication_is_looked_at_from_another_thread_at_each_boundary(
    rt: HostRuntime,
) -> Result<(), Fail> {
    for boundary in 0..5 {
        publication_stopped_at(&rt, rt.alloc(), boundary)?;
    }
    Ok(())
}
