// The life of a thread in one body.
ghost use Rattle.std.specs.Prelude.{◌≡◌, ◌≢◌, ◌<◌, ◌+◌, [], length};
ghost use Rattle.board.specs.Boards.{first_keeper, first_seat};
ghost use Rattle.poll.specs.Rows.{first_poller, full_armer};
ghost use Rattle.operations.specs.Asks.{reply};

use super::made::{one_poller, one_seat};
use board::{Board, Keeper, ThreadSeat};
use bodies::{Body, Called, Name, Seats, SpareSeat};
use frames::CodeId;
use frames::image::Image;
use operations::Ask;
use operations::job::{Call, HandshakeOp, Job};
use poll::{Armer, PollRow, Poller};
use std::alloc::{AllocError, Global};
use std::marker::Brand;
use std::process::Abort;
use std::test::*;

const C: CodeId = CodeId { slot: 0, serial: 1 };

// Returns from all methods.
fn return_all<N: Name>(body: &mut Body<N>)
    ensures empty { body.new.image.frames ≡ [] }
{
    while body.depth() > 0 {
        let _frame = body.ret();
    }
}

// Calls a method with a hint. Answers the serial of the code that was entered, 0 if it is interpreted.
fn serial_called<N: Name>(board: &Board, body: &mut Body<N>) -> u64
    requires board { (board.now ≡ N.board) × (board.now.slots ≡ 1) }
    requires published { body.old.seat.stored ≢ 0 }
    requires depth { length body.old.image.frames < 256 }
    ensures published { body.new.seat.stored ≢ 0 }
    ensures depth { length body.new.image.frames ≡ length body.old.image.frames + 1 }
{
    match body.call(board, 0, Some(C)) {
        Called::Compiled(serial) => serial,
        Called::Interpreted => 0,
    }
}

// Publishes, calls with a code as the hint and without one, and with the code after its invalidation. Answers whether each call ran as
// it should.
fn calls<N: Name>(board: &Board, keeper: &mut Keeper, body: &mut Body<N>) -> bool
    requires board { (board.now ≡ N.board) × (board.now.slots ≡ 1) }
    requires keeper { keeper.old ≡ first_keeper board.now }
    requires empty { body.old.image.frames ≡ [] }
{
    keeper.install(board, C);
    body.publish(board);
    let first = serial_called(board, body);
    let is_out = matches!(body.call(board, 1, None), Called::Interpreted);
    let is_deep = body.depth() == 2 && !body.is_settled();
    keeper.invalidate(board, C);
    let last = serial_called(board, body);
    first == 1 && is_out && is_deep && last == 0
}

// Polls before and after its place is armed. Answers whether the first poll finds nothing and the second the number.
fn is_asked<N: Name>(row: &PollRow, armer: &mut Armer, body: &mut Body<N>) -> bool
    requires row { row.now ≡ N.poll_row }
    requires armer { armer.old ≡ full_armer row.now 1 }
{
    let first = body.poll(row);
    armer.arm(row, 0, 1);
    first == 0 && body.poll(row) == 1
}

// A thread publishes, calls with a hint and without one, serves an operation, returns, and gives its place up.
fn live<N: Name, J: HandshakeOp, R: Abort>(
    rt: &R,
    alloc: Global,
    board: Board,
    keeper: Keeper,
    seat: ThreadSeat,
    row: PollRow,
    armer: Armer,
    poller: Poller,
    job: J,
) -> Result<(), AllocError>
    requires names { (board ≡ N.board) × (row ≡ N.poll_row) }
    requires sizes { board.slots ≡ 1 }
    requires seats { (keeper ≡ first_keeper board) × (seat ≡ first_seat board 0) }
    requires pollers { (armer ≡ full_armer row 1) × (poller ≡ first_poller row 0) }
{
    let mut keeper = keeper;
    let mut armer = armer;
    let spare: SpareSeat<N> = SpareSeat::new(Seats::new(alloc, seat, poller)?);
    let mut body = Body::new(7, Image::new(alloc)?, spare);
    assert!(rt; calls(&board, &mut keeper, &mut body));
    assert!(rt; is_asked(&row, &mut armer, &mut body));
    body.publish(&board);
    assert!(rt; body.is_settled() && board.peek_count(0) == 1);
    assert!(rt; body.run(job).reply() == 3);
    assert!(rt; body.clear(&row, 1) && body.poll(&row) == 0);
    return_all(&mut body);
    body.publish(&board);
    let spare = body.vacate(&board);
    assert!(rt; spare.place() == 0 && board.peek_count(0) == 0);
    Ok(())
}

#[test]
fn a_thread_publishes_calls_serves_and_gives_its_place_up(rt: HostRuntime) -> Result<(), Fail> {
    let (board, keeper, seat) = one_seat(rt.alloc(), 1, 1)?;
    let (row, armer, poller) = one_poller(rt.alloc())?;
    let call: Call = Box::new(
        rt.alloc(),
        |image: &Image| -> u64
            ensures { result ≡ reply Ask.Depth image.now.frames }
        { image.depth() as u64 },
    )?;
    let job = Job::new(7, Ask::Depth, call);
    live::<Brand, Job, HostRuntime>(
        &rt,
        rt.alloc(),
        board,
        keeper,
        seat,
        row,
        armer,
        poller,
        job,
    )?;
    Ok(())
}
