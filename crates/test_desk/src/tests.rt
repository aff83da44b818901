//! Tests of the desk in one thread. A test is a table of rows. A row has calls, each with its argument and its result: a name, an
//! operation number, a serial, a count, or 1 if the call returns nothing. A refusal is 0, or `full` if the history is full.
//!
//! Contracts say for each state why a call is refused, and otherwise what it enters and answers. No clause says that there is memory, nor
//! which values another place's moment and a count have. So a table tests that each call can succeed, and the limits: the most waiting
//! requests, and the most entries of a history.
//!
//! A call that is refused for want of memory is made again. `tests/hostile.py` refuses any one growth of memory: a test then passes, or
//! ends with the error of its setup, and no answer changes. A test that passes prints which call was refused.
ghost use Rattle.std.specs.Prelude.{◌≡◌};
ghost use Rattle.board.specs.Boards.{first_keeper, first_seat};
ghost use Rattle.poll.specs.Rows.{first_poller};
ghost use Rattle.frames.specs.ImageView.{IsSettled};

use self::calls::{HISTORY_FULL, NO_MEMORY, Step, called};
use self::made::{first_body, small_board, small_desk, small_row};
use board::{Board, Keeper, ThreadSeat};
use bodies::{Body, Name};
use desk::Desk;
use operations::Ask;
use operations::job::{HandshakeOp, Job};
use poll::{PollRow, Poller};
use std::alloc::{AllocError, Global};
use std::marker::Brand;
use std::process::Abort;
use std::test::*;
use test_support::{Asked, Scenario, each, with_jobs};

mod calls;
mod made;

// The most handshakes of a table.
const HANDSHAKES: usize = 5;

// The tables by name. A function with a `Brand` takes no text.
#[derive(Drop)]
enum Table {
    SixtyFour,
    Answered,
    Four,
    Reclaimed,
    Over,
    Full,
    Forgotten,
    GoesOn,
}

impl Table {
    fn rows(&self) -> &'static str {
        match self {
            Table::SixtyFour => SIXTY_FOUR,
            Table::Answered => ANSWERED,
            Table::Four => FOUR,
            Table::Reclaimed => RECLAIMED,
            Table::Over => OVER,
            Table::Full => FULL,
            Table::Forgotten => FORGOTTEN,
            Table::GoesOn => GOES_ON,
        }
    }
}

// The word after this many others; none if there are fewer.
fn word_at(text: &str, before: usize) -> &str {
    match text.split_whitespace().nth(before) {
        Some(word) => word,
        None => "",
    }
}

fn number_of(word: &str) -> u64 {
    if word == "full" {
        return HISTORY_FULL;
    }
    let mut number: u64 = 0;
    for digit in word.bytes() {
        number = number
            .saturating_mul(10)
            .saturating_add(u64::from(digit.saturating_sub(b'0')));
    }
    number
}

// Reads a text such as `close 0 = 1`: the call, and its result.
fn step_of(text: &str) -> (Step<'_>, u64) {
    let step = Step {
        call: word_at(text, 0),
        argument: number_of(word_at(text, 1)),
    };
    (step, number_of(word_at(text, 3)))
}

// Makes the calls of a table. A call that is refused for want of memory is made again. Answers the last such call.
fn play<N: Name, J: HandshakeOp, R: Abort>(
    rt: &R,
    alloc: Global,
    board: &Board,
    desk: &mut Desk<N, J>,
    body: &Body<N>,
    lists: &mut Vec<Vec<J>>,
    table: &'static str,
) -> Option<&'static str>
    requires board { board.now ≡ N.board }
    requires places { N.board.places ≡ 1 }
    requires name { body.now.name ≡ 1 }
    requires settled { IsSettled body.now.image }
{
    let mut refused = None;
    for row in table.lines() {
        for text in row.split("; ") {
            let (step, answer) = step_of(text);
            let mut is_again = false;
            let mut given = called(alloc, board, desk, body, lists, &step, &mut is_again);
            if given == NO_MEMORY {
                is_again = true;
                given = called(alloc, board, desk, body, lists, &step, &mut is_again);
            }
            assert!(rt; given == answer, "{text}: {given}");
            if is_again {
                refused = Some(text);
            }
        }
    }
    refused
}

// Makes a desk with the body of thread 1, and plays the table on it. Answers what was refused for want of memory and made again.
fn play_on_desk<N: Name, J: HandshakeOp, R: Abort>(
    rt: &R,
    alloc: Global,
    table: Table,
    lists: Vec<Vec<J>>,
    board: Board,
    keeper: Keeper,
    seat: ThreadSeat,
    row: PollRow,
    poller: Poller,
) -> Result<Option<&'static str>, AllocError>
    requires names { (board ≡ N.board) × (row ≡ N.poll_row) }
    requires seats { (keeper ≡ first_keeper board) × (seat ≡ first_seat board 0) }
    requires poller { poller ≡ first_poller row 0 }
    requires sizes { (N.board.slots ≡ 2) × (N.board.places ≡ 1) }
{
    let _row = row;
    let mut lists = lists;
    let (mut desk, is_second) = small_desk::<N, J>(alloc, &board, keeper)?;
    let body = first_body::<N>(alloc, seat, poller)?;
    let refused = play(
        rt,
        alloc,
        &board,
        &mut desk,
        &body,
        &mut lists,
        table.rows(),
    );
    Ok(if is_second { Some("the desk") } else { refused })
}

impl<R: Abort> Scenario<R> for Table {
    type Out = Option<&'static str>;

    fn play(
        self,
        rt: &R,
        alloc: Global,
        lists: Vec<Vec<Job>>,
    ) -> Result<Option<&'static str>, AllocError> {
        let (board, keeper, seat) = small_board(alloc)?;
        let (row, poller) = small_row(alloc)?;
        play_on_desk::<Brand, Job, R>(rt, alloc, self, lists, board, keeper, seat, row, poller)
    }
}

// One job for thread 1, which asks for its depth, for each handshake of a table.
fn asked(alloc: Global) -> Result<Vec<Vec<Asked>>, AllocError> {
    let mut lists = Vec::with_capacity(alloc, HANDSHAKES)?;
    for _ in 0..HANDSHAKES {
        let list = each(alloc, 1, Ask::Depth)?;
        if lists.push(list).is_err() {
            return Err(AllocError);
        }
    }
    Ok(lists)
}

// Plays a table, and prints what was refused.
fn check<R: Abort>(out: &HostRuntime, rt: &R, table: Table) -> Result<(), Fail> {
    let lists = asked(out.alloc())?;
    match with_jobs(rt, out.alloc(), lists.as_slice(), table)? {
        None => println!(out; "no growth was refused")?,
        Some(what) => println!(out; "{what} was refused")?,
    }
    Ok(())
}

// The queue takes its most requests, and one more after the first is opened. While that census is open no thread starts; it is closed
// after it is operated.
const SIXTY_FOUR: &str = "\
censuses 64 = 64; census 0 = 0
open 0 = 1; open 0 = 0; start 0 = 0; close 0 = 0; close 2 = 0; operate 0 = 1; operate 0 = 0
close 1 = 1; census 0 = 65";

#[test]
fn sixty_four_requests_wait(rt: HostRuntime) -> Result<(), Fail> {
    check(&rt, &rt, Table::SixtyFour)
}

// A thread starts, is the target of a handshake, replies once, and exits.
const ANSWERED: &str = "\
start 0 = 1; start 0 = 0; live 0 = 1; handshake 0 = 1; answer 1 = 0; open 0 = 1; close 0 = 0
answer 1 = 1; answer 1 = 0; replies 0 = 0; replies 1 = 1; replies 2 = 0; close 0 = 1
exit 1 = 1; exit 1 = 0; live 0 = 0";

#[test]
fn a_handshake_is_answered_once(rt: HostRuntime) -> Result<(), Fail> {
    check(&rt, &rt, Table::Answered)
}

// Four handshakes are open at once. Their target replies in the order of their numbers, and they close in any order. A handshake whose
// target is gone closes without a reply. The fifth opens when there is room, and the census that waits after it opens when nothing else is
// open.
const FOUR: &str = "\
start 0 = 1; handshake 0 = 1; handshake 0 = 2; handshake 0 = 3; handshake 0 = 4; handshake 0 = 5
census 0 = 6; open 0 = 1; open 0 = 2; open 0 = 3; open 0 = 4; open 0 = 0
answer 1 = 1; answer 2 = 1; close 5 = 0; close 2 = 2; close 3 = 0; close 0 = 1
open 0 = 5; open 0 = 0
exit 1 = 1; close 5 = 5; open 0 = 0; close 4 = 4; close 0 = 3
open 0 = 6; start 0 = 0; operate 0 = 6; close 0 = 6; start 0 = 2";

#[test]
fn four_handshakes_are_answered_in_order_and_closed_in_any(rt: HostRuntime) -> Result<(), Fail> {
    check(&rt, &rt, Table::Four)
}

// A code is installed and invalidated, and reclaimed with a census.
const RECLAIMED: &str = "\
install 0 = 1; weigh 1 = 0; invalidate 1 = 1; weigh 1 = 0
reclaim 1 = 1; reclaim 1 = 0; look 1 = 1; weigh 1 = 1; free 1 = 1; free 1 = 0; install 0 = 2";

#[test]
fn a_code_is_reclaimed(rt: HostRuntime) -> Result<(), Fail> {
    check(&rt, &rt, Table::Reclaimed)
}

// A code is installed over another, and no slot is free until the old one is reclaimed. Then the next code is installed over the new one.
const OVER: &str = "\
install 0 = 1; install 0 = 2; install 0 = 0; invalidate 1 = 0
reclaim 1 = 1; look 1 = 1; weigh 1 = 1; free 1 = 1; install 0 = 3";

#[test]
fn a_code_is_installed_over_another(rt: HostRuntime) -> Result<(), Fail> {
    check(&rt, &rt, Table::Over)
}

// A history takes no more entries than its limit: one more thread starts and exits, and then none.
const FULL: &str = "\
pass 499999 = 499999; census 0 = full
pass 1 = 500000; start 0 = full; install 0 = full; census 0 = full";

#[test]
fn a_full_history_takes_no_entry(rt: HostRuntime) -> Result<(), Fail> {
    check(&rt, &rt, Table::Full)
}

// Closed operations are forgotten. What is open or waits isn't, and is answered and closed as before.
const FORGOTTEN: &str = "\
start 0 = 1; handshake 0 = 1; handshake 0 = 2; handshake 0 = 3
open 0 = 1; open 0 = 2; answer 1 = 1; answer 2 = 1; close 1 = 1
forget 0 = 1; replies 1 = 0; kept 1 = 0; replies 2 = 1; kept 2 = 2
open 0 = 3; close 2 = 2; answer 3 = 1
forget 0 = 1; kept 2 = 0; kept 3 = 2; close 3 = 3; handshake 0 = 4
forget 0 = 1; kept 3 = 0; open 0 = 4; answer 4 = 1; kept 4 = 2; close 0 = 4
forget 0 = 1; kept 4 = 0; exit 1 = 1; start 0 = 2";

#[test]
fn what_is_forgotten_has_no_replies(rt: HostRuntime) -> Result<(), Fail> {
    check(&rt, &rt, Table::Forgotten)
}

// A full history takes entries again after it is forgotten: the test makes three times as many entries as a history can have.
const GOES_ON: &str = "\
pass 500000 = 500000; start 0 = full; install 0 = full; census 0 = full
forget 0 = 1; pass 500000 = 1000000; start 0 = full
forget 0 = 1; pass 500000 = 1500000; start 0 = full
forget 0 = 1; start 0 = 1500001; install 0 = 1; census 0 = 1; open 0 = 1";

#[test]
fn a_full_history_that_is_forgotten_goes_on(rt: HostRuntime) -> Result<(), Fail> {
    check(&rt, &rt, Table::GoesOn)
}
