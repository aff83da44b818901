//! The calls of the desk by their words. They return the result of the call as a number, and a reason for a refusal only if memory is
//! refused or the history is full.
ghost use Rattle.std.specs.Prelude.{◌≡◌};
ghost use Rattle.frames.specs.ImageView.{IsSettled};

use board::{Board, Weighed};
use bodies::{Body, Name};
use desk::{AskFault, CodeFault, Desk, NotReclaimed, ReclaimFault, Refused, StartFault};
use operations::job::HandshakeOp;
use operations::{Ask, Request, Targets};
use std::alloc::{AllocError, Global};

/// The result of a call that is refused for want of memory.
pub const NO_MEMORY: u64 = u64::MAX;

/// The result of a call that is refused since the history is full.
pub const HISTORY_FULL: u64 = u64::MAX - 1;

// The result of a call that is refused for another reason.
const REFUSED: u64 = 0;

// The result of a call that succeeds and returns no number.
const DONE: u64 = 1;

/// A call: its word and its argument.
#[derive(Drop)]
pub struct Step<'a> {
    pub call: &'a str,
    pub argument: u64,
}

// Makes a call. Of a series of calls it notes whether one was refused for want of memory and made again.
pub fn called<N: Name, J: HandshakeOp>(
    alloc: Global,
    board: &Board,
    desk: &mut Desk<N, J>,
    body: &Body<N>,
    lists: &mut Vec<Vec<J>>,
    step: &Step<'_>,
    is_again: &mut bool,
) -> u64
    requires board { board.now ≡ N.board }
    requires places { N.board.places ≡ 1 }
    requires name { body.now.name ≡ 1 }
    requires settled { IsSettled body.now.image }
{
    let argument = step.argument;
    match step.call {
        "start" => start(desk),
        "exit" => exit(desk, argument),
        "pass" => pass(desk, argument, is_again),
        "live" => live(desk),
        "census" => census(alloc, desk),
        "censuses" => censuses(alloc, desk, argument, is_again),
        "handshake" => handshake(alloc, desk, lists),
        "open" => open(desk),
        "answer" => answer(desk, body, argument),
        "replies" => replies(desk, argument),
        "kept" => kept(desk, argument),
        "forget" => forget(desk),
        "operate" => operate(alloc, desk),
        "close" => close(alloc, desk, argument),
        _ => called_of_code(alloc, board, desk, step.call, argument),
    }
}

// Makes the call about a code that has this word.
fn called_of_code<N: Name, J: HandshakeOp>(
    alloc: Global,
    board: &Board,
    desk: &mut Desk<N, J>,
    call: &str,
    argument: u64,
) -> u64
    requires board { board.now ≡ N.board }
    requires places { N.board.places ≡ 1 }
{
    match call {
        "install" => install(board, desk, argument),
        "invalidate" => invalidate(board, desk, argument),
        "reclaim" => reclaim(alloc, board, desk, argument),
        "look" => look(board, desk, argument),
        "weigh" => weigh(board, desk, argument),
        "free" => free(board, desk, argument),
        _ => NO_MEMORY,
    }
}

fn done_if(is_done: bool) -> u64 {
    if is_done { DONE } else { REFUSED }
}

fn start<N: Name, J: HandshakeOp>(desk: &mut Desk<N, J>) -> u64 {
    match desk.start(true) {
        Ok((name, _, _)) => name,
        Err(StartFault::NoMemory) => NO_MEMORY,
        Err(StartFault::HistoryFull) => HISTORY_FULL,
        Err(_) => REFUSED,
    }
}

fn exit<N: Name, J: HandshakeOp>(desk: &mut Desk<N, J>, name: u64) -> u64 {
    done_if(desk.exit(name).is_ok())
}

// This many threads start and exit, one after the other. Answers the name of the last.
fn pass<N: Name, J: HandshakeOp>(desk: &mut Desk<N, J>, count: u64, is_again: &mut bool) -> u64 {
    let mut name = REFUSED;
    for _ in 0..count {
        name = start(desk);
        if name == NO_MEMORY {
            *is_again = true;
            name = start(desk);
        }
        if exit(desk, name) == REFUSED {
            return REFUSED;
        }
    }
    name
}

fn live<N: Name, J: HandshakeOp>(desk: &Desk<N, J>) -> u64 {
    match desk.live() {
        Ok(names) => names.len() as u64,
        Err(_) => NO_MEMORY,
    }
}

fn census<N: Name, J: HandshakeOp>(alloc: Global, desk: &mut Desk<N, J>) -> u64 {
    match desk.submit(Request::Census, Vec::new(alloc)) {
        Ok((number, _)) => number,
        Err(Refused { fault, .. }) => refused_to_ask(fault),
    }
}

fn refused_to_ask(fault: AskFault) -> u64 {
    match fault {
        AskFault::NoMemory => NO_MEMORY,
        AskFault::HistoryFull => HISTORY_FULL,
        _ => REFUSED,
    }
}

// Submits this many censuses, one after the other. Answers the last number.
fn censuses<N: Name, J: HandshakeOp>(
    alloc: Global,
    desk: &mut Desk<N, J>,
    count: u64,
    is_again: &mut bool,
) -> u64 {
    let mut number = REFUSED;
    for _ in 0..count {
        number = census(alloc, desk);
        if number == NO_MEMORY {
            *is_again = true;
            number = census(alloc, desk);
        }
    }
    number
}

// A handshake of thread 1.
fn of_first(alloc: Global) -> Result<Request, AllocError> {
    let names = Vec::from_array(alloc, [1])?;
    Ok(Request::Handshake {
        targets: Targets::from_vec(names),
        ask: Ask::Depth,
    })
}

// Submits a handshake of thread 1 with the last list of jobs. If memory is refused, the list is put back.
fn handshake<N: Name, J: HandshakeOp>(
    alloc: Global,
    desk: &mut Desk<N, J>,
    lists: &mut Vec<Vec<J>>,
) -> u64 {
    let Ok(request) = of_first(alloc) else {
        return NO_MEMORY;
    };
    let Some(jobs) = lists.pop() else {
        return REFUSED;
    };
    match desk.submit(request, jobs) {
        Ok((number, _)) => number,
        Err(Refused { fault, jobs }) => {
            if fault == AskFault::NoMemory && lists.push(jobs).is_ok() {
                NO_MEMORY
            } else {
                REFUSED
            }
        }
    }
}

fn open<N: Name, J: HandshakeOp>(desk: &mut Desk<N, J>) -> u64 {
    match desk.open() {
        Ok((number, _)) => number,
        Err(_) => REFUSED,
    }
}

// Thread 1 serves the open handshake of this number by its job.
fn answer<N: Name, J: HandshakeOp>(desk: &mut Desk<N, J>, body: &Body<N>, number: u64) -> u64
    requires name { body.now.name ≡ 1 }
    requires settled { IsSettled body.now.image }
{
    let Some(job) = desk.take_job(number, 1) else {
        return REFUSED;
    };
    let done = body.run(job);
    done_if(desk.finish(body, done).is_ok())
}

fn replies<N: Name, J: HandshakeOp>(desk: &Desk<N, J>, number: u64) -> u64 {
    match desk.replies(number) {
        Ok(replies) => replies.len() as u64,
        Err(_) => NO_MEMORY,
    }
}

// One more than the number of replies, unless they are forgotten.
fn kept<N: Name, J: HandshakeOp>(desk: &Desk<N, J>, number: u64) -> u64 {
    match desk.kept_replies(number) {
        Ok(Some(replies)) => (replies.len() as u64).saturating_add(1),
        Ok(None) => REFUSED,
        Err(_) => NO_MEMORY,
    }
}

fn forget<N: Name, J: HandshakeOp>(desk: &mut Desk<N, J>) -> u64 {
    desk.forget();
    DONE
}

// Operates the open census over no body.
fn operate<N: Name, J: HandshakeOp>(alloc: Global, desk: &mut Desk<N, J>) -> u64 {
    let none: Vec<Body<N>> = Vec::new(alloc);
    let list: Vec<(u64, u32)> = Vec::new(alloc);
    match desk.operate(none.as_slice(), &list) {
        Ok((number, _)) => number,
        Err(_) => REFUSED,
    }
}

// Closes the open request of this number, or the oldest if it is 0. No body is held.
fn close<N: Name, J: HandshakeOp>(alloc: Global, desk: &mut Desk<N, J>, number: u64) -> u64 {
    let chosen = if number == 0 { None } else { Some(number) };
    let none: Vec<Body<N>> = Vec::new(alloc);
    match desk.close(chosen, none.as_slice()) {
        Ok((number, _, _)) => number,
        Err(_) => REFUSED,
    }
}

fn install<N: Name, J: HandshakeOp>(board: &Board, desk: &mut Desk<N, J>, method: u64) -> u64
    requires { board.now ≡ N.board }
{
    match desk.install(board, method) {
        Ok((installed, _)) => installed.code.serial,
        Err(CodeFault::NoMemory) => NO_MEMORY,
        Err(CodeFault::HistoryFull) => HISTORY_FULL,
        Err(_) => REFUSED,
    }
}

fn invalidate<N: Name, J: HandshakeOp>(board: &Board, desk: &mut Desk<N, J>, serial: u64) -> u64
    requires { board.now ≡ N.board }
{
    done_if(desk.invalidate(board, serial).is_ok())
}

// Begins a reclaim with a census that waits.
fn reclaim<N: Name, J: HandshakeOp>(
    alloc: Global,
    board: &Board,
    desk: &mut Desk<N, J>,
    serial: u64,
) -> u64
    requires { board.now ≡ N.board }
{
    match desk.begin_reclaim(board, serial, Some(Request::Census), Vec::new(alloc)) {
        Ok(Some((number, _))) => number,
        Err(
            NotReclaimed {
                fault: ReclaimFault::Ask(AskFault::NoMemory),
                ..
            },
        ) => NO_MEMORY,
        _ => REFUSED,
    }
}

fn look<N: Name, J: HandshakeOp>(board: &Board, desk: &mut Desk<N, J>, serial: u64) -> u64
    requires board { board.now ≡ N.board }
    requires places { N.board.places ≡ 1 }
{
    done_if(matches!(desk.look(board, serial, 0), Ok(true)))
}

fn weigh<N: Name, J: HandshakeOp>(board: &Board, desk: &mut Desk<N, J>, serial: u64) -> u64
    requires { board.now ≡ N.board }
{
    done_if(matches!(desk.weigh(board, serial), Ok((Weighed::Clear, _, Some(_)))))
}

fn free<N: Name, J: HandshakeOp>(board: &Board, desk: &mut Desk<N, J>, serial: u64) -> u64
    requires { board.now ≡ N.board }
{
    done_if(desk.free(board, serial).is_ok())
}
