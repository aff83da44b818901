//! The most threads that a system may have call and return while a thousand handshakes run.
use crate::tests::beside::{Case, play};
use crate::tests::sides::{CoordinatorSide, ThreadSide};
use bodies::Name;
use coordinator::Driven;
use operations::Ask;
use operations::job::HandshakeOp;
use std::alloc::{AllocError, Global};
use std::sync::Wait;
use std::test::*;
use test_support::each;
use test_support::waits::{take_turns, wait_for};

pub const THREADS: usize = 64;

const HANDSHAKES: u64 = 1000;

// Calls method 0 and returns from it, and stops where a poll says so.
fn call_once<N: Name, J: HandshakeOp, R: Wait>(
    rt: &R,
    side: &mut ThreadSide<'_, '_, N, J>,
) -> bool {
    if side.thread.call(0, side.shared.hint(0)).is_err() {
        return false;
    }
    let said = side.thread.ret();
    side.heed(rt, said)
}

/// Calls and returns until the coordinator has finished.
pub fn live<N: Name, J: HandshakeOp, R: Wait>(rt: &R, side: &mut ThreadSide<'_, '_, N, J>) -> bool {
    side.arrive();
    let done = &side.signals.done;
    take_turns(rt, done, || call_once(rt, side))
}

// The names of all threads.
fn names(alloc: Global) -> Result<Vec<u64>, AllocError> {
    let mut names = Vec::new(alloc);
    for before in 0..THREADS {
        names.push(before as u64 + 1).map_err(|_| AllocError)?;
    }
    Ok(names)
}

// Drives a handshake of all threads with this number, and checks that each has replied.
fn drive_one<N: Name, J: HandshakeOp, R: Wait>(
    rt: &R,
    side: &mut CoordinatorSide<'_, '_, '_, N, J>,
    number: u64,
) -> Result<bool, AllocError> {
    let names = names(side.alloc)?;
    if !side.ask(rt, names.as_slice(), Ask::Depth) {
        return Ok(false);
    }
    let driven = side.coordinator.drive(rt);
    if !matches!(driven, Ok((Driven::Handshake(n), _)) if n == number) {
        return Ok(false);
    }
    let replies = side.shared.replies(rt, number)?;
    Ok(replies.len() == THREADS)
}

/// Drives one handshake after the other, once all threads run.
pub fn work<N: Name, J: HandshakeOp, R: Wait>(
    rt: &R,
    side: &mut CoordinatorSide<'_, '_, '_, N, J>,
) -> Result<bool, AllocError> {
    if !wait_for(THREADS as u64, &side.signals.there) {
        return Ok(false);
    }
    for number in 1..HANDSHAKES + 1 {
        if !drive_one(rt, side, number)? {
            return Ok(false);
        }
    }
    Ok(true)
}

#[test]
fn sixty_four_threads_shake_hands_a_thousand_times(rt: HostRuntime) -> Result<(), Fail> {
    let mut asked = Vec::new(rt.alloc());
    for _ in 0..HANDSHAKES {
        asked
            .push(each(rt.alloc(), THREADS as u64, Ask::Depth)?)
            .map_err(|_| AllocError)?;
    }
    play(&rt, rt.alloc(), Case::Many, asked.as_slice())
}
