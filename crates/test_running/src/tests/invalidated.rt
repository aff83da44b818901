//! Threads call and return while the method's code is invalidated and installed again and again. No thread enters a code after it has seen
//! that the code is invalidated.
ghost use Rattle.std.specs.Prelude.{◌<◌, IfSome};

use crate::tests::beside::{Case, play_without_jobs};
use crate::tests::sides::{CoordinatorSide, ThreadSide};
use bodies::{Called, Name};
use frames::CodeId;
use operations::job::HandshakeOp;
use std::sync::Wait;
use std::sync::atomic::Ordering;
use std::test::*;
use test_support::waits::wait_for;

// How many calls each thread makes.
const CALLS: u64 = 10_000;

// How many codes are invalidated, one after the other, starting with the first of method 0. None is freed: each has a slot of its own, and
// so have the last code and the code of method 1.
const CODES: u64 = 100;

pub const SLOTS: usize = 102;

// How many calls all threads make between one invalidation and the next.
const CALLS_OF_CODE: u64 = 300;

// How many calls a thread makes with one hint before it loads a new one: the hint may be old.
const CALLS_OF_HINT: u64 = 50;

// Calls method 0 with the hint and returns. Answers the serial of the code that it entered, 0 for none; None if a call was refused.
fn call_once<N: Name, J: HandshakeOp, R: Wait>(
    rt: &R,
    side: &mut ThreadSide<'_, '_, N, J>,
    hint: Option<CodeId>,
) -> Option<u64>
    requires slot { IfSome hint (λ c. c.slot < N.board.slots) }
{
    let called = side.thread.call(0, hint).ok()?;
    let said = side.thread.ret();
    if !side.heed(rt, said) {
        return None;
    }
    match called {
        Called::Compiled(serial) => Some(serial),
        Called::Interpreted => Some(0),
    }
}

// Makes this many calls with one hint. Before each call it reads which codes are invalidated, and it never enters one of them.
fn call_by_hint<N: Name, J: HandshakeOp, R: Wait>(
    rt: &R,
    side: &mut ThreadSide<'_, '_, N, J>,
) -> bool {
    let signals = side.signals;
    let hint = side.shared.hint(0);
    for _ in 0..CALLS_OF_HINT {
        let seen = signals.told.load(Ordering::SeqCst);
        let Some(serial) = call_once(rt, side, hint) else {
            return false;
        };
        if serial != 0 && serial <= seen {
            return false;
        }
        if serial != 0 {
            signals.counted.fetch_add(1, Ordering::SeqCst);
        }
        side.arrive();
    }
    true
}

/// Makes all calls of a thread.
pub fn live<N: Name, J: HandshakeOp, R: Wait>(rt: &R, side: &mut ThreadSide<'_, '_, N, J>) -> bool {
    for _ in 0..CALLS / CALLS_OF_HINT {
        if !call_by_hint(rt, side) {
            return false;
        }
    }
    true
}

/// Invalidates one code after the other while the threads call, and installs the next. Some calls entered a code.
pub fn work<N: Name, J: HandshakeOp, R: Wait>(
    rt: &R,
    side: &CoordinatorSide<'_, '_, '_, N, J>,
) -> bool {
    let (shared, signals) = (side.shared, side.signals);
    for before in 0..CODES {
        let serial = before + 2;
        if !wait_for((before + 1) * CALLS_OF_CODE, &signals.there)
            || shared.invalidate(rt, serial).is_err()
        {
            return false;
        }
        signals.told.store(serial, Ordering::SeqCst);
        if !matches!(shared.install(rt, 0), Ok((n, _)) if n == serial + 1) {
            return false;
        }
    }
    signals.counted.load(Ordering::SeqCst) > 0
}

#[test]
fn no_call_enters_what_is_seen_invalidated(rt: HostRuntime) -> Result<(), Fail> {
    play_without_jobs(&rt, rt.alloc(), Case::Invalidated)
}
