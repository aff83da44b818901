//! A census over threads in Java, in native code, blocked, at a poll and in the VM. Its counts equal the count words. The threads at a poll
//! and in the VM stay there until the polls of all are armed.
use crate::tests::beside::{Case, Signals, play_without_jobs};
use crate::tests::sides::{CoordinatorSide, ThreadSide, wait_told};
use bodies::Name;
use coordinator::{Coordinator, HoldFault};
use operations::Request;
use operations::job::HandshakeOp;
use std::sync::Wait;
use std::sync::atomic::Ordering;
use std::test::*;
use std::thread;
use test_support::waits::{take_turns, wait_for, wait_until};
use thread_list::Poll;

/// The number of threads: one for each state in which the census finds a thread.
pub const THREADS: usize = 5;

// Waits until the coordinator has finished.
fn wait_done<R: Wait>(rt: &R, signals: &Signals) -> bool {
    take_turns(rt, &signals.done, || true)
}

// The thread continues in Java.
fn be_in_java<N: Name, J: HandshakeOp>(side: &ThreadSide<'_, '_, N, J>) -> bool {
    side.arrive();
    true
}

// The thread is in native code until the coordinator has finished.
fn be_native<N: Name, J: HandshakeOp, R: Wait>(
    rt: &R,
    side: &mut ThreadSide<'_, '_, N, J>,
) -> bool {
    if side.thread.to_native(rt).is_err() {
        return false;
    }
    side.arrive();
    wait_done(rt, side.signals) && side.thread.from_native(rt).is_ok()
}

// The thread is blocked until the coordinator has finished.
fn be_blocked<N: Name, J: HandshakeOp, R: Wait>(
    rt: &R,
    side: &mut ThreadSide<'_, '_, N, J>,
) -> bool {
    if side.thread.to_vm().is_err() || side.thread.block(rt).is_err() {
        return false;
    }
    side.arrive();
    if !wait_done(rt, side.signals) || side.thread.unblock(rt).is_err() {
        return false;
    }
    let said = side.thread.from_vm();
    side.heed(rt, said)
}

// The thread makes back edges until one stops it, or the coordinator has finished without that. Answers whether the thread is at a poll.
fn come_to_poll<N: Name, J: HandshakeOp, R: Wait>(
    rt: &R,
    side: &mut ThreadSide<'_, '_, N, J>,
) -> bool {
    for _ in rt.forever() {
        match side.thread.back_edge() {
            Ok(Poll::Stop(number)) => return number == 1,
            Ok(Poll::Go) if !side.signals.done.load(Ordering::SeqCst) => thread::yield_now(),
            Ok(Poll::Go) | Err(_) => return false,
        }
    }
    unreachable!()
}

// The thread stays at the poll that stopped it until the polls of all are armed. The census counts it there once more.
fn be_at_poll<N: Name, J: HandshakeOp, R: Wait>(
    rt: &R,
    side: &mut ThreadSide<'_, '_, N, J>,
) -> bool {
    side.arrive();
    if !come_to_poll(rt, side) {
        return false;
    }
    side.arrive();
    wait_told(rt, side.signals, 1) && side.thread.stop(rt).is_ok()
}

// The thread stays in the VM until the polls of all, its own included, are armed. On its way into Java it stops.
fn be_in_vm<N: Name, J: HandshakeOp, R: Wait>(rt: &R, side: &mut ThreadSide<'_, '_, N, J>) -> bool {
    if side.thread.to_vm().is_err() {
        return false;
    }
    side.arrive();
    wait_told(rt, side.signals, 1)
        && matches!(side.thread.from_vm(), Ok(Poll::Stop(1)))
        && side.thread.stop(rt).is_ok()
}

/// Calls one method more often than its index says, stays in the state of its index, and returns once the coordinator has finished.
pub fn live<N: Name, J: HandshakeOp, R: Wait>(rt: &R, side: &mut ThreadSide<'_, '_, N, J>) -> bool {
    let times = (side.index as u64).saturating_add(1);
    if !side.call_often(0, 2, times) {
        return false;
    }
    let was_found = match side.index {
        1 => be_native(rt, side),
        2 => be_blocked(rt, side),
        3 => be_at_poll(rt, side),
        4 => be_in_vm(rt, side),
        _ => be_in_java(side),
    };
    was_found && side.run_until_done(rt) && side.return_all(rt)
}

// Holds the thread of a place once its body is in its berth, unless it is held already.
fn hold<N: Name, J: HandshakeOp, R: Wait>(
    rt: &R,
    coordinator: &mut Coordinator<'_, N, J>,
    place: usize,
) -> bool {
    wait_until(|| match coordinator.hold(rt, place) {
        Ok(_) | Err(HoldFault::Held) => Some(true),
        Err(HoldFault::NotSafe) => None,
        Err(_) => Some(false),
    })
}

// Holds all threads that are safe. Answers how many aren't safe.
fn not_safe<N: Name, J: HandshakeOp, R: Wait>(
    rt: &R,
    coordinator: &mut Coordinator<'_, N, J>,
) -> usize {
    let mut count: usize = 0;
    for place in 0..THREADS {
        if matches!(coordinator.hold(rt, place), Err(HoldFault::NotSafe)) {
            count = count.saturating_add(1);
        }
    }
    count
}

// Arms the polls of all threads, and waits until one thread is at a poll. That thread and the one in the VM aren't safe; they stay there
// until they learn that all polls are armed.
fn tell_all<N: Name, J: HandshakeOp, R: Wait>(
    rt: &R,
    side: &mut CoordinatorSide<'_, '_, '_, N, J>,
) -> bool {
    for name in 1..6 {
        if side.coordinator.tell(rt, name).is_err() {
            return false;
        }
    }
    let came = wait_for(THREADS as u64 + 1, &side.signals.there);
    let stayed = not_safe(rt, &mut side.coordinator) >= 2;
    side.signals.told.store(1, Ordering::SeqCst);
    came && stayed
}

// Operates the census, and checks its counts against the count words.
fn operate<N: Name, J: HandshakeOp, R: Wait>(
    rt: &R,
    side: &mut CoordinatorSide<'_, '_, '_, N, J>,
) -> bool {
    match side.coordinator.operate(rt) {
        Ok((_, list, _)) => {
            list.len() == 1 && list[0] == (2, 15) && side.shared.peek_counts() == 15
        }
        Err(_) => false,
    }
}

// Holds each thread that isn't held, operates the census, and releases all threads.
fn count_all<N: Name, J: HandshakeOp, R: Wait>(
    rt: &R,
    side: &mut CoordinatorSide<'_, '_, '_, N, J>,
) -> bool {
    for place in 0..THREADS {
        if !hold(rt, &mut side.coordinator, place) {
            return false;
        }
    }
    let counted = operate(rt, side);
    for place in 0..THREADS {
        if side.coordinator.release(rt, place).is_err() {
            return false;
        }
    }
    counted
}

/// Opens a census once all threads are in their states, and drives it.
pub fn work<N: Name, J: HandshakeOp, R: Wait>(
    rt: &R,
    side: &mut CoordinatorSide<'_, '_, '_, N, J>,
) -> bool {
    let came = wait_for(THREADS as u64, &side.signals.there);
    let asked = side
        .shared
        .submit(rt, Request::Census, Vec::new(side.alloc))
        .is_ok();
    if !came || !asked || side.coordinator.open(rt).is_err() {
        return false;
    }
    if !tell_all(rt, side) || !count_all(rt, side) {
        return false;
    }
    side.coordinator.close(rt).is_ok()
}

#[test]
fn a_census_counts_what_the_words_count(rt: HostRuntime) -> Result<(), Fail> {
    play_without_jobs(&rt, rt.alloc(), Case::Census)
}
