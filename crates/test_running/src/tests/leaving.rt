//! Threads exit while the coordinator arms their polls. Each thread is gone, or it has replied.
use crate::tests::beside::{Case, Signals, asked_of, play};
use crate::tests::sides::{CoordinatorSide, wait_told};
use bodies::Name;
use coordinator::Told;
use operations::Ask;
use operations::job::HandshakeOp;
use std::alloc::{AllocError, Global};
use std::sync::Wait;
use std::sync::atomic::Ordering;
use std::test::*;
use std::thread;
use test_support::waits::{wait_for, wait_until};
use thread_list::Shared;

// How many threads exit, one after the other. Their names start at 1.
const EXITS: u64 = 1000;

// The thread of this name starts in the place of the one before, waits until its handshake is open, and exits, sometimes sooner and
// sometimes later.
fn start_and_exit<N: Name, J: HandshakeOp, R: Wait>(
    rt: &R,
    alloc: Global,
    shared: &Shared<N, J>,
    signals: &Signals,
    name: u64,
) -> bool {
    let Ok((thread, _receipt)) = shared.start(rt, alloc) else {
        return false;
    };
    if thread.name() != name || thread.place() != 0 {
        return false;
    }
    signals.there.store(name, Ordering::SeqCst);
    if !wait_told(rt, signals, name) {
        return false;
    }
    for _ in 0..name % 8 {
        thread::yield_now();
    }
    thread.exit(rt).is_ok()
}

/// One thread after the other starts and exits.
pub fn live_all<N: Name, J: HandshakeOp, R: Wait>(
    rt: &R,
    alloc: Global,
    shared: &Shared<N, J>,
    signals: &Signals,
) -> bool {
    for name in 1..EXITS + 1 {
        if !start_and_exit(rt, alloc, shared, signals, name) {
            return false;
        }
    }
    true
}

// Whether the handshake of a name has one reply if its thread's poll was armed, and none if the thread was gone.
fn is_answered<N: Name, J: HandshakeOp, R: Wait>(
    rt: &R,
    side: &CoordinatorSide<'_, '_, '_, N, J>,
    name: u64,
    was_told: bool,
) -> Result<bool, AllocError> {
    if was_told {
        side.are_replies(rt, name, [(name, 0)].as_slice())
    } else {
        side.are_replies(rt, name, [].as_slice())
    }
}

// Arms the poll of the thread with this name, which exits meanwhile, and closes the handshake once its target has replied or is gone.
// Answers whether the poll was armed (true) or the thread gone (false); None if a call went wrong.
fn tell<N: Name, J: HandshakeOp, R: Wait>(
    rt: &R,
    side: &mut CoordinatorSide<'_, '_, '_, N, J>,
    name: u64,
) -> Option<bool> {
    let coordinator = &mut side.coordinator;
    if coordinator.open(rt).is_err() {
        return None;
    }
    side.signals.told.store(name, Ordering::SeqCst);
    let was_told = matches!(coordinator.tell(rt, name).ok()?, Told::Told(_));
    if wait_until(|| coordinator.close(rt).is_ok().then_some(true)) {
        Some(was_told)
    } else {
        None
    }
}

// Submits a handshake for one thread after the other once each is live, and arms its poll. The number of a handshake is the name of its
// target. Answers which polls were armed, up to the first call that went wrong.
fn tell_all<N: Name, J: HandshakeOp, R: Wait>(
    rt: &R,
    side: &mut CoordinatorSide<'_, '_, '_, N, J>,
) -> Result<Vec<bool>, AllocError> {
    let mut told = Vec::new(side.alloc);
    for name in 1..EXITS + 1 {
        if !wait_for(name, &side.signals.there) || !side.ask(rt, [name].as_slice(), Ask::Depth) {
            break;
        }
        let Some(was_told) = tell(rt, side, name) else {
            break;
        };
        if !is_answered(rt, side, name, was_told)? {
            break;
        }
        told.push(was_told).map_err(|_| AllocError)?;
    }
    Ok(told)
}

/// Runs the handshakes of all threads. All replies stay unchanged to the end, although later threads start and exit in the same place.
pub fn work<N: Name, J: HandshakeOp, R: Wait>(
    rt: &R,
    side: &mut CoordinatorSide<'_, '_, '_, N, J>,
) -> Result<bool, AllocError> {
    let told = tell_all(rt, side)?;
    for before in 0..told.len() {
        if !is_answered(rt, side, before as u64 + 1, told[before])? {
            return Ok(false);
        }
    }
    Ok(told.len() as u64 == EXITS)
}

#[test]
fn a_thread_that_exits_is_gone_or_has_answered(rt: HostRuntime) -> Result<(), Fail> {
    let mut lists = Vec::new(rt.alloc());
    for before in 0..EXITS {
        lists
            .push(asked_of(rt.alloc(), EXITS - before, Ask::Depth)?)
            .map_err(|_| AllocError)?;
    }
    play(&rt, rt.alloc(), Case::Leaving, lists.as_slice())
}
