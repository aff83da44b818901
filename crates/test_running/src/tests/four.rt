//! Four handshakes at once, over two running threads. Their queries differ, so that the replies tell them apart.
use crate::tests::beside::{Case, asked_of, play};
use crate::tests::sides::{CoordinatorSide, ThreadSide};
use bodies::{Called, Name};
use coordinator::DriveFault;
use operations::Ask;
use operations::job::HandshakeOp;
use std::alloc::AllocError;
use std::sync::Wait;
use std::test::*;
use test_support::each;
use test_support::waits::wait_for;

/// A thread enters code 1 as often as its name says, code 2 two times more often, and then a method in the interpreter. Depth and frames of
/// the two codes are 5, 1 and 3 for the first thread, and 7, 2 and 4 for the second. The thread runs until the coordinator has finished,
/// and returns.
pub fn live<N: Name, J: HandshakeOp, R: Wait>(rt: &R, side: &mut ThreadSide<'_, '_, N, J>) -> bool {
    let name = side.thread.name();
    if !side.call_often(1, 1, name)
        || !side.call_often(0, 2, name.saturating_add(2))
        || !matches!(side.thread.call(0, None), Ok(Called::Interpreted))
    {
        return false;
    }
    side.arrive();
    side.run_until_done(rt) && side.return_all(rt)
}

/// Works on the four handshakes at once when both threads run: both threads for their depth, the first and the second for their frames of
/// code 1, and both for their frames of code 2.
pub fn work<N: Name, J: HandshakeOp, R: Wait>(
    rt: &R,
    side: &mut CoordinatorSide<'_, '_, '_, N, J>,
) -> Result<bool, AllocError> {
    let (both, first, second) = ([1, 2].as_slice(), [1].as_slice(), [2].as_slice());
    if !wait_for(2, &side.signals.there)
        || !side.ask(rt, both, Ask::Depth)
        || !side.ask(rt, first, Ask::CountOf(1))
        || !side.ask(rt, second, Ask::CountOf(1))
        || !side.ask(rt, both, Ask::CountOf(2))
    {
        return Ok(false);
    }
    let driven = side.coordinator.drive_four(rt);
    let again = side.coordinator.drive_four(rt);
    Ok(
        matches!(driven, Ok(4))
            && matches!(again, Err(DriveFault::QueueEmpty))
            && side.are_replies(rt, 1, [(1, 5), (2, 7)].as_slice())?
            && side.are_replies(rt, 2, [(1, 1)].as_slice())?
            && side.are_replies(rt, 3, [(2, 2)].as_slice())?
            && side.are_replies(rt, 4, [(1, 3), (2, 4)].as_slice())?,
    )
}

#[test]
fn four_are_closed_over_two_running_threads(rt: HostRuntime) -> Result<(), Fail> {
    let asked = [
        each(rt.alloc(), 2, Ask::CountOf(2))?,
        asked_of(rt.alloc(), 2, Ask::CountOf(1))?,
        asked_of(rt.alloc(), 1, Ask::CountOf(1))?,
        each(rt.alloc(), 2, Ask::Depth)?,
    ];
    play(&rt, rt.alloc(), Case::Four, asked.as_slice())
}
