//! Threads that share a system, each with a mutator of its own.
use crate::tests::beside::{Case, play_without_jobs};
use crate::tests::sides::ThreadSide;
use bodies::Name;
use operations::job::HandshakeOp;
use std::test::*;
use thread_list::Poll;

// Calls a method and returns from it, and may publish in between.
fn call_once<N: Name, J: HandshakeOp>(
    side: &mut ThreadSide<'_, '_, N, J>,
    publishes: bool,
) -> bool {
    if !side.call_often(0, 2, 1) {
        return false;
    }
    if publishes && side.thread.publish().is_err() {
        return false;
    }
    matches!(side.thread.ret(), Ok(Poll::Go))
}

/// Calls and returns, and publishes now and then.
pub fn live<N: Name, J: HandshakeOp>(side: &mut ThreadSide<'_, '_, N, J>) -> bool {
    for turn in 0..1000 {
        if !call_once(side, turn % 8 == 0) {
            return false;
        }
    }
    side.thread.publish().is_ok()
}

#[test]
fn four_threads_call_and_return(rt: HostRuntime) -> Result<(), Fail> {
    play_without_jobs(&rt, rt.alloc(), Case::Threads)
}
