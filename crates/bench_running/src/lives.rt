//! How a thread's life begins and ends.
use bodies::Name;
use operations::job::HandshakeOp;
use std::alloc::Global;
use std::sync::Wait;
use thread_list::{Mutator, Shared};

/// Starts a thread, unless that is refused.
pub fn begin<'a, N: Name, J: HandshakeOp, R: Wait>(
    rt: &R,
    alloc: Global,
    shared: &'a Shared<N, J>,
) -> Option<Mutator<'a, N, J>> {
    match shared.start(rt, alloc) {
        Ok((thread, _receipt)) => Some(thread),
        Err(_) => None,
    }
}

// Lets the thread exit, and returns whether that was accepted.
fn exits<N: Name, J: HandshakeOp, R: Wait>(rt: &R, thread: Mutator<'_, N, J>) -> bool {
    thread.exit(rt).is_ok()
}

/// Publishes the thread's stack and lets it exit. Returns whether both were accepted.
pub fn ends<N: Name, J: HandshakeOp, R: Wait>(rt: &R, thread: Mutator<'_, N, J>) -> bool {
    let mut thread = thread;
    let published = thread.publish().is_ok();
    exits(rt, thread) && published
}
