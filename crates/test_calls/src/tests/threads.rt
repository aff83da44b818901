//! Calls of a thread that may block.
use berths::BodyOwner;
use bodies::Name;
use operations::job::HandshakeOp;
use std::alloc::Global;
use std::fmt::Debug;
use std::sync::Wait;
use test_support::calls::Call;
use test_support::said::{Said, called, done, polled, shown, word};
use test_support::threads::NamedThreads;
use thread_list::{Mutator, Shared, Turn};

/// A `BodyOwner` that reads a body and returns it.
#[derive(Drop)]
struct Looking;

impl BodyOwner for Looking {}

// Takes the body at a place from its berth by this name, checks that a second take is refused, and gives the body back. The body stays in
// the berth if nothing is pending for the thread.
fn take<N: Name, J: HandshakeOp, R: Wait>(
    rt: &R,
    alloc: Global,
    shared: &Shared<N, J>,
    thread: &Mutator<'_, N, J>,
    name: u64,
) -> Said {
    let place = thread.place();
    let berth = shared.berth(place);
    let body = match berth.take(rt, name, place) {
        Ok((body, _receipt)) => body.into_body(&Looking),
        Err(left) => return shown(alloc, left.act()),
    };
    let is_absent = match berth.take(rt, name, place) {
        Ok((other, _receipt)) => {
            let _receipt = berth.release(rt, other.into_body(&Looking), false);
            false
        }
        Err(_left) => true,
    };
    let _receipt = berth.release(rt, body, false);
    word(alloc, if is_absent { "once" } else { "twice" })
}

// Whether a stopped thread served a job.
fn served<N: Name, F: Debug + Drop>(alloc: Global, answer: Result<Turn<N>, F>) -> Said {
    match answer {
        Ok(turn) => word(
            alloc,
            if turn.finish.is_some() {
                "served"
            } else {
                "nothing"
            },
        ),
        Err(fault) => shown(alloc, fault),
    }
}

/// Makes a call that may block, of the thread that the first number names. None for another call.
pub fn cross<N: Name, J: HandshakeOp, R: Wait>(
    rt: &R,
    alloc: Global,
    threads: &mut NamedThreads<'_, N, J>,
    call: Call<'_>,
) -> Option<Said> {
    let shared = threads.shared;
    let thread = threads.get(call.first)?;
    let said = match call.name {
        "to_native" => done(alloc, thread.to_native(rt)),
        "from_native" => polled(alloc, thread.from_native(rt)),
        "block" => done(alloc, thread.block(rt)),
        "unblock" => polled(alloc, thread.unblock(rt)),
        "stop" => served(alloc, thread.stop(rt)),
        // Calls with the hint that the method had before another code was installed over it.
        "call_over" => {
            let old = shared.hint(call.second);
            match shared.install(rt, call.second) {
                Ok(_installed) => called(alloc, thread.call(call.second, old)),
                Err(fault) => shown(alloc, fault),
            }
        }
        "take" => take(rt, alloc, shared, thread, call.second as u64),
        _ => return None,
    };
    Some(said)
}
