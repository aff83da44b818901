//! Calls of what threads share.
use bodies::Name;
use desk::{AskFault, Refused};
use operations::Request;
use operations::job::HandshakeOp;
use std::alloc::{AllocError, Global};
use std::sync::Wait;
use test_support::calls::Call;
use test_support::pop_list;
use test_support::said::{Said, done, number, numbered, shown, word};
use thread_list::{Parts, Shared};

fn hint<N: Name, J: HandshakeOp>(alloc: Global, shared: &Shared<N, J>, method: u32) -> Said {
    match shared.hint(method) {
        Some(code) => {
            let (slot, serial) = (code.slot, code.serial);
            format!(in alloc; "{slot}:{serial}")
        }
        None => word(alloc, "none"),
    }
}

// A list of shared state. Its memory may be refused.
fn list<N: Name, J: HandshakeOp, R: Wait>(
    rt: &R,
    alloc: Global,
    shared: &Shared<N, J>,
    call: Call<'_>,
) -> Said {
    match call.name {
        "live" => shown(alloc, shared.live(rt)?),
        _ => shown(alloc, shared.replies(rt, call.first as u64)?),
    }
}

/// Calls of what threads share. `parts` makes parts with these numbers of places, slots and methods, and drops them.
pub fn ask<N: Name, J: HandshakeOp, R: Wait>(
    rt: &R,
    alloc: Global,
    shared: &Shared<N, J>,
    call: Call<'_>,
) -> Option<Said> {
    let (first, second) = (call.first as usize, call.second as usize);
    let said = match call.name {
        "parts" => done(
            alloc,
            Parts::new(alloc, first, second, call.last.parse().ok()?),
        ),
        "install" => numbered(alloc, shared.install(rt, call.first)),
        "invalidate" => done(alloc, shared.invalidate(rt, call.first as u64)),
        "hint" => hint(alloc, shared, call.first),
        "peek_counts" => number(alloc, shared.peek_counts()),
        "live" | "replies" => list(rt, alloc, shared, call),
        _ => return None,
    };
    Some(said)
}

/// Submits a request with the last list of jobs. If memory is refused, the jobs come back.
pub fn submit<N: Name, J: HandshakeOp, R: Wait>(
    rt: &R,
    alloc: Global,
    shared: &Shared<N, J>,
    request: Request,
    lists: &mut Vec<Vec<J>>,
) -> Said {
    let jobs = pop_list(alloc, lists);
    match shared.submit(rt, request, jobs) {
        Ok((op, _receipt)) => number(alloc, op),
        Err(Refused { fault, jobs }) => {
            take_back(&fault, jobs, lists)?;
            shown(alloc, fault)
        }
    }
}

/// Puts jobs back that were refused for want of memory: the next call takes them.
pub fn take_back<J: HandshakeOp>(
    fault: &AskFault,
    jobs: Vec<J>,
    lists: &mut Vec<Vec<J>>,
) -> Result<(), AllocError> {
    if matches!(fault, AskFault::NoMemory) {
        lists.push(jobs).map_err(|_| AllocError)?;
    }
    Ok(())
}
