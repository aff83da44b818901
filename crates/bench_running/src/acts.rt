//! The main thread's calls, and whether each was accepted.
use crate::clock;
use crate::wrong::Wrong;
use bodies::Name;
use coordinator::{Coordinator, Reclaimed};
use operations::job::{HandshakeOp, Query};
use operations::{Ask, Request, Targets};
use std::alloc::{AllocError, Global};
use std::sync::Wait;
use std::time::Clock;
use test_tools::keep;
use thread_list::Shared;

/// The method whose code is installed and reclaimed.
pub const METHOD: u32 = 1;

/// A job for each of the names, made by `make`.
pub fn jobs_of<J: HandshakeOp, M: Fn(u64) -> Result<J, AllocError>>(
    alloc: Global,
    names: &[u64],
    make: &M,
) -> Result<Vec<J>, AllocError>
    requires makes { M.IsAlwaysCallable make.now }
{
    let mut jobs = Vec::with_capacity(alloc, names.len())?;
    for name in names {
        keep(&mut jobs, make(*name)?)?;
    }
    Ok(jobs)
}

/// A query for the depth of the stack of the thread of the name.
pub fn query_of(name: u64) -> Result<Query, AllocError> {
    Ok(Query::new(name, Ask::Depth))
}

/// A query for each of the names.
pub fn queries_of(alloc: Global, names: &[u64]) -> Result<Vec<Query>, AllocError> {
    jobs_of(alloc, names, &query_of)
}

/// A handshake of the names, without its jobs.
pub fn handshake_of(alloc: Global, names: &[u64]) -> Result<Request, AllocError> {
    let targets = Targets::from_vec(Vec::from_slice(alloc, names)?);
    let ask = Ask::Depth;
    Ok(Request::Handshake { targets, ask })
}

pub fn is_asked<N: Name, J: HandshakeOp, R: Wait>(
    rt: &R,
    shared: &Shared<N, J>,
    request: Request,
    jobs: Vec<J>,
) -> bool {
    shared.submit(rt, request, jobs).is_ok()
}

/// Installs a code of the method, and returns the code's serial.
pub fn install<N: Name, J: HandshakeOp, R: Wait>(
    rt: &R,
    shared: &Shared<N, J>,
    method: u32,
) -> Result<u64, Wrong> {
    match shared.install(rt, method) {
        Ok((serial, _receipt)) => Ok(serial),
        Err(_) => Err(Wrong::Answer),
    }
}

fn is_freed<N: Name, J: HandshakeOp, R: Wait>(
    rt: &R,
    coordinator: &mut Coordinator<'_, N, J>,
    serial: u64,
    jobs: Vec<J>,
) -> bool {
    matches!(
        coordinator.reclaim(rt, serial, jobs),
        Ok(Reclaimed::Freed(_))
    )
}

/// Invalidates the code and reclaims it, with a handshake for these jobs. Returns whether that succeeded.
pub fn is_reclaimed<N: Name, J: HandshakeOp, R: Wait>(
    rt: &R,
    shared: &Shared<N, J>,
    coordinator: &mut Coordinator<'_, N, J>,
    serial: u64,
    jobs: Vec<J>,
) -> bool {
    let is_invalidated = shared.invalidate(rt, serial).is_ok();
    is_freed(rt, coordinator, serial, jobs) && is_invalidated
}

/// The time to invalidate and reclaim a code that was just installed, with a handshake for these jobs.
pub fn time_reclaim<N: Name, J: HandshakeOp, R: Wait + Clock>(
    rt: &R,
    shared: &Shared<N, J>,
    coordinator: &mut Coordinator<'_, N, J>,
    jobs: Vec<J>,
) -> Result<u64, Wrong> {
    let serial = install(rt, shared, METHOD)?;
    let start = clock::begin(rt);
    let is_reclaimed = is_reclaimed(rt, shared, coordinator, serial, jobs);
    let time = clock::time_since(rt, start)?;
    if is_reclaimed {
        Ok(time)
    } else {
        Err(Wrong::Answer)
    }
}
