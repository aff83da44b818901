//! How long something takes.
use crate::wrong::Wrong;
use std::time::{Clock, Instant};

/// The start of a time.
pub fn begin<R: Clock>(rt: &R) -> Result<Instant, Wrong> {
    Ok(Instant::now(rt)?)
}

/// The time since the start, in nanoseconds.
pub fn time_since<R: Clock>(rt: &R, start: Result<Instant, Wrong>) -> Result<u64, Wrong> {
    let took = start?.elapsed(rt)?;
    Ok(u64::try_from(took.as_nanos()).unwrap_or(u64::MAX))
}
