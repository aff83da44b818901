//! Trials of the comparison: the core drops an event or a reply, and the comparison must find it.
use crate::total::play_seed;
use differential_schedule::losses::{ALL, Loss, Lost};
use differential_schedule::play::Stopped;
use std::alloc::Global;
use std::fmt;
use std::sync::Wait;

// In how many schedules a kind of loss is tried at most. Each schedule plays one more such event before it drops one: another Tell
// may make up for a dropped Tell, and the Round of a reclaim for a dropped Round.
const SCHEDULES: u64 = 12;

// The step from one seed to the next. All these seeds have systems with few places.
const STEP: u64 = 7;

/// Why the trials fail.
#[derive(Clone, Copy)]
pub enum Untold {
    NoMemory,
    /// A core that drops this isn't found in any of the schedules.
    Missed(Lost),
}

impl fmt::Display for Untold {
    fn fmt<W: fmt::Write>(&self, f: &mut fmt::Formatter<W>) -> fmt::Result {
        match self {
            Untold::NoMemory => f.write_str("no memory for a wrong core"),
            Untold::Missed(lost) => write!(f, "a core that loses this wasn't found out: {lost:?}"),
        }
    }
}

/// Tries each kind of loss in turn, and checks that the comparison finds it.
pub fn lose_all<R: Wait>(rt: &R, alloc: Global) -> Result<(), Untold> {
    for lost in ALL {
        if !is_found(rt, alloc, lost)? {
            return Err(Untold::Missed(lost));
        }
    }
    Ok(())
}

fn is_found<R: Wait>(rt: &R, alloc: Global, lost: Lost) -> Result<bool, Untold> {
    for before in 0..SCHEDULES {
        match play_seed(rt, alloc, STEP * before + 1, Some(Loss { lost, before })) {
            Err(Stopped::Differ(_)) => return Ok(true),
            Err(Stopped::NoMemory) => return Err(Untold::NoMemory),
            Err(Stopped::Few(_)) | Ok(_) => {}
        }
    }
    Ok(false)
}
