//! The stops of a run, one after the other.
use crate::clock;
use crate::plan::Times;
use crate::requests::Asker;
use crate::wrong::Wrong;
use bodies::Name;
use operations::job::HandshakeOp;
use std::alloc::AllocError;
use std::sync::Wait;
use std::time::Clock;

/// How many stops precede the stops that are measured.
pub const WARM_UP: u64 = 2;

// A run makes no further stop after so many nanoseconds.
const LONGEST: u64 = 6_000_000_000;

/// Notes the time of each of the plan's stops.
pub fn time_stops<N: Name, J: HandshakeOp, M: Fn(u64) -> Result<J, AllocError>, R: Wait + Clock>(
    asker: &mut Asker<'_, '_, '_, N, J, R>,
    make: &M,
    times: &mut Times,
) -> Result<(), Wrong>
    requires makes { M.IsAlwaysCallable make.now }
{
    let rt = asker.rt;
    let start = clock::begin(rt)?;
    for turn in 0..times.plan.turns.saturating_add(WARM_UP) {
        let time = asker.ask(make)?;
        if turn >= WARM_UP {
            times.note(time)?;
        }
        if clock::time_since(rt, Ok(start))? >= LONGEST {
            break;
        }
    }
    Ok(())
}
