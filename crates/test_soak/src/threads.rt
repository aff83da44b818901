//! The threads of a run.
use crate::driver::Driver;
use crate::making::Makes;
use crate::player::play;
use crate::tally::{Report, Tally};
use crate::wrong::{Wrong, note};
use bodies::Name;
use operations::job::HandshakeOp;
use recorder::{Recorder, Stream};
use std::alloc::Global;
use std::sync::Wait;
use std::thread::{JoinHandle, Scope, Threads};
use test_tools::keep;

/// Starts a thread for each place, with a seed of its own, and with a stream if there is a recorder.
pub fn start_all<
    's,
    'a: 's,
    N: Name + Send,
    J: HandshakeOp + Send,
    R: Threads + Wait + Sync,
    M: Makes<J>,
    E,
>(
    scope: &Scope<'s, E>,
    driver: &Driver<'_, '_, 'a, N, J, R, M>,
    recorder: Option<&'a Recorder>,
    handles: &mut Vec<JoinHandle<(Report, Option<Stream<'a>>)>>,
) -> Result<(), Wrong> {
    let (rt, alloc, shared) = (driver.hands.rt, driver.hands.alloc, driver.hands.shared);
    let signals = driver.signals;
    let first = driver.plan.seed.wrapping_mul(1009).wrapping_add(1);
    for place in 0..driver.plan.sizes.places {
        let seed = first.wrapping_add(place as u64);
        let stream = stream_of(recorder, alloc);
        match scope.spawn(move || play(rt, alloc, shared, signals, stream, seed)) {
            Ok(handle) => keep(handles, handle)?,
            Err(_) => return Err(Wrong::NoThread),
        }
    }
    Ok(())
}

/// A new stream of the recorder.
pub fn stream_of<'a>(recorder: Option<&'a Recorder>, alloc: Global) -> Option<Stream<'a>> {
    match recorder {
        Some(recorder) => Some(recorder.stream(alloc)),
        None => None,
    }
}

/// Waits for all threads, and adds their reports. Answers their streams. Notes the first thing that went wrong in a thread.
pub fn join_all<'a, R: Threads>(
    rt: &R,
    alloc: Global,
    handles: Vec<JoinHandle<(Report, Option<Stream<'a>>)>>,
    tally: &mut Tally,
    wrong: &mut Option<Wrong>,
) -> Vec<Stream<'a>> {
    let mut streams = Vec::new(alloc);
    for handle in handles {
        let (report, stream) = handle.join(rt);
        tally.add(report.tally);
        if let Some(found) = report.wrong {
            note(wrong, found);
        }
        if let Some(stream) = stream
            && keep(&mut streams, stream).is_err()
        {
            note(wrong, Wrong::NoMemory);
        }
    }
    streams
}
