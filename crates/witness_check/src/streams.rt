//! Whether the tickets of each stream rise.
ghost use Rattle.std.specs.Prelude.{◌≡◌, IfOk};
ghost use Rattle.witness_check.specs.Streams.{free_from, jobs_rise, starts_late, all_rise};

use call_log::entry::Entry;
use call_log::lists::Job;
use std::alloc::{AllocError, Global};

/// The numbers of streams are below this.
const STREAMS: usize = 1024;

/// A ticket above all tickets of a log.
const NEVER: u64 = 1_099_511_627_776;

/// The first ticket that may follow the call in its stream; if the call hadn't returned, no ticket may.
fn free_from(after: Option<u64>) -> u64
    ensures { result ≡ free_from after }
{
    match after {
        None => NEVER,
        Some(ticket) => { if ticket < NEVER { ticket + 1 } else { NEVER } }
    }
}

/// Whether the tickets of the jobs rise, from this first one on and below the end.
fn jobs_rise(first: u64, end: u64, jobs: &[Job]) -> bool
    ensures { result ≡ jobs_rise first end jobs.now }
{
    let mut first = first;
    let mut left = jobs;
    while let [job, others @ ..] = left {
        if job.ticket < first || job.ticket >= end {
            return false;
        }
        first = job.ticket + 1;
        left = others;
    }
    true
}

/// Whether the call has a valid stream number, begins after the earlier calls of its stream, and ends after it begins; and its jobs ran in
/// between, one after the other.
fn starts_late(least: &[u64], entry: &Entry) -> bool
    ensures { result ≡ starts_late least.now entry.now }
{
    match least.get(entry.stream as usize) {
        None => false,
        Some(first) => {
            let end = free_from(entry.after);
            *first <= entry.before
                && entry.before < end
                && jobs_rise(entry.before, end, entry.jobs.as_slice())
        }
    }
}

/// Whether the tickets of each stream rise.
pub fn all_rise(alloc: Global, calls: &[Entry]) -> Result<bool, AllocError>
    ensures { IfOk result (λ yes. yes ≡ all_rise calls.now) }
{
    let mut least = vec![in alloc; 0u64; STREAMS]?;
    for entry in calls {
        let stream = entry.stream as usize;
        if stream >= least.len() || !starts_late(least.as_slice(), entry) {
            return Ok(false);
        }
        least[stream] = free_from(entry.after);
    }
    Ok(true)
}
