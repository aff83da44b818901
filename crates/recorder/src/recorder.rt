//! The state that all streams of a run share.
ghost use Rattle.std.specs.Prelude.{◌≡◌, [], true, false, IfSome};
ghost use Rattle.recorder.specs.Streams.{are_of};

use crate::ran::{Ran, RanJob, Runner};
use crate::stream::Stream;
use call_log::lists::Job;
use std::alloc::Global;
use std::sync::atomic::{AtomicU64, Ordering};
use std::sync::{Mutex, Wait};

/// The counter from which tickets are drawn, and the jobs that ran in calls which haven't returned.
#[derive(Drop)]
pub struct Recorder {
    next: AtomicU64,
    streams: AtomicU64,
    ran: Mutex<Ran>,
}

impl Recorder {
    pub fn new(alloc: Global) -> Recorder {
        Recorder {
            next: AtomicU64::new(1),
            streams: AtomicU64::new(0),
            ran: Mutex::new(Ran::new(alloc)),
        }
    }

    /// An empty stream for one machine thread. The streams are numbered from 0 on.
    pub fn stream(&self, alloc: Global) -> Stream<'_>
        ensures { (result.calls ≡ []) × (result.last ≡ 0) × (result.lost ≡ false) }
    {
        let number = self.streams.fetch_add(1, Ordering::SeqCst);
        Stream::new(self, number, alloc)
    }

    // Draws the next ticket.
    pub(crate) fn draw(&self) -> u64 {
        self.next.fetch_add(1, Ordering::SeqCst)
    }

    // Adds a job that ran.
    pub(crate) fn note_job<R: Wait>(&self, rt: &R, ran: RanJob) {
        self.ran.lock(rt).note(ran);
    }

    // Takes the jobs that the runner ran and that no entry contains yet, in their order. None if one was lost for want of memory.
    pub(crate) fn take_jobs<R: Wait>(&self, rt: &R, runner: Runner) -> Option<Vec<Job>> {
        self.ran.lock(rt).take(runner)
    }

    // Takes those that the thread of this name ran on itself. None if one was lost.
    pub(crate) fn take_own<R: Wait>(&self, rt: &R, name: u64) -> Option<Vec<Job>>
        ensures { IfSome result (λ jobs. are_of name jobs.items ≡ true) }
    {
        self.ran.lock(rt).take_own(name)
    }
}
