//! Jobs that note where they ran.
ghost use Rattle.std.specs.Prelude.{◌≡◌, ℕ, true, false};
ghost use Rattle.frames.specs.ImageView.{ImageView};
ghost use Rattle.operations.specs.declared.Ask.{Ask as AskKind};

use crate::ran::RanJob;
use crate::recorder::Recorder;
use call_log::lists::Job;
use frames::image::Image;
use operations::Ask;
use operations::job::{Done, HandshakeOp};
use std::sync::Wait;
use std::sync::atomic::{AtomicU64, Ordering};

/// A job that records its run: its operation, its thread, its reply and a ticket.
///
/// It finds out who runs it by whether it is asked for its query once it has its number. The berth of a thread that serves itself asks for
/// the query, for the receipt; a coordinator that holds the thread doesn't.
#[derive(Drop)]
pub struct RecordedJob<'a, J: HandshakeOp, R: Wait> {
    job: J,
    recorder: &'a Recorder,
    rt: &'a R,
    // 1 once the job was asked for its query.
    asked: AtomicU64,
}

impl<'a, J: HandshakeOp, R: Wait> RecordedJob<'a, J, R> {
    /// Wraps a job so that it records its run.
    pub fn new(recorder: &'a Recorder, rt: &'a R, job: J) -> RecordedJob<'a, J, R>
        ensures number { ⟦<RecordedJob<'a, J, R> as HandshakeOp>⟧.number result ≡ J.number job }
        ensures whom { ⟦<RecordedJob<'a, J, R> as HandshakeOp>⟧.whom result ≡ J.whom job }
        ensures asks { ⟦<RecordedJob<'a, J, R> as HandshakeOp>⟧.asks result ≡ J.asks job }
    {
        RecordedJob {
            job,
            recorder,
            rt,
            asked: AtomicU64::new(0),
        }
    }
}

/// The log's record of a job that ran.
fn ran_job(done: &Done, ticket: u64, is_own: bool) -> RanJob
    ensures { result ≡ record {
      job = record { op = done.now.op; name = done.now.target; reply = done.now.reply; ticket = ticket };
      is_own = is_own;
    } }
{
    let job = Job {
        op: done.op(),
        name: done.target(),
        reply: done.reply(),
        ticket,
    };
    RanJob { job, is_own }
}

impl<'a, J: HandshakeOp, R: Wait> HandshakeOp for RecordedJob<'a, J, R> {
    ghost number = { λ r. J.number r.job };

    ghost whom = { λ r. J.whom r.job };

    ghost asks = { λ r. J.asks r.job };

    ghost may_answer = { λ r image reply. J.may_answer r.job image reply };

    fn op_of(&self) -> u64 {
        self.job.op_of()
    }

    fn target_of(&self) -> u64 {
        self.job.target_of()
    }

    fn ask_of(&self) -> Ask {
        self.asked.store(1, Ordering::SeqCst);
        self.job.ask_of()
    }

    fn numbered(self, op: u64) -> RecordedJob<'a, J, R> {
        let RecordedJob {
            job,
            recorder,
            rt,
            asked: _,
        } = self;
        RecordedJob {
            job: job.numbered(op),
            recorder,
            rt,
            asked: AtomicU64::new(0),
        }
    }

    fn run_on(self, image: &Image) -> Done {
        let RecordedJob {
            job,
            recorder,
            rt,
            asked,
        } = self;
        let done = job.run_on(image);
        let is_own = asked.load(Ordering::SeqCst) != 0;
        recorder.note_job(rt, ran_job(&done, recorder.draw(), is_own));
        done
    }
}
