//! A job on its way from a berth to the body on which it runs, and the job's answer on its way to the desk.
ghost use Rattle.std.specs.Prelude.{◌≡◌};
ghost use Rattle.frames.specs.ImageView.{IsSettled};
ghost use Rattle.operations.specs.Asks.{reply};

use bodies::{Body, Name};
use operations::job::{Done, HandshakeOp};
use std::marker::Model;

/// A job that came out of a berth. It isn't `Drop`, so its owner runs it or hands it on, and no pending job is lost. Contracts see the job.
pub struct TakenJob<J: HandshakeOp> {
    job: J,
}

impl<J: HandshakeOp> Model for TakenJob<J> {
    ghost Value = { J };

    ghost view = { λ d. d.job };
}

impl<J: HandshakeOp> TakenJob<J> {
    pub fn new(job: J) -> TakenJob<J>
        ensures { result ≡ job }
    {
        TakenJob { job }
    }

    /// The number of the job's operation.
    pub fn number(&self) -> u64
        ensures { result ≡ J.number self.now }
    {
        self.job.op_of()
    }

    /// Runs the job on a settled body.
    pub fn run_on<N: Name>(self, body: &Body<N>) -> JobResult
        requires { IsSettled body.now.image }
        ensures same { (result.op ≡ J.number self) × (result.target ≡ J.whom self)
            × (result.ask ≡ J.asks self) }
        ensures reply { result.reply ≡ reply (J.asks self) body.now.image.frames }
        ensures called { J.may_answer self body.now.image result.reply }
    {
        let TakenJob { job } = self;
        JobResult {
            done: body.run(job),
        }
    }
}

/// Enters the answers of jobs at the desk. The layer of the threads implements this trait for a type of its own, and no other type
/// implements it. So no other code can drop the answer of a job.
pub trait Recorder {}

/// The answer of a job that was due. It isn't `Drop`, so it reaches the desk. Contracts see the answer.
pub struct JobResult {
    done: Done,
}

impl Model for JobResult {
    ghost use Rattle.operations.specs.Jobs.{DoneView};

    ghost Value = { DoneView };

    ghost view = { λ a. a.done };
}

impl JobResult {
    /// Gives the answer to this recorder, which enters it.
    #[inline(always)]
    pub fn to_record<R: Recorder>(self, _recorder: &R) -> Done
        ensures { result ≡ self }
    {
        let JobResult { done } = self;
        done
    }
}
