// Running a job, and its result.
ghost use Rattle.std.specs.Prelude.{◌≡◌};
ghost use Rattle.frames.specs.ImageView.{IsSettled};
ghost use Rattle.operations.specs.Asks.{reply};

use super::{Call, HandshakeOp, Job};
use crate::Ask;
use frames::image::Image;
use std::marker::Model;

/// The result of a job. Only running a job makes one, so its reply is the ask's reply for the image of the run.
#[derive(Drop, Debug)]
pub struct Done {
    op: u64,
    target: u64,
    ask: Ask,
    reply: u64,
}

impl Model for Done {
    ghost use Rattle.operations.specs.Jobs.{DoneView};

    ghost Value = { DoneView };

    ghost view = { λ d. record { op = d.op; target = d.target; ask = d.ask; reply = d.reply } };
}

impl Job {
    /// Calls the callback on the image of a settled stack and returns its reply.
    pub fn run(self, image: &Image) -> Done
        requires { IsSettled image.now }
        ensures same { (result.op ≡ ⟦<Job as HandshakeOp>⟧.number self)
            × (result.target ≡ ⟦<Job as HandshakeOp>⟧.whom self)
            × (result.ask ≡ ⟦<Job as HandshakeOp>⟧.asks self) }
        ensures reply { result.reply ≡ reply (⟦<Job as HandshakeOp>⟧.asks self) image.now.frames }
        ensures called { ⟦<Job as HandshakeOp>⟧.may_answer self image.now result.reply }
    {
        let Job {
            op,
            target,
            ask,
            call,
        } = self;
        let reply = called(call, image);
        Done::of(op, target, ask, image, reply)
    }
}

fn called(mut call: Call, image: &Image) -> u64
    requires { Call.pre call image }
    ensures { Call.post call image.entry result }
{
    call(image)
}

impl Done {
    // Only this function makes a `Done`. The reply must be the ask's reply for a settled image.
    #[inline(always)]
    pub(super) fn of(op: u64, target: u64, ask: Ask, image: &Image, answered: u64) -> Done
        requires settled { IsSettled image.now }
        requires told { answered ≡ reply ask image.now.frames }
        ensures fields { result ≡ record { op = op; target = target; ask = ask; reply = answered } }
        ensures reply { result.reply ≡ reply ask image.now.frames }
    {
        let _ = image;
        Done {
            op,
            target,
            ask,
            reply: answered,
        }
    }

    pub fn op(&self) -> u64
        ensures { result ≡ self.now.op }
    {
        self.op
    }

    pub fn target(&self) -> u64
        ensures { result ≡ self.now.target }
    {
        self.target
    }

    pub fn ask(&self) -> Ask
        ensures { result ≡ self.now.ask }
    {
        self.ask
    }

    pub fn reply(&self) -> u64
        ensures { result ≡ self.now.reply }
    {
        self.reply
    }
}
