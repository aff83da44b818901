//! What a thread does while it is stopped.
ghost use Rattle.std.specs.Prelude.{◌≡◌, ◌≢◌, ◌<◌, ℕ};
ghost use Rattle.berths.specs.Berths.{moved};
ghost use Rattle.thread_list.specs.Moves.{SameBody, IsLastTurn, first_of};
ghost use Rattle.frames.specs.ImageView.{IsSettled};
ghost use Rattle.operations.specs.Asks.{reply};
ghost use Rattle.thread_state.specs.PollRule.{exchanged};
ghost use Rattle.desk.specs.declared.entries.Entry.{Entry};

use crate::shared::Shared;
use crate::turns::{StopRound, Turn};
use berths::{BodyAct, Recorder, TakenJob};
use bodies::{Body, Name};
use desk::Finished;
use operations::job::HandshakeOp;
use std::sync::Wait;

/// Records at the desk what a job answered. It is private to this module, so a job is run with it only by `serve`.
#[derive(Drop)]
struct DeskRecorder;

impl Recorder for DeskRecorder {}

/// Serves a stopped thread until a poll lets it continue. In each turn it gives its body to its berth, takes it back once nobody
/// holds it and no census keeps it, publishes its stack, runs a pending job, and polls. Returns the body with the receipts of its
/// turns.
pub(crate) fn served<N: Name, J: HandshakeOp, R: Wait>(
    rt: &R,
    shared: &Shared<N, J>,
    body: Body<N>,
) -> (Body<N>, Turn<N>)
    requires body { (body.seat.stored ≢ 0) × (0 < body.name) }
    ensures same { SameBody body result.0 }
    ensures given { (first_of result.1.first result.1.last).given ≡ moved body BodyAct.Given }
    ensures turn { IsLastTurn body.seat.place body.name result.1.last result.1.finish result.0 }
{
    let mut turned = StopRound::first(rt, shared, body);
    for _ in rt.forever() {
        match turned.poll(shared.row()) {
            Ok(done) => return done,
            Err(stopped) => turned = stopped.again(rt, shared),
        }
    }
    unreachable!()
}

/// Runs a job on a settled body, enters its answer, and then clears the operation. Returns the receipt of that entry, which shows
/// the body before the clear, and whether the entry woke a waiter.
#[inline(always)]
pub fn serve<N: Name, J: HandshakeOp, R: Wait>(
    rt: &R,
    shared: &Shared<N, J>,
    body: &mut Body<N>,
    job: TakenJob<J>,
) -> (Finished<N>, bool)
    requires job { (J.whom job ≡ body.old.name) × (0 < J.number job) }
    requires settled { IsSettled body.old.image }

    ensures entry { result.0.stands.entry
        ≡ Entry.Finish (J.number job) (J.whom job) (reply (J.asks job) body.old.image.frames) }
    ensures before_the_clear { result.0.body ≡ body.old }
    ensures asked { result.0.ask ≡ J.asks job }
    ensures called { J.may_answer job body.old.image (reply (J.asks job) body.old.image.frames) }
    ensures body { (body.new.name ≡ body.old.name) × (body.new.image ≡ body.old.image)
        × (body.new.seat ≡ body.old.seat) }
    ensures cleared { (found : ℕ)
        × (body.new.poller ≡ exchanged body.old.poller (J.number job) found) }
{
    let n = job.number();
    let done = job.run_on(body).to_record(&DeskRecorder);
    let (finished, woke) = shared.finish(rt, body, done);
    body.clear(shared.row(), n);
    (finished, woke)
}
