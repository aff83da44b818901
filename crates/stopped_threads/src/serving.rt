//! Serving a body: a job that is pending for its thread runs on it.
ghost use Rattle.std.specs.Prelude.{◌≡◌, ◌≢◌, ◌<◌, IfOk, IfErr, OnErr};
ghost use Rattle.operations.specs.Asks.{reply};
ghost use Rattle.desk.specs.declared.entries.Entry.{Entry};
ghost use Rattle.desk.specs.Fields.{Enters, at};
ghost use Rattle.thread_list.specs.Moves.{IsAnswered};
ghost use Rattle.stopped_threads.specs.Serves.{IsServe, Runs, IsLeftUnserved, not_served};

use berths::{Recorder, Room, TakenJob};
use board::Board;
use bodies::{Body, Name};
use desk::{Desk, Finished, Receipt};
use operations::job::{Done, HandshakeOp};
use poll::PollRow;
use std::sync::Wait;
use std::thread;
use thread_list::{Shared, serve};

/// The job that is pending for the thread of a held body.
pub fn told_job<N: Name, J: HandshakeOp, R: Wait>(
    rt: &R,
    shared: &Shared<N, J>,
    body: &Body<N>,
) -> TakenJob<J>
    ensures { (J.whom result ≡ body.now.name) × (0 < J.number result) }
{
    for _ in rt.forever() {
        match shared.berth_of(body).job(rt, body.name()) {
            Ok(job) => return job,
            Err(_) => thread::yield_now(),
        }
    }
    unreachable!()
}

/// Publishes a body, runs its job, enters the job's answer, and clears the operation. Returns the receipt of that entry.
#[inline(always)]
pub fn serve_body<N: Name, J: HandshakeOp, R: Wait>(
    rt: &R,
    shared: &Shared<N, J>,
    body: &mut Body<N>,
    job: TakenJob<J>,
) -> Receipt<N>
    requires { (J.whom job ≡ body.old.name) × (0 < J.number job) }
    ensures { IsServe J.number J.whom J.asks J.may_answer job body.old body.new result }
{
    body.publish(shared.board());
    let (finished, _woke) = serve(rt, shared, body, job);
    finished.receipt()
}

// Records at a desk, which is lent, what a held thread's job answered.
struct HolderRecorder;

impl Recorder for HolderRecorder {}

/// Why a held thread isn't served.
#[derive(Drop)]
pub enum Unserved {
    /// The room has no job for it.
    NoJob,
    /// The desk doesn't enter the answer, which is handed back.
    NotEntered(Done),
}

/// Publishes a body, runs its oldest job, enters the job's answer, and clears the operation, over a room and a desk that are
/// lent. Returns the operation's number and what is known of that entry.
pub fn serve_lent<N: Name, J: HandshakeOp>(
    body: &mut Body<N>,
    room: &mut Room<N, J>,
    desk: &mut Desk<N, J>,
    board: &Board,
    row: &PollRow,
) -> Result<(u64, Finished<N>), Unserved>
    requires board { board.now ≡ N.board }
    requires row { row.now ≡ N.poll_row }

    ensures ran { IfOk result (λ r. Runs J.number J.whom J.asks J.may_answer r.0 r.1.ask r.1.body
        room.old room.new) }
    ensures answered { IfOk result (λ r. IsAnswered r.0 body.old r.1 body.new) }
    ensures entered { IfOk result (λ r. Enters desk.old desk.new
        (Entry.Finish r.0 body.old.name (reply r.1.ask body.old.image.frames)) r.1.stands) }

    ensures left { IfErr result (λ e. IsLeftUnserved J.number J.whom J.asks J.may_answer body.old
        room.old e body.new room.new) }
    ensures refused { OnErr result (desk.new ≡ desk.old) }
    ensures why { IfErr result (not_served room.old (at desk.old) body.old.name) }
    ensures same { (body.new.name ≡ body.old.name) × (body.new.seat.place ≡ body.old.seat.place) }
    ensures stored { body.old.seat.stored ≢ 0 → body.new.seat.stored ≢ 0 }
{
    let Ok(job) = room.job(body.name()) else {
        return Err(Unserved::NoJob);
    };
    body.publish(board);
    let number = job.number();
    let done = job.run_on(body).to_record(&HolderRecorder);
    match desk.finish(body, done) {
        Ok(finished) => {
            body.clear(row, number);
            Ok((number, finished))
        }
        Err(done) => Err(Unserved::NotEntered(done)),
    }
}
