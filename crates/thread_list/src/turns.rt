//! The turns of a stopped thread: in each, its body goes into its berth and comes out to serve.
ghost use Rattle.std.specs.Prelude.{◌≡◌, ◌<◌, ◌≢◌, ℕ, Some, None, IfOk, IfErr, IfSome, IfNone};
ghost use Rattle.berths.specs.Berths.{moved};
ghost use Rattle.thread_list.specs.Moves.{SameBody, TakesTurn, IsTurn, as_polled, first_of};

use crate::body_state::OwnHand;
use crate::serving::serve;
use crate::shared::Shared;
use berths::{BodyAct, CameOut, StopReceipt};
use bodies::{Body, Name};
use desk::Finished;
use operations::job::HandshakeOp;
use poll::PollRow;
use std::marker::Model;
use std::sync::Wait;
use std::thread;

/// The receipts of a stopped thread: of its first turn where it took several, and of its last turn. A turn's receipts say that
/// the body went into its berth and came out to serve, and, where a job came with it, that the job's answer was entered.
#[derive(Drop)]
pub struct Turn<N: Name> {
    pub first: Option<StopReceipt<N>>,
    pub last: StopReceipt<N>,
    pub finish: Option<Finished<N>>,
}

/// A stopped thread after a turn. Its body comes out only where a poll lets it continue. It isn't `Drop`, so the body can't be
/// lost.
pub struct StopRound<N: Name> {
    body: Body<N>,
    turn: Turn<N>,
}

impl<N: Name> Model for StopRound<N> {
    ghost use Rattle.std.specs.Prelude.{◌≢◌, ◌<◌};
    ghost use Rattle.thread_list.specs.Moves.{Stopping, first_of};

    ghost Value = { Stopping };

    ghost view = { λ t. record {
      first = first_of t.turn.first t.turn.last;
      last = t.turn.last;
      finish = t.turn.finish;
      body = t.body;
    } };

    ghost invariant = { λ t. (t.body.seat.stored ≢ 0) × (0 < t.body.name) };
}

/// A stopped thread after a turn whose poll stopped it again.
pub struct StoppedAgain<N: Name> {
    turned: StopRound<N>,
}

impl<N: Name> Model for StoppedAgain<N> {
    ghost use Rattle.thread_list.specs.Moves.{Stopping};

    ghost Value = { Stopping };

    ghost view = { λ s. s.turned };
}

impl<N: Name> StopRound<N> {
    /// Takes the first turn of a thread that has stopped with this body.
    pub fn first<J: HandshakeOp, R: Wait>(
        rt: &R,
        shared: &Shared<N, J>,
        body: Body<N>,
    ) -> StopRound<N>
        requires body { (body.seat.stored ≢ 0) × (0 < body.name) }
        ensures alone { result.first ≡ result.last }
        ensures turn { TakesTurn body result }
        ensures same { SameBody body result.body }
    {
        let (body, last, finish) = take_turn(rt, shared, body);
        let first = None;
        StopRound {
            body,
            turn: Turn {
                first,
                last,
                finish,
            },
        }
    }

    /// Polls: the thread continues with its body and the receipts of its turns, or stops again.
    pub fn poll(self, row: &PollRow) -> Result<(Body<N>, Turn<N>), StoppedAgain<N>>
        requires row { row.now ≡ N.poll_row }
        ensures goes_on { IfOk result (λ r. r.0 ≡ as_polled self.body 0) }
        ensures receipts { IfOk result (λ r. (first_of r.1.first r.1.last ≡ self.first)
            × (r.1.last ≡ self.last) × (r.1.finish ≡ self.finish)) }
        ensures stops { IfErr result (λ s. (found : ℕ) × (found ≢ 0)
            × (s ≡ record self { body = as_polled self.body found })) }
    {
        let StopRound { mut body, turn } = self;
        if body.poll(row) == 0 {
            return Ok((body, turn));
        }
        Err(StoppedAgain {
            turned: StopRound { body, turn },
        })
    }
}

impl<N: Name> StoppedAgain<N> {
    /// Takes the next turn.
    pub fn again<J: HandshakeOp, R: Wait>(self, rt: &R, shared: &Shared<N, J>) -> StopRound<N>
        ensures first { result.first ≡ self.first }
        ensures turn { TakesTurn self.body result }
        ensures same { SameBody self.body result.body }
    {
        let StoppedAgain { turned } = self;
        let StopRound { body, turn } = turned;
        let first = first_outing(turn);
        let (body, last, finish) = take_turn(rt, shared, body);
        StopRound {
            body,
            turn: Turn {
                first: Some(first),
                last,
                finish,
            },
        }
    }
}

impl<N: Name> Turn<N> {
    /// Joins the receipts of this stop to those of an earlier one: the first turn of the earlier, the last turn of this.
    pub(crate) fn behind(self, earlier: Option<Turn<N>>) -> Turn<N>
        ensures last { (result.last ≡ self.last) × (result.finish ≡ self.finish) }
        ensures first { IfSome earlier (λ t. first_of result.first result.last
            ≡ first_of t.first t.last) }
        ensures alone { IfNone earlier (first_of result.first result.last
            ≡ first_of self.first self.last) }
    {
        let Some(earlier) = earlier else { return self };
        let Turn {
            first: _,
            last,
            finish,
        } = self;
        Turn {
            first: Some(first_outing(earlier)),
            last,
            finish,
        }
    }
}

// The receipts of the first turn.
fn first_outing<N: Name>(turn: Turn<N>) -> StopReceipt<N>
    ensures { result ≡ first_of turn.first turn.last }
{
    let Turn {
        first,
        last,
        finish: _,
    } = turn;
    match first {
        Some(first) => first,
        None => last,
    }
}

// Takes one turn: the body goes into its berth, comes out to serve, is published, and runs the job that came with it.
fn take_turn<N: Name, J: HandshakeOp, R: Wait>(
    rt: &R,
    shared: &Shared<N, J>,
    body: Body<N>,
) -> (Body<N>, StopReceipt<N>, Option<Finished<N>>)
    requires body { (body.seat.stored ≢ 0) × (0 < body.name) }
    ensures same { SameBody body result.0 }
    ensures given { result.1.given ≡ moved body BodyAct.Given }
    ensures turn { IsTurn body.seat.place body.name result.1.out result.2 result.0 }
{
    let place = body.place();
    let berth = shared.berth_of(&body);
    let CameOut {
        body,
        told,
        outing,
        changed,
    } = berth.turn(rt, body);
    let mut body = body.into_body(&OwnHand);
    body.publish(shared.board());
    let job = match told {
        Some(job) => job,
        None => {
            give_way(shared, place, changed);
            return (body, outing, None);
        }
    };
    let (finished, woke) = serve(rt, shared, &mut body, job);
    give_way(shared, place, changed || woke);
    (body, outing, Some(finished))
}

// How often a thread yields at most after a turn while other threads haven't reached their polls. With more threads than
// processors, they then get there within a round of the scheduler, and not after a time slice of each.
const YIELDS: u32 = 64;

// How often a thread yields at least, if it slept or woke another thread: that thread, or the one that is still waking others,
// may wait for this very processor.
const LEAST: u32 = 4;

// Yields while the poll word of any place is armed, and for at least a few turns where the thread slept or woke another
// (`changed`). Stops as soon as its own place is armed again.
fn give_way<N: Name, J: HandshakeOp>(shared: &Shared<N, J>, place: usize, changed: bool) {
    let least = if changed { LEAST } else { 0 };
    let mut clear = 0;
    for turn in 0..YIELDS {
        if shared.row().peek(place) != 0 {
            return;
        }
        clear = shared.next_armed(clear);
        if clear >= shared.berths.len() && turn >= least {
            return;
        }
        thread::yield_now();
    }
}
