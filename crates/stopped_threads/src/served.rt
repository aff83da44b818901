//! A body that comes out of its berth, is served job by job, and goes back. It has a module of its own, so that no other code can
//! separate a body from the receipts of its serves.
ghost use Rattle.std.specs.Prelude.{◌≡◌, ◌⊎◌, ◌<◌, IfOk, IfErr};
ghost use Rattle.berths.specs.Berths.{Went, acted};
ghost use Rattle.stopped_threads.specs.Serves.{IsServe};
ghost use Rattle.stopped_threads.specs.Brought.{IsBrought};

use crate::serving::serve_body;
use berths::{BerthAct, BerthReceipt, BodyAct, BodyOwner, BodyReceipt, TakenJob};
use bodies::{Body, Name};
use desk::Receipt;
use operations::job::HandshakeOp;
use std::marker::{Model, PhantomData};
use std::snapshot::Snapshot;
use std::sync::Wait;
use thread_list::Shared;

// The hand of a server, which runs jobs in place of the thread: only here does a body that came out of its berth become a served
// one.
struct ServerHand;

impl BodyOwner for ServerHand {}

/// The capability to serve a thread in its place: only a holder of a value of such a type may. No type of this crate implements
/// it. The coordinator's layer implements it for a type whose value it makes only once all targets are armed, so that it serves
/// nobody before.
pub trait ServeKey {}

/// A body that came out of its berth and was served, with the receipts that it came out and of the entries of its first and its
/// last serve. It isn't `Drop`: it goes back into its berth, or is served again. Contracts see the receipts and the body.
pub struct BodyInService<N: Name, J: HandshakeOp> {
    out: Snapshot<BodyReceipt<N>>,
    body: Body<N>,
    first: Receipt<N>,
    later: Option<Receipt<N>>,
    of: PhantomData<J>,
}

impl<N: Name, J: HandshakeOp> Model for BodyInService<N, J> {
    ghost use Rattle.std.specs.Prelude.{◌≢◌, ◌<◌};
    ghost use Rattle.stopped_threads.specs.Serves.{Behind, IsServed, last_of};

    ghost Value = { Behind };

    ghost view = { λ s.
        record { out = s.out.value; body = s.body; first = s.first; last = last_of s.first s.later } };

    ghost invariant = { λ s. (s.body.seat.stored ≢ 0) × (0 < s.body.name)
        × IsServed J.number J.whom J.asks J.may_answer s.out.value.body s.body s.first
        (last_of s.first s.later) };
}

/// A served body whose thread got another job meanwhile. It goes back only after that job is served.
struct MoreToServe<N: Name, J: HandshakeOp> {
    served: BodyInService<N, J>,
    job: TakenJob<J>,
}

impl<N: Name, J: HandshakeOp> Model for MoreToServe<N, J> {
    ghost use Rattle.std.specs.Prelude.{◌≡◌, ◌<◌};
    ghost use Rattle.stopped_threads.specs.Serves.{Told};

    ghost Value = { Told J };

    ghost view = { λ u. record { served = u.served; job = u.job } };

    ghost invariant = { λ u. (J.whom u.job ≡ u.served.body.name) × (0 < J.number u.job) };
}

/// The receipts of a body that was served and is back in its berth: that it came out, of the entries of its first and its last
/// serve, and that it went back.
#[derive(Drop)]
pub struct ServeReceipt<N: Name> {
    out: Snapshot<BodyReceipt<N>>,
    first: Receipt<N>,
    later: Option<Receipt<N>>,
    back: Snapshot<BodyReceipt<N>>,
}

impl<N: Name> Model for ServeReceipt<N> {
    ghost use Rattle.stopped_threads.specs.Serves.{last_of};
    ghost use Rattle.stopped_threads.specs.Brought.{OutAndBack};

    ghost Value = { OutAndBack };

    ghost view = { λ b.
        record { out = b.out.value; first = b.first; last = last_of b.first b.later; back = b.back.value } };
}

impl<N: Name, J: HandshakeOp> BodyInService<N, J> {
    /// Takes the named thread's body from its berth with its oldest job, if both are there, and serves it. The key is the
    /// capability to do so. The error is the receipt that the body isn't there, or has no job.
    #[inline(always)]
    pub fn take<R: Wait, K: ServeKey>(
        rt: &R,
        shared: &Shared<N, J>,
        _key: &K,
        name: u64,
        place: usize,
    ) -> Result<BodyInService<N, J>, BerthReceipt<N>>
        requires { place < N.board.places }
        ensures out { IfOk result (λ s. Went place name BodyAct.Held s.out) }
        ensures alone { IfOk result (λ s. s.last ≡ s.first) }
        ensures served { IfOk result (λ s. (job : J)
            × IsServe J.number J.whom J.asks J.may_answer job s.out.body s.body s.first) }
        ensures left { IfErr result (λ r. (r ≡ acted place name BerthAct.Absent)
            ⊎ (r ≡ acted place name BerthAct.NoJob)) }
    {
        let (outgoing, out, job) = shared.berth(place).take_told(rt, name, place)?;
        let mut body = outgoing.into_body(&ServerHand);
        let first = serve_body(rt, shared, &mut body, job);
        Ok(BodyInService {
            out: Snapshot::of(&out),
            body,
            first,
            later: None,
            of: PhantomData,
        })
    }

    /// Puts the body back into its berth, after serving in order the jobs that its thread got meanwhile. The first try is inline:
    /// mostly there are none.
    #[inline(always)]
    pub fn bring_back<R: Wait>(self, rt: &R, shared: &Shared<N, J>) -> ServeReceipt<N>
        ensures same { (result.out ≡ self.out) × (result.first ≡ self.first) }
        ensures brought { IsBrought J.number J.whom J.asks J.may_answer result }
    {
        let BodyInService {
            out,
            body,
            first,
            later,
            of,
        } = self;
        match shared.berth_of(&body).bring_idle(rt, body) {
            Ok(back) => ServeReceipt {
                out,
                first,
                later,
                back: Snapshot::of(&back),
            },
            Err((body, _not_back)) => {
                let served = BodyInService {
                    out,
                    body,
                    first,
                    later,
                    of,
                };
                served.bring_told(rt, shared)
            }
        }
    }

    // Puts the body back if its thread got more jobs meanwhile. Out of line, since the results of this call and its tries are
    // large, and inlined they would be cleared in memory at each serve.
    #[inline(never)]
    fn bring_told<R: Wait>(self, rt: &R, shared: &Shared<N, J>) -> ServeReceipt<N>
        ensures same { (result.out ≡ self.out) × (result.first ≡ self.first) }
        ensures brought { IsBrought J.number J.whom J.asks J.may_answer result }
    {
        match self.try_back(rt, shared) {
            Ok(brought) => brought,
            Err(undone) => undone.bring_back(rt, shared),
        }
    }

    // One try.
    fn try_back<R: Wait>(
        self,
        rt: &R,
        shared: &Shared<N, J>,
    ) -> Result<ServeReceipt<N>, MoreToServe<N, J>>
        ensures same { IfOk result (λ b. (b.out ≡ self.out) × (b.first ≡ self.first)
            × (b.last ≡ self.last)) }
        ensures brought { IfOk result (IsBrought J.number J.whom J.asks J.may_answer) }
        ensures told { IfErr result (λ u. u.served ≡ self) }
    {
        let BodyInService {
            out,
            body,
            first,
            later,
            of,
        } = self;
        match shared.berth_of(&body).bring(rt, body) {
            Ok(back) => Ok(ServeReceipt {
                out,
                first,
                later,
                back: Snapshot::of(&back),
            }),
            Err((outgoing, job)) => {
                let body = outgoing.into_body(&ServerHand);
                let served = BodyInService {
                    out,
                    body,
                    first,
                    later,
                    of,
                };
                Err(MoreToServe { served, job })
            }
        }
    }
}

impl<N: Name, J: HandshakeOp> MoreToServe<N, J> {
    // Serves the job that arrived meanwhile.
    fn again<R: Wait>(self, rt: &R, shared: &Shared<N, J>) -> BodyInService<N, J>
        ensures same { (result.out ≡ self.served.out) × (result.first ≡ self.served.first) }
        ensures served { IsServe J.number J.whom J.asks J.may_answer self.job self.served.body
            result.body result.last }
    {
        let MoreToServe { served, job } = self;
        let BodyInService {
            out,
            mut body,
            first,
            later: _,
            of,
        } = served;
        let last = serve_body(rt, shared, &mut body, job);
        BodyInService {
            out,
            body,
            first,
            later: Some(last),
            of,
        }
    }

    // Serves the job that arrived meanwhile, and each later one, and puts the body back.
    #[inline(never)]
    fn bring_back<R: Wait>(self, rt: &R, shared: &Shared<N, J>) -> ServeReceipt<N>
        ensures same { (result.out ≡ self.served.out) × (result.first ≡ self.served.first) }
        ensures brought { IsBrought J.number J.whom J.asks J.may_answer result }
    {
        let mut served = self.again(rt, shared);
        for _ in rt.forever() {
            match served.try_back(rt, shared) {
                Ok(brought) => return brought,
                Err(undone) => served = undone.again(rt, shared),
            }
        }
        unreachable!()
    }
}
