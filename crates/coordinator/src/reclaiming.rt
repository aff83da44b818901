//! Reclaims a code that is not entrant.
ghost use Rattle.std.specs.Prelude.{◌≡◌, ◌≢◌, ◌<◌, [], false, None, length, IfOk, OnOk, IfErr, OnErr, IfSome};
ghost use Rattle.stopped_threads.specs.Holding.{ArmsOn};
ghost use Rattle.stopped_threads.specs.Reclaiming.{IsReclaimed};
ghost use Rattle.coordinator.specs.Refused.{not_reclaimed};
ghost use Rattle.coordinator.specs.Rounds.{Shaking, Begins, Shakes, IsClosed, IsReclaimedBehind};
ghost use Rattle.desk.specs.Fields.{at};
ghost use Rattle.desk.specs.JobsFit.{jobs_fit, request_of};
ghost use Rattle.desk.specs.Refusals.{reclaim_refused};

use crate::coordinator::Coordinator;
use crate::rounds::{HandshakeClosed, RoundDone};
use bodies::Name;
use desk::{Desk, NotReclaimed, ReclaimFault};
use operations::job::HandshakeOp;
use operations::{Request, Targets};
use std::alloc::{AllocError, Global};
use std::sync::Wait;
use std::thread;
use stopped_threads::Reclaimed;

// The handshake of the jobs' targets, with the ask of the first job.
fn request_of<J: HandshakeOp>(alloc: Global, jobs: &[J]) -> Result<Option<Request>, AllocError>
    ensures ok { IfOk result (λ r. r ≡ request_of J.whom J.asks jobs.now) }
    ensures err { OnErr result (0 < length jobs.now) }
{
    let Some((first, _)) = jobs.split_first() else {
        return Ok(None);
    };
    let ask = first.ask_of();
    let mut names = Vec::with_capacity(alloc, jobs.len())?;
    let mut rest = jobs;
    while let Some((job, others)) = rest.split_first() {
        names.push(job.target_of()).map_err(|_| AllocError)?;
        rest = others;
    }
    Ok(Some(Request::Handshake {
        targets: Targets::from_vec(names),
        ask,
    }))
}

// Why a code isn't reclaimed if there is no memory for the handshake's targets: the refusal of the desk's first step
// with them.
fn fault_without_memory<N: Name, J: HandshakeOp>(
    desk: &Desk<N, J>,
    serial: u64,
    jobs: &[J],
) -> ReclaimFault
    requires jobs { 0 < length jobs.now }
    ensures { reclaim_refused (at desk.now) serial (request_of J.whom J.asks jobs.now) (λ asked.
        jobs_fit J.whom J.asks asked jobs.now) desk.now.book desk.now.keeper.moment result }
{
    if let Some(fault) = desk.weigh_fault(serial) {
        return ReclaimFault::Code(fault);
    }
    if !desk.is_idle() {
        return ReclaimFault::AlreadyOpen;
    }
    if desk.is_last_moment() {
        return ReclaimFault::Spent;
    }
    ReclaimFault::Ask(desk.ask_fault(jobs))
}

impl<'a, N: Name, J: HandshakeOp> Coordinator<'a, N, J> {
    /// Reclaims a code that is not entrant: makes a round and, if there are jobs, a handshake of their targets; looks
    /// at each place after the handshake is closed; and weighs the code. A code without activations is freed.
    ///
    /// # Errors
    /// Only the first step is refused. Nothing changes, and the jobs are returned. The first test that fails decides,
    /// even if memory is short, and `NoMemory` comes last.
    pub fn reclaim<R: Wait>(
        &mut self,
        rt: &R,
        serial: u64,
        jobs: Vec<J>,
    ) -> Result<Reclaimed<N>, NotReclaimed<J>>
        ensures reclaimed { IfOk result (IsReclaimed N.board.places serial) }
        ensures behind { IfOk result (λ said. (s : Shaking)
            × Shakes (request_of J.whom J.asks jobs.items) s
            × IsReclaimedBehind s.begun.asked N.board.places serial said) }
        ensures shaken { OnOk result (0 < length jobs.items → (self.new.held ≡ [])
            × (self.new.operated ≡ false)) }
        ensures alone { OnOk result (length jobs.items ≡ 0 → self.new ≡ self.old) }
        ensures arms { ArmsOn self.old.armer self.new.armer }

        ensures refused { IfErr result (λ e. not_reclaimed J.whom J.asks serial jobs.items e.fault
            × (self.new ≡ self.old)) }
        ensures handed_back { IfErr result (λ e. e.jobs ≡ jobs) }
    {
        let request = request_of(self.alloc, jobs.as_slice());
        let begun = self.ask(rt, serial, request, jobs)?;
        let shaken = self.shake(rt, begun);
        let said = self.weigh(rt, serial, &shaken);
        Ok(shaken.end(said))
    }

    // The first step: makes the round and, if there are jobs, queues the request.
    fn ask<R: Wait>(
        &self,
        rt: &R,
        serial: u64,
        request: Result<Option<Request>, AllocError>,
        jobs: Vec<J>,
    ) -> Result<RoundDone<N, J>, NotReclaimed<J>>
        requires request { IfOk request (λ r. r ≡ request_of J.whom J.asks jobs.items) }
        requires jobs { OnErr request (0 < length jobs.items) }
        ensures begins { IfOk result (Begins (request_of J.whom J.asks jobs.items)) }
        ensures refused { IfErr result (λ e.
            not_reclaimed J.whom J.asks serial jobs.items e.fault) }
        ensures handed_back { IfErr result (λ e. e.jobs ≡ jobs) }
    {
        let mut desk = self.shared.desk().lock(rt);
        let Ok(request) = request else {
            let fault = fault_without_memory(&desk, serial, jobs.as_slice());
            return Err(NotReclaimed { fault, jobs });
        };
        let begun = match RoundDone::begin(&mut desk, self.shared.board(), serial, request, jobs) {
            Ok(begun) => begun,
            Err(refused) => return Err(refused),
        };
        Ok(begun)
    }

    // Works on the waiting handshake until it is closed, if there is one.
    fn shake<R: Wait>(&mut self, rt: &R, begun: RoundDone<N, J>) -> HandshakeClosed<N, J>
        ensures begun { result.begun ≡ begun }
        ensures closed { IsClosed result.begun.asked result.closed }
        ensures shaken { begun.asked ≢ None → (self.new.held ≡ []) × (self.new.operated ≡ false) }
        ensures alone { begun.asked ≡ None → self.new ≡ self.old }
        ensures arms { ArmsOn self.old.armer self.new.armer }
    {
        if begun.is_alone() {
            return begun.alone();
        }
        self.shake_on(rt, begun)
    }

    fn shake_on<R: Wait>(&mut self, rt: &R, begun: RoundDone<N, J>) -> HandshakeClosed<N, J>
        ensures begun { result.begun ≡ begun }
        ensures closed { IsClosed result.begun.asked result.closed }
        ensures shaken { (self.new.held ≡ []) × (self.new.operated ≡ false) }
        ensures arms { ArmsOn self.old.armer self.new.armer }
    {
        let mut begun = begun;
        for _ in rt.forever() {
            let Ok((driven, worked)) = self.drive(rt) else {
                thread::yield_now();
                continue;
            };
            match begun.shaken(driven.number(), worked.receipt()) {
                Ok(shaken) => return shaken,
                Err(back) => begun = back,
            }
        }
        unreachable!()
    }

    // Looks at each place and weighs the code, as soon as the handshake is closed at the desk and the code can be
    // weighed.
    fn weigh<R: Wait>(&self, rt: &R, serial: u64, shaken: &HandshakeClosed<N, J>) -> Reclaimed<N>
        ensures { IsReclaimedBehind shaken.now.begun.asked N.board.places serial result }
    {
        for _ in rt.forever() {
            if let Some(said) = self.try_weigh(rt, serial, shaken) {
                return said;
            }
            thread::yield_now();
        }
        unreachable!()
    }

    fn try_weigh<R: Wait>(
        &self,
        rt: &R,
        serial: u64,
        shaken: &HandshakeClosed<N, J>,
    ) -> Option<Reclaimed<N>>
        ensures { IfSome result
            (IsReclaimedBehind shaken.now.begun.asked N.board.places serial) }
    {
        let mut desk = self.shared.desk().lock(rt);
        shaken.weigh(&mut desk, self.shared.board(), serial, self.places)
    }
}
