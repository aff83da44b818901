//! Submits requests, or refuses them.
ghost use Rattle.std.specs.Prelude.{◌≡◌, ◌&&◌, ◌+◌, ◌<◌, ◌^◌, ◌++◌, ◌∷◌, [], Bool, ℕ, ◌≤◌, true, length, IfOk, IfErr, IfSome, IfNone, OnOk, OnErr};
ghost use Rattle.operations.specs.declared.Request.{Request as RequestOf};
ghost use Rattle.operations.specs.Requests.{are_targets, has_targets};
ghost use Rattle.operations.specs.Queues.{MayWait};
ghost use Rattle.desk.specs.Machine.{Book, steps_of};
ghost use Rattle.desk.specs.Refusals.{ask_refused, ask_refused_if, MayAsk};
ghost use Rattle.desk.specs.Fields.{at, Enters};
ghost use Rattle.desk.specs.JobsFit.{jobs_fit, request_of};

use crate::desk::Desk;
use crate::entries::{Carried, Entry};
use crate::faults::{AskFault, Refused, ask_fault};
use crate::lists::{fit_their_request, jobs_fit, steps_of};
use crate::log::{Receipt, seen_as_ask};
use crate::names::DueRoom;
use bodies::Name;
use frames::LAST;
use operations::Request;
use operations::job::HandshakeOp;
use operations::queue::{Queue, Unqueued};
use std::mem;

// Appends a request to the queue, with its jobs and memory for the due names of `targets` targets. Uses `spare` if it
// is large enough. If memory is refused, returns the jobs.
#[inline(always)]
fn wait_for_its_turn<J>(
    queue: &mut Queue<Carried<J>>,
    spare: DueRoom,
    targets: usize,
    number: u64,
    request: Request,
    jobs: Vec<J>,
) -> Result<(), Vec<J>>
    requires tested { MayWait (length queue.old) request }
    ensures ok { OnOk result ((room : ℕ) × (targets ≤ room + 1)
        × (queue.new ≡ queue.old
        ++ record {
          number = number;
          request = request;
          load = record { room = room; jobs = jobs };
        } ∷ [])) }
    ensures handed_back { IfErr result (λ back. back ≡ jobs) }
    ensures unchanged { OnErr result (queue.new ≡ queue.old) }
{
    let Ok(room) = spare.for_names(targets) else {
        return Err(jobs);
    };
    match queue.push_tested(number, request, Carried { room, jobs }) {
        Ok(()) => Ok(()),
        Err(back) => {
            let Unqueued {
                fault: _,
                request: _,
                load,
            } = back;
            let Carried { room: _, jobs } = load;
            Err(jobs)
        }
    }
}

impl<N: Name, J: HandshakeOp> Desk<N, J> {
    /// Enters an Ask and queues the request with its jobs: one for each target, in the same order, each with the
    /// request's ask. Returns the request's number and the receipt.
    ///
    /// # Errors
    /// The first fault in the order of `AskFault`, with the jobs.
    #[inline(always)]
    pub fn submit(
        &mut self,
        request: Request,
        jobs: Vec<J>,
    ) -> Result<(u64, Receipt<N>), Refused<J>>
        ensures ok { IfOk result (λ r. Enters self.old self.new (Entry.Ask r.0 request) r.1) }
        ensures reserved { OnOk result
            ((self.new.book.reserved ≡ self.old.book.reserved + (2 + steps_of request))
            × (self.new.keeper ≡ self.old.keeper)) }
        ensures jobs { self.new.jobs ≡ self.old.jobs }
        ensures accepted { OnOk result
            (MayAsk (at self.old) request (jobs_fit J.whom J.asks request jobs.items)
            self.old.book) }

        ensures err { IfErr result (λ e.
            (self.new ≡ self.old)
            × ask_refused (at self.old) request (jobs_fit J.whom J.asks request jobs.items)
            self.old.book e.fault) }
        ensures handed_back { IfErr result (λ e. e.jobs ≡ jobs) }
    {
        let fits = jobs_fit(&request, jobs.as_slice());
        let good = request.are_targets() && fits;
        if let Some(fault) = self.ask_refusal(request.has_targets(), good) {
            return Err(Refused { fault, jobs });
        }
        let entries = 3 + steps_of(&request);
        let targets = match self.log.keep_request(&request) {
            Ok(targets) => targets,
            Err(fault) => return Err(Refused {
                fault: ask_fault(fault),
                jobs,
            }),
        };
        let number = self.next_number;
        let (seen, request) = seen_as_ask(number, request);
        let spare = mem::replace(&mut self.spare, DueRoom::new(self.alloc));
        if let Err(jobs) = wait_for_its_turn(
            &mut self.queue,
            spare,
            targets,
            number,
            request,
            jobs,
        ) {
            self.log.give_back(entries);
            return Err(Refused {
                fault: AskFault::NoMemory,
                jobs,
            });
        }
        self.next_number += 1;
        Ok((number, self.log.enter_ask(targets, seen)))
    }

    // Why a request is refused before any room is reserved for it. `has_some`: it has targets. `good`: its targets are
    // good and its jobs fit.
    #[inline(always)]
    fn ask_refusal(&self, has_some: bool, good: bool) -> Option<AskFault>
        ensures some { IfSome result (λ fault. (r : RequestOf) (fits : Bool) (b : Book)
            → has_targets r ≡ has_some → (are_targets r && fits) ≡ good
            → ask_refused (at self.now) r fits b fault) }
        ensures none { IfNone result (((at self.now).next_number < 2 ^ 40)
            × (length (at self.now).waiting < 64)
            × (has_some ≡ true) × (good ≡ true)) }
    {
        if self.next_number > LAST {
            return Some(AskFault::Spent);
        }
        if self.queue.is_full() {
            return Some(AskFault::QueueFull);
        }
        if !has_some {
            return Some(AskFault::NoTargets);
        }
        if !good {
            return Some(AskFault::BadTargets);
        }
        None
    }

    /// Returns why `submit` refuses a handshake of these jobs' targets, in order, with the ask of the first job;
    /// `NoMemory` if no test refuses it. Makes no request and doesn't allocate.
    pub fn ask_fault(&self, jobs: &[J]) -> AskFault
        requires jobs { 0 < length jobs.now }
        ensures { ask_refused_if (at self.now) (request_of J.whom J.asks jobs.now)
            (λ asked. jobs_fit J.whom J.asks asked jobs.now) self.now.book
            result }
    {
        if let Some(fault) = self.ask_refusal(true, fit_their_request(jobs)) {
            return fault;
        }
        if !self.log.has_room(3 + jobs.len()) {
            return AskFault::HistoryFull;
        }
        AskFault::NoMemory
    }
}
