// The events of requests and operations.
ghost use Rattle.std.specs.Prelude.{◌≡◌, true, IfOk, OnErr, IfSome, IfNone};
ghost use Rattle.system.specs.declared.events.Event.TheVariants as events;
ghost use Rattle.system.specs.declared.answers.Answer.TheVariants as answers;
ghost use Rattle.system.specs.Kept.Asking.{refusal_of};
ghost use Rattle.system.specs.Memory.{Accepts};
ghost use Rattle.system.specs.Stands.{Does};

use crate::answers::{Answer, Refusal};
use crate::keeping::Core;
use crate::requests::Open;
use crate::tells::{may_tell_any, place_of, tell_at};
use frames::LAST;
use operations::Request;
use operations::queue::QueueFault;
use std::alloc::AllocError;

// The refusal for a fault of the queue, or `None` for lack of memory.
fn refusal_of(fault: QueueFault) -> Option<Refusal>
    ensures { result ≡ refusal_of fault }
{
    match fault {
        QueueFault::QueueFull => Some(Refusal::QueueFull),
        QueueFault::NoTargets => Some(Refusal::NoTargets),
        QueueFault::BadTargets => Some(Refusal::BadTargets),
        QueueFault::NoMemory => None,
    }
}

impl Core {
    /// Returns why the request would be refused, apart from memory: `Spent`, `QueueFull`, `NoTargets`, `BadTargets`, in
    /// this order.
    pub fn ask_refusal(&self, request: &Request) -> Option<Refusal>
        ensures refused { IfSome result
            (λ refusal. Does (events.Ask request.now) self.now (answers.Refused refusal) self.now) }
        ensures none { IfNone result (Accepts self.now (events.Ask request.now)) }
    {
        if self.requests.numbers >= LAST {
            return Some(Refusal::Spent);
        }
        match self.requests.waiting.refusal(request) {
            Some(fault) => refusal_of(fault),
            None => None,
        }
    }

    /// Puts the request into the queue with the next number. The refusals are those of `ask_refusal`.
    ///
    /// # Errors
    /// Memory is refused, and the event would be accepted.
    pub fn ask(&mut self, request: Request) -> Result<Answer, AllocError>
        ensures does { IfOk result (λ answer. Does (events.Ask request) self.old answer self.new) }
        ensures refused { OnErr result (self.new ≡ self.old) }
        ensures no_memory { OnErr result (Accepts self.old (events.Ask request)) }
    {
        if self.requests.numbers >= LAST {
            return Ok(Answer::Refused(Refusal::Spent));
        }
        let number = self.requests.numbers + 1;
        match self.requests.waiting.push(number, request, ()) {
            Ok(()) => {
                self.requests.numbers = number;
                Ok(Answer::Asked(number))
            }
            Err(unqueued) => match refusal_of(unqueued.fault) {
                Some(refusal) => Ok(Answer::Refused(refusal)),
                None => Err(AllocError),
            },
        }
    }

    /// Opens the oldest request. Refusals in this order: `AlreadyOpen`, `QueueEmpty`.
    pub fn open_next(&mut self) -> Answer
        ensures { Does events.Open self.old result self.new }
    {
        if !self.requests.may_open() {
            return Answer::Refused(Refusal::AlreadyOpen);
        }
        let Some(oldest) = self.requests.waiting.pop() else {
            return Answer::Refused(Refusal::QueueEmpty);
        };
        let kind = oldest.request.kind();
        let number = oldest.number;
        self.requests.opens.push(Open {
            number,
            request: oldest.request,
            names: self.names,
            operated: false,
        });
        Answer::Opened(number, kind)
    }

    /// Closes the open operation of this number, or the oldest one. Refusals in this order: `NothingOpen`, `NotOf`,
    /// `Held`, `NotDone`.
    pub fn close(&mut self, number: Option<u64>) -> Answer
        ensures { Does (events.Close number) self.old result self.new }
    {
        let operations = self.requests.opens.as_slice();
        if operations.is_empty() {
            return Answer::Refused(Refusal::NothingOpen);
        }
        let Some(at) = self.requests.opens.place_of(number) else {
            return Answer::Refused(Refusal::NotOf);
        };
        let open = &operations[at];
        if open.is_any_held(&self.places) {
            return Answer::Refused(Refusal::Held);
        }
        if !open.is_over(&self.places) {
            return Answer::Refused(Refusal::NotDone);
        }
        let closed = open.number;
        self.requests.opens.take(at);
        Answer::Closed(closed)
    }

    /// Arms the poll of a thread for the oldest operation that has the thread as a live target and wasn't told to it.
    /// Refusals in this order: `NothingOpen`, `NotOf`, `AlreadyTold`.
    pub fn tell(&mut self, name: u64) -> Answer
        ensures { Does (events.Tell name) self.old result self.new }
    {
        let operations = self.requests.opens.as_slice();
        if operations.is_empty() {
            return Answer::Refused(Refusal::NothingOpen);
        }
        let Some(place) = place_of(&self.places, name) else {
            return if may_tell_any(operations, name, self.names) {
                Answer::Gone
            } else {
                Answer::Refused(Refusal::NotOf)
            };
        };
        tell_at(&mut self.places, place, operations, self.names)
    }
}
