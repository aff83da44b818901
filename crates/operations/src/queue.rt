// The queue of waiting requests.
ghost use Rattle.std.specs.Prelude.{◌≡◌, ◌≢◌, ◌≤◌, ◌↔◌, [], ◌∷◌, ◌++◌, length, not, nat_lt, IsTrue, Some, IfErr, IfSome, IfNone, OnOk, OnErr, option_map, slice_get};
ghost use Rattle.operations.specs.Queues.{MayWait, IsCause};

use crate::Request;
use std::alloc::Global;
use std::collections::VecDeque;
use std::marker::Model;

/// How many requests can wait.
pub const WAITING: usize = 64;

/// A waiting request with its number and its load.
#[derive(Debug, Drop)]
pub struct Waiting<T> {
    pub number: u64,
    pub request: Request,
    pub load: T,
}

/// Why the queue refuses a request: the first cause in this order.
#[derive(Clone, Copy, Debug, PartialEq, Eq, Drop)]
pub enum QueueFault {
    /// 64 requests wait.
    QueueFull,
    /// A handshake lists no name.
    NoTargets,
    /// A handshake lists a name twice, or more than 64.
    BadTargets,
    NoMemory,
}

/// A refused request with its load.
#[derive(Debug, Drop)]
pub struct Unqueued<T> {
    pub fault: QueueFault,
    pub request: Request,
    pub load: T,
}

/// Waiting requests, first in, first out.
#[derive(Drop)]
pub struct Queue<T> {
    waiting: VecDeque<Waiting<T>>,
}

impl<T> Model for Queue<T> {
    ghost use Rattle.std.specs.Prelude.{List, ◌≤◌, length};
    ghost use Rattle.operations.specs.declared.queue.Waiting.{Waiting};

    ghost Value = { List (Waiting T) };

    ghost view = { λ q. q.waiting.items };

    ghost invariant = { λ q. length q.waiting.items ≤ 64 };
}

impl<T> Queue<T> {
    /// Makes an empty queue. Doesn't allocate.
    pub fn new(alloc: Global) -> Queue<T>
        ensures { result ≡ [] }
    {
        Queue {
            waiting: VecDeque::new(alloc),
        }
    }

    /// Returns how many requests wait, at most 64.
    pub fn len(&self) -> usize
        ensures value { result ≡ length self.now }
        ensures bound { result ≤ 64 }
    {
        self.waiting.len()
    }

    pub fn is_empty(&self) -> bool
        ensures { IsTrue result ↔ (self.now ≡ []) }
    {
        self.waiting.is_empty()
    }

    /// Returns whether 64 requests wait.
    pub fn is_full(&self) -> bool
        ensures { result ≡ not (nat_lt (length self.now) 64) }
    {
        self.len() >= WAITING
    }

    /// Returns the oldest request.
    pub fn front(&self) -> Option<&Waiting<T>>
        ensures { option_map (λ oldest. oldest.now) result ≡ slice_get self.now 0 }
    {
        self.waiting.front()
    }

    /// Returns why the queue refuses the request, apart from `NoMemory`.
    pub fn refusal(&self, request: &Request) -> Option<QueueFault>
        ensures cause { IfSome result (IsCause (length self.now) request.now) }
        ensures not_memory { result ≢ Some QueueFault.NoMemory }
        ensures none { IfNone result (MayWait (length self.now) request.now) }
    {
        if self.is_full() {
            Some(QueueFault::QueueFull)
        } else if !request.has_targets() {
            Some(QueueFault::NoTargets)
        } else if !request.are_targets() {
            Some(QueueFault::BadTargets)
        } else {
            None
        }
    }

    /// Adds a request at the end.
    ///
    /// # Errors
    /// The first cause in the order of `QueueFault`. Then the request comes back with its load, and the queue is
    /// unchanged.
    pub fn push(&mut self, number: u64, request: Request, load: T) -> Result<(), Unqueued<T>>
        ensures ok { OnOk result (self.new ≡ self.old
            ++ record { number = number; request = request; load = load } ∷ []) }
        ensures accepted { OnOk result (MayWait (length self.old) request) }
        ensures refused { IfErr result (λ back. IsCause (length self.old) request back.fault) }
        ensures handed_back { IfErr result (λ back. (back.request ≡ request) × (back.load ≡ load)) }
        ensures unchanged { OnErr result (self.new ≡ self.old) }
    {
        if let Some(fault) = self.refusal(&request) {
            return Err(Unqueued {
                fault,
                request,
                load,
            });
        }
        self.push_tested(number, request, load)
    }

    /// Adds a request, which `refusal` accepts, at the end.
    ///
    /// # Errors
    /// `NoMemory`. Then the request comes back with its load, and the queue is unchanged.
    #[inline(always)]
    pub fn push_tested(&mut self, number: u64, request: Request, load: T) -> Result<(), Unqueued<T>>
        requires tested { MayWait (length self.old) request }
        ensures ok { OnOk result (self.new ≡ self.old
            ++ record { number = number; request = request; load = load } ∷ []) }
        ensures refused { IfErr result (λ back. back.fault ≡ QueueFault.NoMemory) }
        ensures handed_back { IfErr result (λ back. (back.request ≡ request) × (back.load ≡ load)) }
        ensures unchanged { OnErr result (self.new ≡ self.old) }
    {
        if self.waiting.reserve(1).is_err() {
            return Err(Unqueued {
                fault: QueueFault::NoMemory,
                request,
                load,
            });
        }
        self.waiting.push_back_reserved(Waiting {
            number,
            request,
            load,
        });
        Ok(())
    }

    /// Removes and returns the oldest request. Doesn't allocate.
    pub fn pop(&mut self) -> Option<Waiting<T>>
        ensures oldest { IfSome result (λ oldest. self.old ≡ oldest ∷ self.new) }
        ensures none { IfNone result ((self.old ≡ []) × (self.new ≡ [])) }
    {
        self.waiting.pop_front()
    }
}
