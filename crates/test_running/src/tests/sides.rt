//! The thread's side and the coordinator's side of a case, and the steps that several cases share.
use crate::tests::beside::Signals;
use bodies::{Called, Name};
use coordinator::Coordinator;
use operations::job::HandshakeOp;
use operations::{Ask, Request, Targets};
use std::alloc::{AllocError, Global};
use std::sync::Wait;
use std::sync::atomic::Ordering;
use std::thread;
use test_support::pop_list;
use test_support::waits::take_turns;
use thread_list::{Mutator, Poll, ReturnFault, Shared};

/// The side of a thread that has started. Each step answers whether it succeeded.
#[derive(Drop)]
pub struct ThreadSide<'s, 'a, N: Name, J: HandshakeOp> {
    pub shared: &'s Shared<N, J>,
    pub thread: Mutator<'a, N, J>,
    pub signals: &'s Signals,
    /// The index of the thread, from 0 on.
    pub index: usize,
}

impl<N: Name, J: HandshakeOp> ThreadSide<'_, '_, N, J> {
    /// Signals that the thread has reached its meeting point.
    pub fn arrive(&self) {
        self.signals.there.fetch_add(1, Ordering::SeqCst);
    }

    /// Enters a method with this code this many times.
    pub fn call_often(&mut self, method: u32, serial: u64, times: u64) -> bool {
        for _ in 0..times {
            let called = self.thread.call(method, self.shared.hint(method));
            if !matches!(called, Ok(Called::Compiled(s)) if s == serial) {
                return false;
            }
        }
        true
    }

    /// Stops if the poll says so. Fails if the poll was refused.
    pub fn heed<R: Wait, F: Drop>(&mut self, rt: &R, said: Result<Poll, F>) -> bool {
        match said {
            Ok(Poll::Go) => true,
            Ok(Poll::Stop(_)) => self.thread.stop(rt).is_ok(),
            Err(_) => false,
        }
    }

    /// Makes back edges, and stops where a poll says so, until the coordinator has finished.
    pub fn run_until_done<R: Wait>(&mut self, rt: &R) -> bool {
        let done = &self.signals.done;
        take_turns(rt, done, || {
            let said = self.thread.back_edge();
            self.heed(rt, said)
        })
    }

    /// Returns from all methods, and stops where a poll says so.
    pub fn return_all<R: Wait>(&mut self, rt: &R) -> bool {
        for _ in 0..257 {
            let said = self.thread.ret();
            if let Err(fault) = said {
                return fault == ReturnFault::EmptyStack;
            }
            if !self.heed(rt, said) {
                return false;
            }
        }
        false
    }
}

/// Waits until the coordinator has come this far, or has finished without that. Answers whether it has come this far.
pub fn wait_told<R: Wait>(rt: &R, signals: &Signals, far: u64) -> bool {
    for _ in rt.forever() {
        if signals.told.load(Ordering::SeqCst) >= far {
            return true;
        }
        if signals.done.load(Ordering::SeqCst) {
            return false;
        }
        thread::yield_now();
    }
    unreachable!()
}

/// The coordinator's side, with the lists of jobs, the next one last.
#[derive(Drop)]
pub struct CoordinatorSide<'s, 'a, 'g, N: Name, J: HandshakeOp> {
    pub alloc: Global,
    pub shared: &'s Shared<N, J>,
    pub coordinator: Coordinator<'a, N, J>,
    pub signals: &'g Signals,
    pub lists: Vec<Vec<J>>,
}

impl<N: Name, J: HandshakeOp> CoordinatorSide<'_, '_, '_, N, J> {
    /// Submits a handshake for the names with this query and the next jobs. Answers whether it was accepted.
    pub fn ask<R: Wait>(&mut self, rt: &R, names: &[u64], ask: Ask) -> bool {
        let jobs = pop_list(self.alloc, &mut self.lists);
        let Ok(names) = Vec::from_slice(self.alloc, names) else {
            return false;
        };
        let targets = Targets::from_vec(names);
        self.shared
            .submit(rt, Request::Handshake { targets, ask }, jobs)
            .is_ok()
    }

    /// Whether the replies of an operation are these, in any order.
    pub fn are_replies<R: Wait>(
        &self,
        rt: &R,
        op: u64,
        expected: &[(u64, u64)],
    ) -> Result<bool, AllocError> {
        let said = self.shared.replies(rt, op)?;
        Ok(said.len() == expected.len() && expected.iter().all(|e| said.iter().any(|r| r == e)))
    }
}
