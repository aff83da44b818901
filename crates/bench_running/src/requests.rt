//! One request of the main thread to the others.
use crate::acts::{handshake_of, jobs_of, time_reclaim};
use crate::clock;
use crate::plan::{Kind, Plan};
use crate::signals::Signals;
use crate::wrong::Wrong;
use bodies::Name;
use coordinator::{Coordinator, Driven};
use operations::Request;
use operations::job::HandshakeOp;
use std::alloc::{AllocError, Global};
use std::sync::Wait;
use std::time::Clock;
use test_tools::keep;
use thread_list::Shared;

/// The main thread's part of a run.
#[derive(Drop)]
pub struct Asker<'c, 'x, 'a, N: Name, J: HandshakeOp, R> {
    pub(crate) rt: &'a R,
    pub(crate) alloc: Global,
    pub(crate) plan: Plan,
    pub(crate) shared: &'a Shared<N, J>,
    pub(crate) signals: &'a Signals,
    coordinator: &'c mut Coordinator<'x, N, J>,
    // The names of the threads, which are live throughout: from 1 on, in the order of their starts.
    names: Vec<u64>,
    // What the last census counted.
    counted: Vec<(u64, u32)>,
}

// The kind of a request that was processed up to its Close.
#[derive(Clone, Copy, Drop)]
enum Done {
    Handshake,
    Census,
}

// The names from 1 to that of the last thread.
fn names_of(alloc: Global, threads: usize) -> Result<Vec<u64>, AllocError> {
    let mut names = Vec::with_capacity(alloc, threads)?;
    for before in 0..threads {
        keep(&mut names, (before as u64).saturating_add(1))?;
    }
    Ok(names)
}

impl<'c, 'x, 'a, N: Name, J: HandshakeOp, R: Wait + Clock> Asker<'c, 'x, 'a, N, J, R> {
    /// An asker of the plan's threads.
    pub fn new(
        rt: &'a R,
        alloc: Global,
        plan: Plan,
        shared: &'a Shared<N, J>,
        signals: &'a Signals,
        coordinator: &'c mut Coordinator<'x, N, J>,
    ) -> Result<Asker<'c, 'x, 'a, N, J, R>, AllocError> {
        let names = names_of(alloc, plan.threads)?;
        Ok(Asker {
            rt,
            alloc,
            plan,
            shared,
            signals,
            coordinator,
            names,
            counted: Vec::new(alloc),
        })
    }

    /// Makes one stop of the plan's kind, and returns the time that it took. Its jobs are made before its time begins.
    pub fn ask<M: Fn(u64) -> Result<J, AllocError>>(&mut self, make: &M) -> Result<u64, Wrong>
        requires makes { M.IsAlwaysCallable make.now }
    {
        let kind = self.plan.kind;
        if matches!(kind, Kind::Census) {
            return self.count();
        }
        let jobs = jobs_of(self.alloc, self.names.as_slice(), make)?;
        match kind {
            Kind::Reclaim => time_reclaim(self.rt, self.shared, self.coordinator, jobs),
            _ => self.shake_hands(jobs),
        }
    }

    // The kind of a driven request. The list of a census is kept.
    fn done_of(&mut self, driven: Driven) -> Done {
        match driven {
            Driven::Handshake(_) => Done::Handshake,
            Driven::Census(_, list) => {
                self.counted = list;
                Done::Census
            }
        }
    }

    // The time of a request from its Ask to its Close, and its kind. The answers of both calls are tested after the time has ended.
    fn time(&mut self, request: Request, jobs: Vec<J>) -> Result<(u64, Done), Wrong> {
        let start = clock::begin(self.rt);
        let asked = self.shared.submit(self.rt, request, jobs);
        let driven = self.coordinator.drive(self.rt);
        let time = clock::time_since(self.rt, start)?;
        if asked.is_err() {
            return Err(Wrong::Answer);
        }
        match driven {
            Ok((driven, _receipt)) => Ok((time, self.done_of(driven))),
            Err(_) => Err(Wrong::Answer),
        }
    }

    fn shake_hands(&mut self, jobs: Vec<J>) -> Result<u64, Wrong> {
        let request = handshake_of(self.alloc, self.names.as_slice())?;
        match self.time(request, jobs)? {
            (time, Done::Handshake) => Ok(time),
            _ => Err(Wrong::Answer),
        }
    }

    fn count(&mut self) -> Result<u64, Wrong> {
        // The list of the last census is dropped before the time begins.
        self.counted = Vec::new(self.alloc);
        match self.time(Request::Census, Vec::new(self.alloc))? {
            (time, Done::Census) if self.are_counted() => Ok(time),
            _ => Err(Wrong::Answer),
        }
    }

    // Each thread has a frame of the one code.
    fn are_counted(&self) -> bool {
        match self.counted.as_slice() {
            [(_, frames)] => *frames as usize == self.names.len(),
            _ => false,
        }
    }
}
