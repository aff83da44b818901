//! A running system all of whose calls one thread makes.
use crate::tests::calls::asked_in;
use crate::tests::shared::{ask, submit};
use crate::tests::steps::reclaim;
use crate::tests::threads::cross;
use bodies::Name;
use coordinator::Coordinator;
use operations::job::HandshakeOp;
use operations::{Ask, Request, Targets};
use std::alloc::Global;
use std::sync::Wait;
use test_support::calls::{Call, call_of};
use test_support::rows::Player;
use test_support::said::Said;
use test_support::threads::NamedThreads;

/// The threads with their shared state, the coordinator, and the jobs of each call that has some, the next ones last.
#[derive(Drop)]
pub struct System<'a, N: Name, J: HandshakeOp> {
    pub coordinator: Coordinator<'a, N, J>,
    pub threads: NamedThreads<'a, N, J>,
    pub jobs: Vec<Vec<J>>,
}

impl<N: Name, J: HandshakeOp> System<'_, N, J> {
    // A call with jobs that have this query and these targets: `reclaim 1 depth of 1 2`, or the submit of a handshake.
    fn with_jobs<R: Wait>(
        &mut self,
        rt: &R,
        alloc: Global,
        text: &str,
        asked: (Ask, Vec<u64>),
    ) -> Option<Said> {
        if let Some(reclaimed) = text.strip_prefix("reclaim ") {
            let (serial, _) = reclaimed.split_once(' ')?;
            let serial = serial.parse().ok()?;
            return Some(reclaim(rt, alloc, &mut self.coordinator, serial, &mut self.jobs));
        }
        let (ask, whom) = asked;
        let targets = Targets::from_vec(whom);
        let request = Request::Handshake { targets, ask };
        Some(submit(rt, alloc, self.threads.shared, request, &mut self.jobs))
    }

    // A call without jobs.
    fn alone<R: Wait>(&mut self, rt: &R, alloc: Global, call: Call<'_>) -> Option<Said> {
        match call.name {
            "start" => return Some(self.threads.start(rt, alloc)),
            "exit" => return self.threads.exit(rt, alloc, call.first),
            _ => {}
        }
        let said = self.coordinate(rt, alloc, call);
        if said.is_some() {
            return said;
        }
        let said = ask(rt, alloc, self.threads.shared, call);
        if said.is_some() {
            return said;
        }
        match self.threads.run(alloc, call) {
            None => cross(rt, alloc, &mut self.threads, call),
            said => said,
        }
    }
}

impl<N: Name, J: HandshakeOp, R: Wait> Player<R> for System<'_, N, J> {
    fn answer(&mut self, rt: &R, alloc: Global, call: &str) -> Option<Said> {
        if call == "submit census" {
            let mut none = Vec::new(alloc);
            return Some(submit(rt, alloc, self.threads.shared, Request::Census, &mut none));
        }
        match asked_in(alloc, call) {
            Ok(Some(asked)) => self.with_jobs(rt, alloc, call, asked),
            Ok(None) => self.alone(rt, alloc, call_of(call)?),
            Err(error) => Some(Err(error)),
        }
    }
}
