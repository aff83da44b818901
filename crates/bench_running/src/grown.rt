//! What a call costs after a long history, among many codes or over a deep stack, and what handshakes cost if the history is forgotten
//! again and again. One thread does everything: it is in native code meanwhile, where the coordinator serves it.
use crate::acts::{
    METHOD, handshake_of, install, is_asked, is_reclaimed, queries_of, time_reclaim,
};
use crate::calls::{go_down, go_up, publish};
use crate::plan::{Kind, Plan, Times};
use crate::wrong::Wrong;
use crate::{clock, lives};
use bodies::Name;
use coordinator::Coordinator;
use operations::Request;
use operations::job::Query;
use std::alloc::Global;
use std::sync::Wait;
use std::time::Clock;
use thread_list::{Mutator, Poll, Shared};

const METHODS: usize = 256;

// The entries of a handshake of one thread: Ask, Open, Finish and Close.
const ENTRIES: u64 = 4;

// The grown system, and its coordinator and thread.
#[derive(Drop)]
struct Grown<'c, 'a, N: Name, R> {
    rt: &'c R,
    alloc: Global,
    shared: &'c Shared<N, Query>,
    coordinator: &'c mut Coordinator<'a, N, Query>,
    // The name of the one thread.
    name: u64,
}

/// Notes the time of each of the plan's turns.
pub fn time_grown<N: Name, R: Wait + Clock>(
    rt: &R,
    times: &mut Times,
    shared: &Shared<N, Query>,
    coordinator: &mut Coordinator<'_, N, Query>,
) -> Result<(), Wrong> {
    let (alloc, plan) = (times.alloc, times.plan);
    let Some(mut thread) = lives::begin(rt, alloc, shared) else {
        return Err(Wrong::Answer);
    };
    let is_down = go_down(&mut thread, plan.depth()) && publish(&mut thread);
    let gone = thread.to_native(rt).is_ok();
    let mut grown = Grown {
        rt,
        alloc,
        shared,
        coordinator,
        name: thread.name(),
    };
    let timed = grown.time_turns(times);
    let is_back = comes_back(rt, &mut thread) && go_up(&mut thread, plan.depth());
    if lives::ends(rt, thread) && is_down && gone && is_back {
        timed
    } else {
        Err(Wrong::Answer)
    }
}

fn comes_back<N: Name, R: Wait>(rt: &R, thread: &mut Mutator<'_, N, Query>) -> bool {
    match thread.from_native(rt) {
        Ok(Poll::Go) => true,
        Ok(Poll::Stop(_)) => thread.stop(rt).is_ok(),
        Err(_) => false,
    }
}

impl<'c, 'a, N: Name, R: Wait + Clock> Grown<'c, 'a, N, R> {
    fn time_turns(&mut self, times: &mut Times) -> Result<(), Wrong> {
        let plan = times.plan;
        self.take_slots(plan.taken())?;
        self.shake_hands()?;
        let more = plan.entries().saturating_sub(ENTRIES);
        self.shake_often(more.checked_div(ENTRIES).unwrap_or(0))?;
        for _ in 0..plan.turns {
            let time = self.time_turn(plan)?;
            times.note(time)?;
        }
        Ok(())
    }

    fn time_turn(&mut self, plan: Plan) -> Result<u64, Wrong> {
        match plan.kind {
            Kind::Replies => self.time_replies(),
            Kind::Forgetting => self.time_forgetting(plan.arg),
            Kind::InstallLate | Kind::InstallAmong => self.time_install(),
            Kind::HandshakeAmong | Kind::HandshakeOver => self.time_handshake(),
            Kind::CensusAmong | Kind::CensusOver => self.time_census(),
            _ => self.time_reclaim(),
        }
    }

    // Takes each slot with a code. If there are more slots than methods, a code replaces another one, which keeps its slot.
    fn take_slots(&self, slots: usize) -> Result<(), Wrong> {
        for slot in 0..slots {
            install(self.rt, self.shared, (slot % METHODS) as u32)?;
        }
        Ok(())
    }

    // A handshake of the one thread.
    fn shake_hands(&mut self) -> Result<(), Wrong> {
        let jobs = queries_of(self.alloc, &[self.name])?;
        let request = handshake_of(self.alloc, &[self.name])?;
        if is_asked(self.rt, self.shared, request, jobs) && self.is_driven() {
            Ok(())
        } else {
            Err(Wrong::Answer)
        }
    }

    fn is_driven(&mut self) -> bool {
        self.coordinator.drive(self.rt).is_ok()
    }

    fn shake_often(&mut self, handshakes: u64) -> Result<(), Wrong> {
        for _ in 0..handshakes {
            self.shake_hands()?;
        }
        Ok(())
    }

    // The time of a request from its Ask to its Close.
    fn time_request(&mut self, request: Request, jobs: Vec<Query>) -> Result<u64, Wrong> {
        let start = clock::begin(self.rt);
        let is_done = is_asked(self.rt, self.shared, request, jobs) && self.is_driven();
        let time = clock::time_since(self.rt, start)?;
        if is_done {
            Ok(time)
        } else {
            Err(Wrong::Answer)
        }
    }

    fn time_handshake(&mut self) -> Result<u64, Wrong> {
        let jobs = queries_of(self.alloc, &[self.name])?;
        let request = handshake_of(self.alloc, &[self.name])?;
        self.time_request(request, jobs)
    }

    fn time_census(&mut self) -> Result<u64, Wrong> {
        let jobs = Vec::new(self.alloc);
        self.time_request(Request::Census, jobs)
    }

    // The time to read the replies of the first handshake.
    fn time_replies(&self) -> Result<u64, Wrong> {
        let start = clock::begin(self.rt);
        let replies = self.shared.replies(self.rt, 1)?;
        let time = clock::time_since(self.rt, start);
        if replies.len() == 1 {
            time
        } else {
            Err(Wrong::Answer)
        }
    }

    // The time of so many handshakes and of forgetting the history so far.
    fn time_forgetting(&mut self, handshakes: u64) -> Result<u64, Wrong> {
        let start = clock::begin(self.rt);
        self.shake_often(handshakes)?;
        self.shared.forget(self.rt);
        let time = clock::time_since(self.rt, start)?;
        match self.shared.kept_replies(self.rt, 1)? {
            None => Ok(time),
            Some(_) => Err(Wrong::Answer),
        }
    }

    // The time to install a code, which is reclaimed after the time has ended.
    fn time_install(&mut self) -> Result<u64, Wrong> {
        let start = clock::begin(self.rt);
        let installed = install(self.rt, self.shared, METHOD);
        let time = clock::time_since(self.rt, start)?;
        self.reclaim(installed?)?;
        Ok(time)
    }

    // Reclaims the code with a handshake of the one thread, which publishes its stack there.
    fn reclaim(&mut self, serial: u64) -> Result<(), Wrong> {
        let jobs = queries_of(self.alloc, &[self.name])?;
        if is_reclaimed(self.rt, self.shared, self.coordinator, serial, jobs) {
            Ok(())
        } else {
            Err(Wrong::Answer)
        }
    }

    fn time_reclaim(&mut self) -> Result<u64, Wrong> {
        let jobs = queries_of(self.alloc, &[self.name])?;
        time_reclaim(self.rt, self.shared, self.coordinator, jobs)
    }
}
