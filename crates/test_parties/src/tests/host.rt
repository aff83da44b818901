//! A host of a system: it keeps its parties by name.
ghost use Rattle.std.specs.Prelude.{◌<◌, length, IfSome};

use crate::tests::acts::act_of;
use bodies::Name;
use parties::acts::{Act, Fault};
use parties::party::Party;
use parties::system::SharedSystem;
use std::alloc::{AllocError, Global};
use std::sync::Arc;
use test_support::rows::Player;
use test_support::said::{Said, number, shown, word};

/// A party and the name that rows give it.
#[derive(Drop)]
pub struct Member<N: Name> {
    name: String,
    party: Party<N>,
}

/// The parties of a system, all in one thread.
#[derive(Drop)]
pub struct Host<N: Name> {
    system: Arc<SharedSystem<N>>,
    members: Vec<Member<N>>,
}

// The answer of an act as text: its number, or why it is refused.
fn told(alloc: Global, answer: Result<u64, Fault>) -> Said {
    match answer {
        Ok(it) => number(alloc, it),
        Err(fault) => shown(alloc, fault),
    }
}

// The answer of an act. `submit depth of 1 2` names the targets of the request first; where a naming fails, its answer is shown.
fn answer_with<N: Name>(alloc: Global, party: &mut Party<N>, act: &str) -> Option<Said> {
    let (act, names) = act.split_once(" of ").unwrap_or((act, ""));
    let act = act_of(act)?;
    for name in names.split_whitespace() {
        match party.act(Act::Target(name.parse().ok()?)) {
            Ok(0) => {}
            answer => return Some(shown(alloc, answer)),
        }
    }
    Some(told(alloc, party.act(act)))
}

impl<N: Name> Host<N> {
    /// A host of the coordinator, `c`, and three parties that it forked: `a`, `b` and `k`.
    pub fn new(
        alloc: Global,
        system: Arc<SharedSystem<N>>,
        coordinator: Party<N>,
    ) -> Result<Host<N>, AllocError> {
        let mut host = Host {
            system,
            members: Vec::new(alloc),
        };
        for name in ["a", "b", "k"] {
            host.keep(alloc, name, coordinator.fork()?)?;
        }
        host.keep(alloc, "c", coordinator)?;
        Ok(host)
    }

    fn keep(&mut self, alloc: Global, name: &str, party: Party<N>) -> Result<(), AllocError> {
        let name = String::from_str(alloc, name)?;
        match self.members.push(Member { name, party }) {
            Ok(()) => Ok(()),
            Err(_) => Err(AllocError),
        }
    }

    // The index of the party with the name.
    fn index_of(&self, name: &str) -> Option<usize>
        ensures { IfSome result (λ i. i < length self.now.members.items) }
    {
        self.members
            .iter()
            .position(|member| member.name.as_str() == name)
    }

    // Forks another party of the system, and gives it this name.
    fn fork(&mut self, alloc: Global, index: usize, name: &str) -> Said
        requires { index < length self.old.members.items }
    {
        match self.members[index].party.fork() {
            Ok(other) => {
                self.keep(alloc, name, other)?;
                word(alloc, "0")
            }
            Err(AllocError) => word(alloc, "NoMemory"),
        }
    }

    // The answer of an act by the named party; None if there is no such act or party.
    fn answer_of(&mut self, alloc: Global, call: &str) -> Option<Said> {
        let (name, act) = call.split_once(' ')?;
        let index = self.index_of(name)?;
        if act == "free" {
            drop(self.members.swap_remove(index));
            return Some(word(alloc, "0"));
        }
        match act.strip_prefix("fork ") {
            Some(other) => Some(self.fork(alloc, index, other)),
            None => answer_with(alloc, &mut self.members[index].party, act),
        }
    }

    // Makes an act while the lock of the desk, or of a place's room, is taken. None if the lock is already taken or doesn't exist.
    fn answer_while(&mut self, alloc: Global, lock: &str, call: &str) -> Option<Said> {
        let system = Arc::try_clone(&self.system).ok()?;
        if lock == "desk" {
            let _desk = system.try_desk()?;
            return self.answer_of(alloc, call);
        }
        let place = lock.strip_prefix("room ")?.parse().ok()?;
        if place >= system.places() {
            return None;
        }
        let _room = system.try_room(place)?;
        self.answer_of(alloc, call)
    }
}

impl<N: Name, R> Player<R> for Host<N> {
    fn answer(&mut self, _rt: &R, alloc: Global, call: &str) -> Option<Said> {
        match call.split_once(": ") {
            Some((begin, act)) => self.answer_while(alloc, begin.strip_prefix("while ")?, act),
            None => self.answer_of(alloc, call),
        }
    }
}
