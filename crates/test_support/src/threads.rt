//! Threads whose calls are all made by one thread.
ghost use Rattle.std.specs.Prelude.{◌<◌, length, IfSome};

use crate::calls::Call;
use crate::said::{Said, called, done, number, polled, shown, word};
use bodies::Name;
use frames::CodeId;
use operations::job::HandshakeOp;
use std::alloc::{AllocError, Global};
use std::sync::Wait;
use thread_list::{Mutator, Shared};

/// Threads by their names, over what they share.
#[derive(Drop)]
pub struct NamedThreads<'a, N: Name, J: HandshakeOp> {
    pub shared: &'a Shared<N, J>,
    threads: Vec<Mutator<'a, N, J>>,
}

impl<'a, N: Name, J: HandshakeOp> NamedThreads<'a, N, J> {
    pub fn new(alloc: Global, shared: &'a Shared<N, J>) -> NamedThreads<'a, N, J> {
        NamedThreads {
            shared,
            threads: Vec::new(alloc),
        }
    }

    fn keep(&mut self, thread: Mutator<'a, N, J>) -> Result<(), AllocError> {
        match self.threads.push(thread) {
            Ok(()) => Ok(()),
            Err(_) => Err(AllocError),
        }
    }

    /// Starts a thread, and returns its name.
    pub fn start<R: Wait>(&mut self, rt: &R, alloc: Global) -> Said {
        match self.shared.start(rt, alloc) {
            Ok((thread, _receipt)) => {
                let name = thread.name();
                self.keep(thread)?;
                number(alloc, name)
            }
            Err(fault) => shown(alloc, fault),
        }
    }

    // The index of the thread of the name.
    fn index_of(&self, name: u64) -> Option<usize>
        ensures { IfSome result (λ i. i < length self.now.threads.items) }
    {
        self.threads.iter().position(|thread| thread.name() == name)
    }

    /// The thread of the name.
    pub fn get(&mut self, name: u32) -> Option<&mut Mutator<'a, N, J>> {
        let index = self.index_of(name as u64)?;
        Some(&mut self.threads[index])
    }

    /// The thread of the name exits.
    pub fn exit<R: Wait>(&mut self, rt: &R, alloc: Global, name: u32) -> Option<Said> {
        let index = self.index_of(name as u64)?;
        match self.threads.swap_remove(index).exit(rt) {
            Ok(_receipts) => Some(word(alloc, "exited")),
            Err((fault, back)) => match self.keep(back) {
                Ok(()) => Some(shown(alloc, fault)),
                Err(error) => Some(Err(error)),
            },
        }
    }

    /// A call of the thread of the first number, if the call doesn't block.
    pub fn run(&mut self, alloc: Global, call: Call<'_>) -> Option<Said> {
        let shared = self.shared;
        let thread = self.get(call.first)?;
        let said = match call.name {
            "call" => called(alloc, thread.call(call.second, hint_of(shared, call))),
            "call_by_hint" => called(alloc, thread.call_by_hint(call.second)),
            "ret" => polled(alloc, thread.ret()),
            "back_edge" => polled(alloc, thread.back_edge()),
            "publish" => done(alloc, thread.publish()),
            "to_vm" => done(alloc, thread.to_vm()),
            "from_vm" => polled(alloc, thread.from_vm()),
            "state" => shown(alloc, thread.state()),
            "place" => number(alloc, thread.place() as u64),
            _ => return None,
        };
        Some(said)
    }
}

// The hint of a call: the method's, or none where the call ends with a word.
fn hint_of<N: Name, J: HandshakeOp>(shared: &Shared<N, J>, call: Call<'_>) -> Option<CodeId>
    ensures { IfSome result (λ c. c.slot < N.board.slots) }
{
    match call.last {
        "" => shared.hint(call.second),
        _ => None,
    }
}
