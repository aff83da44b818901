//! Calls of a thread, on a running system.
ghost use Rattle.std.specs.Prelude.{◌≡◌, ◌<◌, length, IfSome};

use super::Side;
use crate::faults::{of_call, of_exit, of_return, of_start};
use bodies::{Called, Name};
use differential_schedule::calls::ThreadCall;
use differential_schedule::said::Said;
use frames::CodeId;
use operations::job::HandshakeOp;
use std::sync::Wait;
use system::answers::Refusal;
use thread_list::{CallFault, Mutator, Poll, ReturnFault};
use thread_state::State;

// The index of the thread with the name.
fn index_of<N: Name, J: HandshakeOp>(threads: &[Mutator<'_, N, J>], name: u64) -> Option<usize>
    ensures { IfSome result (λ i. i < length threads.now) }
{
    for index in 0..threads.len() {
        if threads[index].name() == name {
            return Some(index);
        }
    }
    None
}

// The answer to a call that may be refused with the thread's state.
fn of_done(said: Result<(), State>) -> Said {
    match said {
        Ok(()) => Said::Done,
        Err(state) => Said::Refused(Refusal::Illegal(state)),
    }
}

fn of_poll(poll: Poll) -> Said {
    match poll {
        Poll::Go => Said::Go,
        Poll::Stop(number) => Said::Stop(number),
    }
}

fn of_polled(said: Result<Poll, State>) -> Said {
    match said {
        Ok(poll) => of_poll(poll),
        Err(state) => Said::Refused(Refusal::Illegal(state)),
    }
}

fn of_returned(said: Result<Poll, ReturnFault>) -> Said {
    match said {
        Ok(poll) => of_poll(poll),
        Err(fault) => Said::Refused(of_return(fault)),
    }
}

fn of_called(said: Result<Called, CallFault>) -> Said {
    match said {
        Ok(Called::Compiled(serial)) => Said::Compiled(serial),
        Ok(Called::Interpreted) => Said::Interpreted,
        Err(fault) => Said::Refused(of_call(fault)),
    }
}

// A call that neither blocks nor needs a hint.
fn make<N: Name, J: HandshakeOp>(thread: &mut Mutator<'_, N, J>, call: ThreadCall) -> Said {
    match call {
        ThreadCall::Ret => of_returned(thread.ret()),
        ThreadCall::BackEdge => of_polled(thread.back_edge()),
        ThreadCall::Publish => of_done(thread.publish()),
        ThreadCall::ToVm => of_done(thread.to_vm()),
        _ => of_polled(thread.from_vm()),
    }
}

// A call that locks a berth.
fn wait<N: Name, J: HandshakeOp, R: Wait>(
    rt: &R,
    thread: &mut Mutator<'_, N, J>,
    call: ThreadCall,
) -> Said {
    match call {
        ThreadCall::ToNative => of_done(thread.to_native(rt)),
        ThreadCall::FromNative => of_polled(thread.from_native(rt)),
        ThreadCall::Block => of_done(thread.block(rt)),
        ThreadCall::Unblock => of_polled(thread.unblock(rt)),
        _ => stop(rt, thread),
    }
}

fn stop<N: Name, J: HandshakeOp, R: Wait>(rt: &R, thread: &mut Mutator<'_, N, J>) -> Said {
    match thread.stop(rt) {
        Ok(_turn) => Said::Done,
        Err(state) => Said::Refused(Refusal::Illegal(state)),
    }
}

impl<'a, N: Name, J: HandshakeOp> Side<'a, N, J> {
    pub(super) fn start<R: Wait>(&mut self, rt: &R) -> Said {
        match self.tables.shared().start(rt, self.alloc) {
            Ok((thread, _receipt)) => {
                let said = Said::Thread(thread.name(), thread.place());
                self.keep(thread, said)
            }
            Err(fault) => of_start(fault),
        }
    }

    // Puts the thread back, for other calls.
    fn keep(&mut self, thread: Mutator<'a, N, J>, said: Said) -> Said {
        match self.threads.push(thread) {
            Ok(()) => said,
            Err(_) => Said::NoMemory,
        }
    }

    pub(super) fn of_thread<R: Wait>(&mut self, rt: &R, name: u64, call: ThreadCall) -> Said {
        let Some(index) = index_of(self.threads.as_slice(), name) else {
            return Said::Gone;
        };
        let mut thread = self.threads.swap_remove(index);
        let said = self.call_of(rt, &mut thread, call);
        self.keep(thread, said)
    }

    fn call_of<R: Wait>(&self, rt: &R, thread: &mut Mutator<'a, N, J>, call: ThreadCall) -> Said {
        match call {
            ThreadCall::Call(method, hint) => self.call(thread, method, hint),
            ThreadCall::Ret
            | ThreadCall::BackEdge
            | ThreadCall::Publish
            | ThreadCall::ToVm
            | ThreadCall::FromVm => make(thread, call),
            _ => wait(rt, thread, call),
        }
    }

    fn call(&self, thread: &mut Mutator<'a, N, J>, method: u32, hint: Option<CodeId>) -> Said {
        let hint = self.tables.known(hint);
        of_called(thread.call(method, hint))
    }

    pub(super) fn exit<R: Wait>(&mut self, rt: &R, name: u64) -> Said {
        let Some(index) = index_of(self.threads.as_slice(), name) else {
            return Said::Gone;
        };
        let thread = self.threads.swap_remove(index);
        match thread.exit(rt) {
            Ok(_receipt) => Said::Exited(name),
            Err((fault, back)) => self.keep(back, Said::Refused(of_exit(fault))),
        }
    }
}
