//! The calls of a thread, made directly or through a stream that notes them. Each call is a function of its own: a function that makes many
//! of them needn't carry their contracts.
ghost use Rattle.std.specs.Prelude.{◌<◌, IfSome};

use bodies::{Called, Name};
use desk::StartFault;
use frames::CodeId;
use operations::job::HandshakeOp;
use recorder::Stream;
use std::alloc::Global;
use std::sync::Wait;
use thread_list::{CallFault, ExitFault, Mutator, Poll, ReturnFault, Shared};
use thread_state::State;

/// The stream of a thread's calls; None if they aren't noted.
#[derive(Drop)]
pub struct Calls<'r, 'a, R: Wait> {
    pub rt: &'r R,
    pub stream: Option<Stream<'a>>,
}

impl<'r, 'a, R: Wait> Calls<'r, 'a, R> {
    pub fn start<'s, N: Name, J: HandshakeOp>(
        &mut self,
        shared: &'s Shared<N, J>,
        alloc: Global,
    ) -> Result<Mutator<'s, N, J>, StartFault> {
        let started = match &mut self.stream {
            Some(stream) => stream.start(shared, self.rt, alloc),
            None => shared.start(self.rt, alloc),
        };
        match started {
            Ok((thread, _receipt)) => Ok(thread),
            Err(fault) => Err(fault),
        }
    }

    /// Exits. If the exit is refused it answers why, and hands the thread back.
    pub fn exit<'m, N: Name, J: HandshakeOp>(
        &mut self,
        thread: Mutator<'m, N, J>,
    ) -> Option<(ExitFault, Mutator<'m, N, J>)> {
        let exited = match &mut self.stream {
            Some(stream) => stream.exit(thread, self.rt),
            None => thread.exit(self.rt),
        };
        match exited {
            Ok(_receipt) => None,
            Err(refused) => Some(refused),
        }
    }

    pub fn call<N: Name, J: HandshakeOp>(
        &mut self,
        thread: &mut Mutator<'_, N, J>,
        method: u32,
        hint: Option<CodeId>,
    ) -> Result<Called, CallFault>
        requires slot { IfSome hint (λ c. c.slot < N.board.slots) }
    {
        match &mut self.stream {
            Some(stream) => stream.call(thread, method, hint),
            None => thread.call(method, hint),
        }
    }

    pub fn ret<N: Name, J: HandshakeOp>(
        &mut self,
        thread: &mut Mutator<'_, N, J>,
    ) -> Result<Poll, ReturnFault> {
        match &mut self.stream {
            Some(stream) => stream.ret(thread),
            None => thread.ret(),
        }
    }

    pub fn back_edge<N: Name, J: HandshakeOp>(
        &mut self,
        thread: &mut Mutator<'_, N, J>,
    ) -> Result<Poll, State> {
        match &mut self.stream {
            Some(stream) => stream.back_edge(thread),
            None => thread.back_edge(),
        }
    }

    pub fn publish<N: Name, J: HandshakeOp>(&mut self, thread: &mut Mutator<'_, N, J>) -> bool {
        match &mut self.stream {
            Some(stream) => stream.publish(thread).is_ok(),
            None => thread.publish().is_ok(),
        }
    }

    pub fn to_vm<N: Name, J: HandshakeOp>(&mut self, thread: &mut Mutator<'_, N, J>) -> bool {
        match &mut self.stream {
            Some(stream) => stream.to_vm(thread).is_ok(),
            None => thread.to_vm().is_ok(),
        }
    }

    pub fn from_vm<N: Name, J: HandshakeOp>(
        &mut self,
        thread: &mut Mutator<'_, N, J>,
    ) -> Result<Poll, State> {
        match &mut self.stream {
            Some(stream) => stream.from_vm(thread),
            None => thread.from_vm(),
        }
    }

    pub fn to_native<N: Name, J: HandshakeOp>(&mut self, thread: &mut Mutator<'_, N, J>) -> bool {
        match &mut self.stream {
            Some(stream) => stream.to_native(thread, self.rt).is_ok(),
            None => thread.to_native(self.rt).is_ok(),
        }
    }

    pub fn from_native<N: Name, J: HandshakeOp>(
        &mut self,
        thread: &mut Mutator<'_, N, J>,
    ) -> Result<Poll, State> {
        match &mut self.stream {
            Some(stream) => stream.from_native(thread, self.rt),
            None => thread.from_native(self.rt),
        }
    }

    pub fn block<N: Name, J: HandshakeOp>(&mut self, thread: &mut Mutator<'_, N, J>) -> bool {
        match &mut self.stream {
            Some(stream) => stream.block(thread, self.rt).is_ok(),
            None => thread.block(self.rt).is_ok(),
        }
    }

    pub fn unblock<N: Name, J: HandshakeOp>(
        &mut self,
        thread: &mut Mutator<'_, N, J>,
    ) -> Result<Poll, State> {
        match &mut self.stream {
            Some(stream) => stream.unblock(thread, self.rt),
            None => thread.unblock(self.rt),
        }
    }

    pub fn stop<N: Name, J: HandshakeOp>(&mut self, thread: &mut Mutator<'_, N, J>) -> bool {
        match &mut self.stream {
            Some(stream) => stream.stop(thread, self.rt).is_ok(),
            None => thread.stop(self.rt).is_ok(),
        }
    }
}
