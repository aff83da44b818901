//! A running thread that makes the marks of a script.
ghost use Rattle.std.specs.Prelude.{◌≡◌, ◌||◌, OnOk, IfOk, IfErr, true, false};
ghost use Rattle.thread_state.specs.declared.State.TheVariants.{InJava};
ghost use Rattle.thread_list.specs.Moves.{Running, SameThread};
ghost use Rattle.desk.specs.declared.entries.Entry.{Entry};
ghost use Rattle.workers.specs.Marks.{Does, IsRefused, Enters, enter_refused, is_compiled};

use crate::crossings::{block, go_native, go_vm, return_from, turn, unwind};
use crate::gate::Gate;
use bodies::{Called, Name};
use desk::Receipt;
use interp::{Mark, Steps};
use operations::job::HandshakeOp;
use std::marker::Model;
use std::sync::Wait;
use thread_list::{CallFault, Mutator, ReturnFault, Shared};

/// Why a mark is refused, by the call that was.
#[derive(Clone, Copy, PartialEq, Eq, Debug, Drop)]
pub enum Refused {
    Call(CallFault),
    Return(ReturnFault),
}

/// A thread with what its marks need besides: the permission to wait, what threads share, and the gate of its ticks. Contracts see the
/// thread, and whether some frame so far was compiled. Between two marks the thread is in Java.
#[derive(Drop)]
pub struct Worker<'a, N: Name, J: HandshakeOp, R, G> {
    rt: &'a R,
    shared: &'a Shared<N, J>,
    gate: &'a G,
    thread: Mutator<'a, N, J>,
    compiled: bool,
}

impl<'a, N: Name, J: HandshakeOp, R, G> Model for Worker<'a, N, J, R, G> {
    ghost use Rattle.std.specs.Prelude.{◌≡◌};
    ghost use Rattle.thread_state.specs.declared.State.TheVariants.{InJava};
    ghost use Rattle.workers.specs.Marks.{Working};

    ghost Value = { Working };

    ghost view = { λ w. record { thread = w.thread; compiled = w.compiled } };

    ghost invariant = { λ w. w.thread.state ≡ InJava };
}

impl<'a, N: Name, J: HandshakeOp, R: Wait, G: Gate> Worker<'a, N, J, R, G> {
    /// The worker of a thread that has made no mark.
    pub fn new(
        rt: &'a R,
        shared: &'a Shared<N, J>,
        gate: &'a G,
        thread: Mutator<'a, N, J>,
    ) -> Worker<'a, N, J, R, G>
        requires { thread.state ≡ InJava }
        ensures thread { result.thread ≡ thread.entry }
        ensures compiled { result.compiled ≡ false }
    {
        Worker {
            rt,
            shared,
            gate,
            thread,
            compiled: false,
        }
    }

    /// The name of its thread.
    pub fn name(&self) -> u64
        ensures { result ≡ self.now.thread.name }
    {
        self.thread.name()
    }

    /// Whether some frame so far was compiled.
    pub fn compiled(&self) -> bool
        ensures { result ≡ self.now.compiled }
    {
        self.compiled
    }

    /// Returns from all methods, and exits. Answers the receipt of the thread's Exit.
    pub fn exit(self) -> Receipt<N>
        ensures { result.entry ≡ Entry.Exit self.entry.thread.name }
    {
        let mut thread = self.thread;
        for _ in self.rt.forever() {
            unwind(self.rt, &mut thread);
            match thread.exit(self.rt) {
                Ok(exited) => return exited.exit,
                Err((_, back)) => thread = back,
            }
        }
        unreachable!()
    }

    fn enter(&mut self, method: usize) -> Result<(), CallFault>
        ensures ok { OnOk result (Enters self.old.thread self.old.compiled method self.new.thread
            self.new.compiled) }
        ensures same { SameThread self.old.thread self.new.thread }
        ensures err { IfErr result (λ e. (self.new ≡ self.old)
            × enter_refused self.old.thread method e) }
    {
        let Ok(method) = u32::try_from(method) else {
            return Err(CallFault::NoSuchMethod);
        };
        let hint = self.shared.hint(method);
        let called = self.thread.call(method, hint)?;
        self.compiled = self.compiled || is_compiled(called);
        Ok(())
    }
}

/// Whether a call went into compiled code.
fn is_compiled(called: Called) -> bool
    ensures { result ≡ is_compiled called }
{
    matches!(called, Called::Compiled(_))
}

impl<'a, N: Name, J: HandshakeOp, R: Wait, G: Gate> Steps for Worker<'a, N, J, R, G> {
    /// The fault of the mutator's call.
    type Refusal = Refused;

    ghost marked = { λ s m t. Does s m t };

    ghost refused = { λ s m e t. (t ≡ s) × IsRefused s.thread m e };

    fn mark(&mut self, mark: Mark) -> Result<(), Refused> {
        match mark {
            Mark::In(method) => match self.enter(method) {
                Ok(()) => {}
                Err(fault) => return Err(Refused::Call(fault)),
            },
            Mark::Out(_) => match return_from(self.rt, &mut self.thread) {
                Ok(()) => {}
                Err(fault) => return Err(Refused::Return(fault)),
            },
            Mark::Edge => turn(self.rt, &mut self.thread),
            Mark::Native => go_native(self.rt, &mut self.thread),
            Mark::Vm => go_vm(self.rt, &mut self.thread),
            Mark::Block => block(self.rt, &mut self.thread),
            Mark::Tick => self.gate.tick(self.thread.name()),
        }
        Ok(())
    }
}
