//! A thread's own part: the calls that it makes while it runs, which wait for nobody.
ghost use Rattle.std.specs.Prelude.{◌≡◌, ◌≢◌, ◌<◌, ◌==◌, ◌++◌, ◌∷◌, [], ℕ, true, false, Some, None, IfOk, OnOk, OnErr, IfErr, IfSome, length, if◌then◌else◌};
ghost use Rattle.thread_state.specs.declared.State.TheVariants.{InJava as IsInJava, InVm as IsInVm};
ghost use Rattle.bodies.specs.Bodies.{BodyView, IsPublished};
ghost use Rattle.thread_list.specs.Moves.{SameThread, Calls, CallsByHint, Polls, Leaves, is_running};
ghost use Rattle.thread_list.specs.Refused.{call_accepted, call_refused, return_refused};

use crate::faults::{CallFault, ReturnFault};
use crate::hints::HintWords;
use crate::polls::Poll;
use crate::running_thread::RunningThread;
use crate::shared::Shared;
use bodies::{Called, Name};
use frames::CodeId;
use operations::job::HandshakeOp;
use std::marker::Model;
use thread_state::State;

/// A running thread: its name, its state and, while it owns itself, its body. If it is dropped, its place stays taken.
#[derive(Drop)]
pub struct Mutator<'a, N: Name, J: HandshakeOp> {
    pub(crate) shared: &'a Shared<N, J>,
    /// Its own copy of the hints' address and length, so that a call by a hint doesn't read them from the shared state.
    pub(crate) hints: HintWords<'a>,
    pub(crate) thread: RunningThread<N>,
}

impl<'a, N: Name, J: HandshakeOp> Model for Mutator<'a, N, J> {
    ghost use Rattle.std.specs.Prelude.{◌≡◌, true};
    ghost use Rattle.thread_list.specs.Moves.{Running, is_there, owns};

    ghost Value = { Running };

    ghost view = { λ m. m.thread };

    ghost invariant = { λ m. (m.thread.methods ≡ m.shared.now.methods)
        × (m.hints ≡ m.shared.now.methods)
        × (owns m.thread.state ≡ true → is_there m.thread.body ≡ true) };
}

impl<'a, N: Name, J: HandshakeOp> Mutator<'a, N, J> {
    /// The thread's name.
    pub fn name(&self) -> u64
        ensures { result ≡ self.now.name }
    {
        self.thread.name()
    }

    /// The place whose words are the thread's.
    pub fn place(&self) -> usize
        ensures value { result ≡ self.now.place }
        ensures bound { result < N.board.places }
    {
        self.thread.place()
    }

    /// The thread's state.
    pub fn state(&self) -> State
        ensures { result ≡ self.now.state }
    {
        self.thread.state()
    }

    /// Enters a method: by the code of the hint if one load finds its entry in use; otherwise, or without a hint, as an
    /// interpreted frame.
    #[inline(always)]
    pub fn call(&mut self, method: u32, hint: Option<CodeId>) -> Result<Called, CallFault>
        requires slot { IfSome hint (λ c. c.slot < N.board.slots) }

        ensures accepted { OnOk result (call_accepted self.old method) }
        ensures step { IfOk result (Calls self.old self.new method hint) }
        ensures state { self.new.state ≡ self.old.state }
        ensures same { SameThread self.old self.new }
        ensures err { IfErr result (λ e. (self.new ≡ self.old) × call_refused self.old method e) }
    {
        self.thread.call(self.shared.board(), method, hint)
    }

    /// Enters a method by its hint, the code that was installed for it last. As with `call`, it enters that code if one load
    /// finds its entry in use; otherwise, or without a hint, it pushes an interpreted frame.
    #[inline(always)]
    pub fn call_by_hint(&mut self, method: u32) -> Result<Called, CallFault>
        ensures accepted { OnOk result (call_accepted self.old method) }
        ensures step { IfOk result (CallsByHint N.board.slots self.old self.new method) }
        ensures state { self.new.state ≡ self.old.state }
        ensures same { SameThread self.old self.new }
        ensures err { IfErr result (λ e. (self.new ≡ self.old) × call_refused self.old method e) }
    {
        let (board, slots) = (self.shared.board(), self.shared.slots());
        self.thread.call_by_hint(board, &self.hints, slots, method)
    }

    /// Returns from the method of the top frame, and polls: one load.
    #[inline(always)]
    pub fn ret(&mut self) -> Result<Poll, ReturnFault>
        ensures accepted { OnOk result (self.old.state ≡ IsInJava) }
        ensures left { IfOk result (Leaves self.old self.new) }
        ensures same { SameThread self.old self.new }
        ensures err { IfErr result (λ e. (self.new ≡ self.old) × return_refused self.old e) }
    {
        self.thread.ret(self.shared.row())
    }

    /// A back edge of a loop: the thread polls, by one load. A thread that isn't in Java is refused with its state.
    #[inline(always)]
    pub fn back_edge(&mut self) -> Result<Poll, State>
        ensures ok { IfOk result (λ said. (self.old.state ≡ IsInJava)
            × Polls self.old self.new IsInJava said) }
        ensures same { SameThread self.old self.new }
        ensures err { IfErr result (λ s. (s ≡ self.old.state) × (s ≢ IsInJava)
            × (self.new ≡ self.old)) }
    {
        self.thread.back_edge(self.shared.row())
    }

    /// Publishes the stack: one load of the moment, a step for each code whose counts differ, and a store of the moment that was
    /// loaded. A thread that doesn't own itself is refused with its state.
    #[inline(always)]
    pub fn publish(&mut self) -> Result<(), State>
        ensures published { OnOk result ((old : BodyView) × (new : BodyView)
            × (self.old.body ≡ Some old) × (self.new.body ≡ Some new) × IsPublished old new) }
        ensures lawful { OnOk result (is_running self.old.state ≡ true) }
        ensures state { self.new.state ≡ self.old.state }
        ensures same { SameThread self.old self.new }
        ensures err { IfErr result (λ s. (s ≡ self.old.state) × (is_running s ≡ false)
            × (self.new ≡ self.old)) }
    {
        self.thread.publish(self.shared.board())
    }

    /// Crosses from Java into the VM, without a poll. A thread that isn't in Java is refused with its state.
    pub fn to_vm(&mut self) -> Result<(), State>
        ensures ok { OnOk result ((self.old.state ≡ IsInJava)
            × (self.new ≡ record self.old { state = IsInVm })) }
        ensures err { IfErr result (λ s. (s ≡ self.old.state) × (s ≢ IsInJava)
            × (self.new ≡ self.old)) }
    {
        self.thread.to_vm()
    }

    /// Crosses from the VM back into Java and polls, by one load. A thread that isn't in the VM is refused with its state.
    pub fn from_vm(&mut self) -> Result<Poll, State>
        ensures ok { IfOk result (λ said. (self.old.state ≡ IsInVm)
            × Polls self.old self.new IsInVm said) }
        ensures same { SameThread self.old self.new }
        ensures err { IfErr result (λ s. (s ≡ self.old.state) × (s ≢ IsInVm)
            × (self.new ≡ self.old)) }
    {
        self.thread.from_vm(self.shared.row())
    }
}
