//! A running thread without the shared state: the calls that it makes while it runs, over words that are lent to it.
ghost use Rattle.std.specs.Prelude.{◌≡◌, ◌≢◌, ◌<◌, ◌==◌, ◌++◌, ◌∷◌, [], ℕ, true, false, Some, None, IfOk, OnOk, OnErr, IfErr, IfSome, length, if◌then◌else◌};
ghost use Rattle.thread_state.specs.declared.State.TheVariants.{InJava as IsInJava, InVm as IsInVm, AtPoll as IsAtPoll};
ghost use Rattle.thread_state.specs.declared.Back.TheVariants.{Java as OfJava};
ghost use Rattle.bodies.specs.Bodies.{BodyView, IsPublished};
ghost use Rattle.thread_list.specs.Moves.{SameThread, Calls, CallsByHint, Polls, Leaves, is_running};
ghost use Rattle.thread_list.specs.Refused.{call_accepted, call_refused, return_refused};

use crate::body_state::{BodyState, at_poll};
use crate::faults::{CallFault, ReturnFault};
use crate::hints::HintWords;
use crate::polls::{Poll, poll_of};
use berths::{BodyReceipt, SeatReceipt};
use board::Board;
use bodies::{Body, Called, Name};
use frames::CodeId;
use frames::image::DEPTH;
use poll::PollRow;
use std::marker::Model;
use thread_state::State;

/// A running thread without the shared state: its name, its state and, while it owns itself, its body. A thread that stops in
/// steps is of this type too. If it is dropped, its place stays taken.
#[derive(Drop)]
pub struct RunningThread<N: Name> {
    pub(crate) name: u64,
    pub(crate) place: usize,
    // A whole word: after a 32-bit number there would be padding, which would be copied with it wherever the thread is in
    // registers.
    pub(crate) methods: usize,
    pub(crate) body_state: BodyState<N>,
    /// The receipts of its start: the seat of its place came out, and its body went in, published once.
    pub(crate) seat: SeatReceipt<N>,
    pub(crate) moved_in: BodyReceipt<N>,
    /// The receipt of its last crossing at its berth: its body went in, or came out.
    pub(crate) crossed: BodyReceipt<N>,
}

impl<N: Name> Model for RunningThread<N> {
    ghost use Rattle.thread_list.specs.Moves.{Running};
    ghost use Rattle.thread_list.specs.Steps.{IsRunning};
    ghost use Rattle.thread_list.specs.BodyStates.{state_in, body_in, answer_in, given_in, last_of};

    ghost Value = { Running };

    ghost view = { λ m. record {
      name = m.name;
      place = m.place;
      methods = m.methods;
      state = state_in m.body_state;
      body = body_in m.body_state;
      crossed = last_of (given_in m.body_state) m.crossed;
    } };

    ghost invariant = { λ m. IsRunning N.board.places m.name m.place (state_in m.body_state)
        (body_in m.body_state) (answer_in m.body_state) m.seat m.moved_in
        (last_of (given_in m.body_state) m.crossed) };
}

impl<N: Name> RunningThread<N> {
    /// The thread's name.
    pub fn name(&self) -> u64
        ensures { result ≡ self.now.name }
    {
        self.name
    }

    /// The place whose words are the thread's.
    pub fn place(&self) -> usize
        ensures value { result ≡ self.now.place }
        ensures bound { result < N.board.places }
    {
        self.place
    }

    /// The thread's state.
    pub fn state(&self) -> State
        ensures { result ≡ self.now.state }
    {
        self.body_state.state()
    }

    /// Enters a method: by the code of the hint if one load finds its entry in use; otherwise, or without a hint, as an
    /// interpreted frame.
    #[inline(always)]
    pub fn call(
        &mut self,
        board: &Board,
        method: u32,
        hint: Option<CodeId>,
    ) -> Result<Called, CallFault>
        requires board { board.now ≡ N.board }
        requires slot { IfSome hint (λ c. c.slot < N.board.slots) }

        ensures accepted { OnOk result (call_accepted self.old method) }
        ensures step { IfOk result (Calls self.old self.new method hint) }
        ensures state { self.new.state ≡ self.old.state }
        ensures same { SameThread self.old self.new }
        ensures err { IfErr result (λ e. (self.new ≡ self.old) × call_refused self.old method e) }
    {
        let BodyState::InJava(body) = &mut self.body_state else {
            return Err(CallFault::Illegal(self.state()));
        };
        // The accepted case comes first in each test: the compiler lays it out as straight-line code.
        if (method as usize) < self.methods {
            if body.depth() < DEPTH {
                Ok(body.call(board, method, hint))
            } else {
                Err(CallFault::DepthFull)
            }
        } else {
            Err(CallFault::NoSuchMethod)
        }
    }

    /// Enters a method by its hint, as `call` does.
    #[inline(always)]
    pub(crate) fn call_by_hint(
        &mut self,
        board: &Board,
        hints: &HintWords<'_>,
        slots: u32,
        method: u32,
    ) -> Result<Called, CallFault>
        requires board { board.now ≡ N.board }
        requires methods { hints.now ≡ self.old.methods }
        requires slots { slots ≡ N.board.slots }

        ensures accepted { OnOk result (call_accepted self.old method) }
        ensures step { IfOk result (CallsByHint N.board.slots self.old self.new method) }
        ensures state { self.new.state ≡ self.old.state }
        ensures same { SameThread self.old self.new }
        ensures err { IfErr result (λ e. (self.new ≡ self.old) × call_refused self.old method e) }
    {
        let BodyState::InJava(body) = &mut self.body_state else {
            return Err(CallFault::Illegal(self.body_state.state()));
        };
        // Each method has a hint word, so looking it up tests the method too.
        match hints.of(method, slots) {
            Some(hint) => {
                if body.depth() < DEPTH {
                    // The two cases are separate calls, so that the hint isn't tested twice.
                    Ok(match hint {
                        Some(code) => body.call(board, method, Some(code)),
                        None => body.call(board, method, None),
                    })
                } else {
                    Err(CallFault::DepthFull)
                }
            }
            None => Err(CallFault::NoSuchMethod),
        }
    }

    /// Returns from the method of the top frame, and polls: one load.
    #[inline(always)]
    pub fn ret(&mut self, row: &PollRow) -> Result<Poll, ReturnFault>
        requires row { row.now ≡ N.poll_row }
        ensures accepted { OnOk result (self.old.state ≡ IsInJava) }
        ensures left { IfOk result (Leaves self.old self.new) }
        ensures same { SameThread self.old self.new }
        ensures err { IfErr result (λ e. (self.new ≡ self.old) × return_refused self.old e) }
    {
        let BodyState::InJava(body) = &mut self.body_state else {
            return Err(ReturnFault::Illegal(self.state()));
        };
        if body.depth() == 0 {
            return Err(ReturnFault::EmptyStack);
        }
        body.ret();
        let found = body.poll(row);
        if found != 0 {
            self.stop_at_poll();
        }
        Ok(poll_of(found))
    }

    /// A back edge of a loop: the thread polls, by one load. A thread that isn't in Java is refused with its state.
    #[inline(always)]
    pub fn back_edge(&mut self, row: &PollRow) -> Result<Poll, State>
        requires row { row.now ≡ N.poll_row }
        ensures ok { IfOk result (λ said. (self.old.state ≡ IsInJava)
            × Polls self.old self.new IsInJava said) }
        ensures same { SameThread self.old self.new }
        ensures err { IfErr result (λ s. (s ≡ self.old.state) × (s ≢ IsInJava)
            × (self.new ≡ self.old)) }
    {
        let BodyState::InJava(body) = &mut self.body_state else {
            return Err(self.state());
        };
        let found = body.poll(row);
        if found != 0 {
            self.stop_at_poll();
        }
        Ok(poll_of(found))
    }

    /// Publishes the stack: one load of the moment, a step for each code whose counts differ, and a store of the moment that was
    /// loaded. A thread that doesn't own itself is refused with its state.
    #[inline(always)]
    pub fn publish(&mut self, board: &Board) -> Result<(), State>
        requires board { board.now ≡ N.board }

        ensures published { OnOk result ((old : BodyView) × (new : BodyView)
            × (self.old.body ≡ Some old) × (self.new.body ≡ Some new) × IsPublished old new) }
        ensures lawful { OnOk result (is_running self.old.state ≡ true) }
        ensures state { self.new.state ≡ self.old.state }
        ensures same { SameThread self.old self.new }
        ensures err { IfErr result (λ s. (s ≡ self.old.state) × (is_running s ≡ false)
            × (self.new ≡ self.old)) }
    {
        match &mut self.body_state {
            BodyState::InJava(body) => body.publish(board),
            BodyState::InVm(body) => body.publish(board),
            BodyState::AtPoll(_, _)
            | BodyState::InNative(_)
            | BodyState::Blocked
            | BodyState::Given(_, _)
            | BodyState::Serves(_, _, _) => return Err(self.state()),
        }
        Ok(())
    }

    /// Crosses from Java into the VM, without a poll. A thread that isn't in Java is refused with its state.
    #[inline(always)]
    pub fn to_vm(&mut self) -> Result<(), State>
        ensures ok { OnOk result ((self.old.state ≡ IsInJava)
            × (self.new ≡ record self.old { state = IsInVm })) }
        ensures err { IfErr result (λ s. (s ≡ self.old.state) × (s ≢ IsInJava)
            × (self.new ≡ self.old)) }
    {
        let BodyState::InJava(_) = &self.body_state else {
            return Err(self.state());
        };
        let body = self.body_state.take_body();
        self.body_state = BodyState::InVm(body);
        Ok(())
    }

    /// Crosses from the VM back into Java and polls, by one load. A thread that isn't in the VM is refused with its state.
    #[inline(always)]
    pub fn from_vm(&mut self, row: &PollRow) -> Result<Poll, State>
        requires row { row.now ≡ N.poll_row }
        ensures ok { IfOk result (λ said. (self.old.state ≡ IsInVm)
            × Polls self.old self.new IsInVm said) }
        ensures same { SameThread self.old self.new }
        ensures err { IfErr result (λ s. (s ≡ self.old.state) × (s ≢ IsInVm)
            × (self.new ≡ self.old)) }
    {
        let BodyState::InVm(body) = &mut self.body_state else {
            return Err(self.state());
        };
        let found = body.poll(row);
        if found == 0 {
            self.go_on();
        } else {
            self.stop_at_poll();
        }
        Ok(poll_of(found))
    }

    // Stops a thread that polled on its way into Java. Inlined, since a call would take the thread's address: what a loop keeps
    // by value would then lie in memory, and each call would test the thread's state again.
    #[inline(always)]
    fn stop_at_poll(&mut self)
        requires running { is_running self.old.state ≡ true }
        ensures { self.new ≡ record self.old { state = IsAtPoll OfJava } }
    {
        let body = self.body_state.take_body();
        self.body_state = at_poll(body);
    }

    // Lets a thread that polled in the VM continue in Java.
    #[inline(always)]
    fn go_on(&mut self)
        requires running { is_running self.old.state ≡ true }
        ensures { self.new ≡ record self.old { state = IsInJava } }
    {
        let body = self.body_state.take_body();
        self.body_state = BodyState::InJava(body);
    }
}

/// Whether a thread in this state runs its own code, in Java or in the VM.
#[inline(always)]
pub fn is_running(state: State) -> bool
    ensures { result ≡ is_running state }
{
    matches!(state, State::InJava | State::InVm)
}
