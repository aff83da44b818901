//! The calls of a thread that may block: each puts the thread's body into its berth, or takes it back.
ghost use Rattle.std.specs.Prelude.{◌≡◌, ◌≢◌, ◌<◌, ◌==◌, ◌⊎◌, [], ℕ, true, false, Some, None, IfOk, OnOk, IfErr, IfSome, IfNone, length};
ghost use Rattle.berths.specs.Berths.{moved, Went};
ghost use Rattle.frames.specs.ImageView.{IsSettled};
ghost use Rattle.bodies.specs.Bodies.{BodyView, IsPublished};
ghost use Rattle.thread_state.specs.declared.Back.{Back as WayBack};
ghost use Rattle.thread_state.specs.declared.State.TheVariants.{InJava as IsInJava, InVm as IsInVm, InNative as IsInNative, Blocked as IsBlocked, NativeTrans as IsNativeTrans, BlockedTrans as IsBlockedTrans, AtPoll as IsAtPoll, Serving as IsServing};
ghost use Rattle.thread_state.specs.declared.Move.TheVariants as movement;
ghost use Rattle.thread_state.specs.States as table;
ghost use Rattle.desk.specs.declared.entries.Entry.{Entry};
ghost use Rattle.thread_list.specs.declared.polls.Poll.TheVariants.{Go as GoesOn};
ghost use Rattle.thread_list.specs.Moves.{SameThread, SameBody, ComesBack, GoesBack, Gives, IsResumed, IsTurn, IsVacated, IsKept, HasStopped, IsGivenUp, IsGivenUpAfter, as_polled, first_of, is_running, owns};
ghost use Rattle.thread_list.specs.BodyStates.{state_in, body_in, answer_in, given_in, serves};
ghost use Rattle.thread_list.specs.Refused.{exit_refused, HasNoFrame};

use crate::body_state::{BodyState, OwnHand, after_poll, going_on};
use crate::faults::ExitFault;
use crate::mutator::Mutator;
use crate::polls::{Poll, poll_of};
use crate::running_thread::{RunningThread, is_running};
use crate::serving::served;
use crate::shared::{Exited, Shared};
use crate::turns::Turn;
use berths::{BodyAct, BodyReceipt};
use bodies::{Body, Name};
use operations::job::HandshakeOp;
use std::sync::Wait;
use thread_state::{Back, State};

impl<'a, N: Name, J: HandshakeOp> Mutator<'a, N, J> {
    /// Crosses from Java or the VM into native code, without a poll. The body goes into its berth, where a holder may take it. A
    /// thread in another state is refused with its state.
    #[inline(always)]
    pub fn to_native<R: Wait>(&mut self, rt: &R) -> Result<(), State>
        ensures ok { OnOk result (table.step self.old.state movement.ToNative
            ≡ Some self.new.state) }
        ensures given { OnOk result (Gives self.old self.new) }
        ensures same { SameThread self.old self.new }
        ensures err { IfErr result (λ s. (s ≡ self.old.state)
            × (table.step s movement.ToNative ≡ None) × (self.new ≡ self.old)) }
    {
        let back = match &self.thread.body_state {
            BodyState::InJava(_) => Back::Java,
            BodyState::InVm(_) => Back::Vm,
            BodyState::AtPoll(_, _)
            | BodyState::InNative(_)
            | BodyState::Blocked
            | BodyState::Given(_, _)
            | BodyState::Serves(_, _, _) => return Err(self.state()),
        };
        self.give(rt, BodyState::InNative(back));
        Ok(())
    }

    /// Returns from native code: waits until nobody holds the body, takes it from the berth, and polls. What is pending stays in the
    /// berth. A thread that isn't in native code is refused with its state.
    #[inline(always)]
    pub fn from_native<R: Wait>(&mut self, rt: &R) -> Result<Poll, State>
        ensures ok { IfOk result (λ said. (back : WayBack) × (self.old.state ≡ IsInNative back)
            × ComesBack self.new.crossed.body self.new (IsNativeTrans back) said) }
        ensures resumed { OnOk result (IsResumed self.new) }
        ensures same { SameThread self.old self.new }
        ensures err { IfErr result (λ s. (s ≡ self.old.state) × ((back : WayBack)
            → s ≢ IsInNative back) × (self.new ≡ self.old)) }
    {
        let BodyState::InNative(back) = &self.thread.body_state else {
            return Err(self.state());
        };
        let back = *back;
        Ok(self.come_back(rt, back))
    }

    /// Crosses from the VM into a wait that the runtime knows of, without a poll. The body goes into its berth, where a holder
    /// may take it. A thread that isn't in the VM is refused with its state.
    pub fn block<R: Wait>(&mut self, rt: &R) -> Result<(), State>
        ensures ok { OnOk result ((self.old.state ≡ IsInVm) × (self.new.state ≡ IsBlocked)) }
        ensures given { OnOk result (Gives self.old self.new) }
        ensures same { SameThread self.old self.new }
        ensures err { IfErr result (λ s. (s ≡ self.old.state) × (s ≢ IsInVm)
            × (self.new ≡ self.old)) }
    {
        let BodyState::InVm(_) = &self.thread.body_state else {
            return Err(self.state());
        };
        self.give(rt, BodyState::Blocked);
        Ok(())
    }

    /// Returns from a wait: waits until nobody holds the body, takes it from the berth, and polls. What is pending stays in the
    /// berth. A thread that isn't blocked is refused with its state.
    pub fn unblock<R: Wait>(&mut self, rt: &R) -> Result<Poll, State>
        ensures ok { IfOk result (λ said. (self.old.state ≡ IsBlocked)
            × ComesBack self.new.crossed.body self.new IsBlockedTrans said) }
        ensures resumed { OnOk result (IsResumed self.new) }
        ensures same { SameThread self.old self.new }
        ensures err { IfErr result (λ s. (s ≡ self.old.state) × (s ≢ IsBlocked)
            × (self.new ≡ self.old)) }
    {
        let BodyState::Blocked = &self.thread.body_state else {
            return Err(self.state());
        };
        Ok(self.come_back(rt, Back::Vm))
    }

    /// Stops after a poll that answered Stop: the thread runs its pending jobs and polls after each turn, until a poll lets it
    /// continue. Returns the receipts of its first turn and of its last. A thread that isn't at a poll is refused with its state.
    pub fn stop<R: Wait>(&mut self, rt: &R) -> Result<Turn<N>, State>
        ensures given { IfOk result (λ turn. (before : BodyView) × (self.old.body ≡ Some before)
            × ((first_of turn.first turn.last).given ≡ moved before BodyAct.Given)) }
        ensures ok { IfOk result (λ turn. (back : WayBack) × (after : BodyView)
            × (self.old.state ≡ IsAtPoll back)
            × Went self.old.place self.old.name BodyAct.Given turn.last.given
            × IsTurn self.old.place self.old.name turn.last.out turn.finish after
            × ComesBack after self.new (IsServing back) GoesOn) }
        ensures same { SameThread self.old self.new }
        ensures err { IfErr result (λ s. (s ≡ self.old.state) × ((back : WayBack)
            → s ≢ IsAtPoll back) × (self.new ≡ self.old)) }
    {
        let BodyState::AtPoll(back, _) = &self.thread.body_state else {
            return Err(self.state());
        };
        let back = *back;
        let body = self.thread.body_state.take_body();
        let (body, turn) = served(rt, self.shared, body);
        self.thread.body_state = going_on(back, body);
        Ok(turn)
    }

    // Puts the body into its berth. The thread enters the state `to`, in which it doesn't own itself.
    #[inline(always)]
    fn give<R: Wait>(&mut self, rt: &R, to: BodyState<N>)
        requires running { is_running self.old.state ≡ true }
        requires safe { (owns (state_in to) ≡ false) × (is_running (state_in to) ≡ false)
            × (serves (state_in to) ≡ false) }
        requires away { (body_in to ≡ None) × (answer_in to ≡ None) × (given_in to ≡ None) }

        ensures state { self.new.state ≡ state_in to }
        ensures given { Gives self.old self.new }
        ensures same { SameThread self.old self.new }
    {
        let body = self.thread.body_state.take_body();
        self.thread.body_state = to;
        let berth = self.shared.berth_of(&body);
        self.thread.crossed = berth.give(rt, body);
    }

    // Takes the body from its berth and polls: the thread continues in the state that `back` names, or stops there.
    #[inline(always)]
    fn come_back<R: Wait>(&mut self, rt: &R, back: Back) -> Poll
        ensures polled { GoesBack self.new.crossed.body self.new back result }
        ensures resumed { IsResumed self.new }
        ensures same { SameThread self.old self.new }
    {
        let berth = self.shared.berth(self.thread.place);
        let (outgoing, resumed) = berth.resume(rt, self.thread.name, self.thread.place);
        let mut body = outgoing.into_body(&OwnHand);
        let found = body.poll(self.shared.row());
        self.thread.crossed = resumed;
        self.thread.body_state = after_poll(back, body, found);
        poll_of(found)
    }

    /// Ends the thread: it publishes its empty stack, serves what was pending before, and gives its place up. Returns three
    /// receipts: of the stops in which it served, of giving up the place, and of its Exit. Refused, with the mutator unchanged,
    /// where the thread isn't in Java or in the VM, or where its stack isn't empty. While it serves, a holder may leave frames on
    /// its body. Then the exit is refused too, and the thread is in Java, having served.
    pub fn exit<R: Wait>(self, rt: &R) -> Result<Exited<N>, (ExitFault, Mutator<'a, N, J>)>
        ensures exited { IfOk result (λ r. (r.exit.entry ≡ Entry.Exit self.entry.name)
            × (is_running self.entry.state ≡ true) × HasNoFrame self.entry.body) }
        ensures vacated { IfOk result (λ r. IsVacated self.entry.place self.entry.name r.vacated) }
        ensures at_once { IfOk result (λ r. IfNone r.served (IsGivenUp self.entry.body r.vacated)) }
        ensures first { IfOk result (λ r. IfSome r.served (λ turn.
            HasStopped self.entry.body (first_of turn.first turn.last))) }
        ensures after { IfOk result (λ r. IfSome r.served (λ turn.
            IsGivenUpAfter self.entry.place self.entry.name turn.last turn.finish r.vacated)) }

        ensures refused { IfErr result (λ e. ((e.1 ≡ self.entry) × exit_refused self.entry e.0)
            ⊎ ((is_running self.entry.state ≡ true) × HasNoFrame self.entry.body
            × (e.0 ≡ ExitFault.StackNotEmpty) × (e.1.state ≡ IsInJava) × SameThread self.entry e.1
            × exit_refused e.1 e.0
            × IsKept self.entry.place self.entry.name e.1.crossed e.1.body)) }
    {
        let state = self.state();
        if !is_running(state) {
            return Err((ExitFault::Illegal(state), self));
        }
        if self.thread.depth() != 0 {
            return Err((ExitFault::StackNotEmpty, self));
        }
        let Mutator {
            shared,
            hints,
            thread,
        } = self;
        let RunningThread {
            name,
            place,
            methods,
            mut body_state,
            seat,
            moved_in,
            crossed: _,
        } = thread;
        let body = body_state.take_body();
        match vacate(rt, shared, body) {
            Ok((vacated, served)) => Ok(shared.enter_exit(rt, vacated, served)),
            Err((body, crossed)) => {
                let thread = RunningThread {
                    name,
                    place,
                    methods,
                    body_state: BodyState::InJava(body),
                    seat,
                    moved_in,
                    crossed,
                };
                let back = Mutator {
                    shared,
                    hints,
                    thread,
                };
                Err((ExitFault::StackNotEmpty, back))
            }
        }
    }
}

// Publishes an empty stack and gives the place up, once all pending jobs are served. Returns the receipt of giving the place up,
// and the receipts of the stops in which the thread served: of the very first turn and of the last. If the body has frames after
// a stop, returns the body and the receipt that it came out of its berth to serve.
fn vacate<N: Name, J: HandshakeOp, R: Wait>(
    rt: &R,
    shared: &Shared<N, J>,
    body: Body<N>,
) -> Result<(BodyReceipt<N>, Option<Turn<N>>), (Body<N>, BodyReceipt<N>)>
    requires body { (body.seat.stored ≢ 0) × (0 < body.name) }
    requires empty { body.image.frames ≡ [] }

    ensures vacated { IfOk result (λ r. IsVacated body.seat.place body.name r.0) }
    ensures at_once { IfOk result (λ r. IfNone r.1 (IsPublished body r.0.body)) }
    ensures first { IfOk result (λ r. IfSome r.1 (λ turn.
        HasStopped (Some body) (first_of turn.first turn.last))) }
    ensures after { IfOk result (λ r. IfSome r.1 (λ turn.
        IsGivenUpAfter body.seat.place body.name turn.last turn.finish r.0)) }

    ensures same { IfErr result (λ b. SameBody body b.0) }
    ensures kept { IfErr result (λ b. IsKept body.seat.place body.name b.1 (Some b.0)) }
    ensures frames { IfErr result (λ b. 0 < length b.0.image.frames) }
{
    let mut body = body;
    let mut last = None;
    for _ in rt.forever() {
        body.publish(shared.board());
        match shared.berth_of(&body).exit(rt, body, shared.board()) {
            Ok(vacated) => return Ok((vacated, last)),
            Err(back) => {
                let (back, turn) = served(rt, shared, back);
                if back.depth() > 0 {
                    return Err((back, turn.last.out()));
                }
                body = back;
                last = Some(turn.behind(last));
            }
        }
    }
    unreachable!()
}
