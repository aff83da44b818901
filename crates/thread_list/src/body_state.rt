//! The state of a thread, with its body while the thread has that in hand.
ghost use Rattle.std.specs.Prelude.{◌≡◌, ◌≢◌, ◌==◌, true, Some, None, IfSome, IfNone};
ghost use Rattle.thread_state.specs.declared.State.TheVariants.{AtPoll as IsAtPoll, Serving as IsServing};
ghost use Rattle.thread_state.specs.declared.Back.{Back as WayBack};
ghost use Rattle.thread_state.specs.declared.Back.TheVariants.{Java as OfJava};
ghost use Rattle.thread_state.specs.States as table;
ghost use Rattle.thread_list.specs.BodyStates.{state_in, body_in, answer_in, given_in};
ghost use Rattle.thread_list.specs.Moves.{is_there};

use berths::{BodyOwner, BodyReceipt};
use bodies::{Body, Name};
use operations::job::Done;
use std::mem;
use thread_state::{Back, State};

/// The hand of a thread that owns itself.
#[derive(Drop)]
pub(crate) struct OwnHand;

impl BodyOwner for OwnHand {}

/// The state of a thread between its calls. The body is part of it: a call that tests the state needs no further test for the
/// body.
#[derive(Drop)]
pub(crate) enum BodyState<N: Name> {
    InJava(Body<N>),
    InVm(Body<N>),
    AtPoll(Back, Body<N>),
    /// In these the body is in its berth, or held.
    InNative(Back),
    Blocked,
    /// Stopped at a poll. The body is in its berth, or held, until it comes out to serve.
    Given(Back, BodyReceipt<N>),
    /// Stopped. Its oldest job has answered, and the answer isn't entered yet.
    Serves(Back, Body<N>, Done),
}

/// The state of a thread that stops at a poll in Java. Out of line, since few polls stop: inlined, the compiler would build this
/// state by moves at each poll, even where the thread continues.
#[cold]
#[inline(never)]
pub(crate) fn at_poll<N: Name>(body: Body<N>) -> BodyState<N>
    ensures state { state_in result ≡ IsAtPoll OfJava }
    ensures body { (body_in result ≡ Some body) × (answer_in result ≡ None)
        × (given_in result ≡ None) }
{
    BodyState::AtPoll(Back::Java, body)
}

/// The state of a thread that polled with this body and found this number: it continues where `back` leads, or stops there.
#[inline(always)]
pub(crate) fn after_poll<N: Name>(back: Back, body: Body<N>, found: u64) -> BodyState<N>
    ensures state { table.either (found == 0) (table.state_of back) back ≡ Some (state_in result) }
    ensures body { (body_in result ≡ Some body) × (answer_in result ≡ None)
        × (given_in result ≡ None) }
{
    if found == 0 {
        going_on(back, body)
    } else {
        BodyState::AtPoll(back, body)
    }
}

/// The state of a thread that continues with this body where `back` leads.
#[inline(always)]
pub(crate) fn going_on<N: Name>(back: Back, body: Body<N>) -> BodyState<N>
    ensures state { state_in result ≡ table.state_of back }
    ensures body { (body_in result ≡ Some body) × (answer_in result ≡ None)
        × (given_in result ≡ None) }
{
    match back {
        Back::Java => BodyState::InJava(body),
        Back::Vm => BodyState::InVm(body),
    }
}

impl<N: Name> BodyState<N> {
    pub(crate) fn state(&self) -> State
        ensures { result ≡ state_in self.now }
    {
        match self {
            BodyState::InJava(_) => State::InJava,
            BodyState::InVm(_) => State::InVm,
            BodyState::AtPoll(back, _) => State::AtPoll(*back),
            BodyState::InNative(back) => State::InNative(*back),
            BodyState::Blocked => State::Blocked,
            BodyState::Given(back, _) => State::AtPoll(*back),
            BodyState::Serves(back, _, _) => State::Serving(*back),
        }
    }

    /// Takes the body out; the rest of the state is overwritten.
    #[inline(always)]
    pub(crate) fn take_body(&mut self) -> Body<N>
        requires { is_there (body_in self.old) ≡ true }
        ensures { body_in self.old ≡ Some result }
    {
        match mem::replace(self, BodyState::Blocked) {
            BodyState::InJava(body) => body,
            BodyState::InVm(body) => body,
            BodyState::AtPoll(_, body) => body,
            BodyState::Serves(_, body, _) => body,
            BodyState::InNative(_) | BodyState::Blocked | BodyState::Given(_, _) => unreachable!(),
        }
    }

    /// Takes out the receipt that a stopped thread's body is in its berth; the rest of the state is overwritten.
    pub(crate) fn take_given(&mut self) -> Option<BodyReceipt<N>>
        ensures some { IfSome result
            (λ r. (given_in self.old ≡ Some r) × (body_in self.old ≡ None)) }
        ensures none { IfNone result ((self.new ≡ self.old) × (given_in self.old ≡ None)) }
    {
        let BodyState::Given(_, _) = self else {
            return None;
        };
        match mem::replace(self, BodyState::Blocked) {
            BodyState::Given(_, given) => Some(given),
            BodyState::InJava(_)
            | BodyState::InVm(_)
            | BodyState::AtPoll(_, _)
            | BodyState::InNative(_)
            | BodyState::Blocked
            | BodyState::Serves(_, _, _) => unreachable!(),
        }
    }

    /// Takes out the body with its job's answer; the rest of the state is overwritten.
    pub(crate) fn take_answered(&mut self) -> Option<(Back, Body<N>, Done)>
        ensures some { IfSome result
            (λ r. (state_in self.old ≡ IsServing r.0) × (body_in self.old ≡ Some r.1)
            × (answer_in self.old ≡ Some r.2) × (given_in self.old ≡ None)) }
        ensures none { IfNone result ((self.new ≡ self.old)
            × ((back : WayBack) → state_in self.old ≢ IsServing back)) }
    {
        let BodyState::Serves(_, _, _) = self else {
            return None;
        };
        match mem::replace(self, BodyState::Blocked) {
            BodyState::Serves(back, body, done) => Some((back, body, done)),
            BodyState::InJava(_)
            | BodyState::InVm(_)
            | BodyState::AtPoll(_, _)
            | BodyState::InNative(_)
            | BodyState::Blocked
            | BodyState::Given(_, _) => unreachable!(),
        }
    }
}
