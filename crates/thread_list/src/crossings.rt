//! A running thread's crossings into native code or a wait, and back, over a room that is lent to it. Each call is one try.
ghost use Rattle.std.specs.Prelude.{◌≡◌, ◌≢◌, true, false, Some, None, IfOk, IfErr, IfSome, IfNone};
ghost use Rattle.thread_state.specs.declared.State.TheVariants.{InVm as IsInVm, InNative as IsInNative, Blocked as IsBlocked, NativeTrans as IsNativeTrans, BlockedTrans as IsBlockedTrans};
ghost use Rattle.thread_state.specs.declared.Back.{Back as WayBack};
ghost use Rattle.thread_state.specs.declared.Move.TheVariants as movement;
ghost use Rattle.thread_state.specs.States as table;
ghost use Rattle.berths.specs.Berths.{moved, IsAbsent};
ghost use Rattle.thread_list.specs.Moves.{SameThread, Gives, ComesBack, GoesBack, IsResumed, is_running};
ghost use Rattle.thread_list.specs.BodyStates.{state_in, body_in, answer_in, given_in, serves};
ghost use Rattle.thread_list.specs.Rooms.{Declines, GoesIn, ComesOut};

use crate::body_state::{BodyState, OwnHand, after_poll, going_on};
use crate::polls::{Poll, poll_of};
use crate::running_thread::RunningThread;
use berths::Room;
use bodies::Name;
use operations::job::HandshakeOp;
use poll::PollRow;
use thread_state::{Back, State};

impl<N: Name> RunningThread<N> {
    /// Crosses from Java or the VM into native code, without a poll. The body goes into its room, where a holder may take it.
    /// `false` where the room doesn't take the body; then nothing changes. A thread in another state is refused with its state.
    #[inline(always)]
    pub fn to_native<J: HandshakeOp>(&mut self, room: &mut Room<N, J>) -> Result<bool, State>
        ensures ok { IfOk result
            (λ done. done ≡ true
            → table.step self.old.state movement.ToNative ≡ Some self.new.state) }
        ensures given { IfOk result (λ done. done ≡ true → Gives self.old self.new) }
        ensures room { IfOk result (λ done. done ≡ true → GoesIn self.old room.old room.new) }
        ensures again { IfOk result
            (λ done. done ≡ false → (self.new ≡ self.old) × (room.new ≡ room.old)) }
        ensures declined { IfOk result
            (λ done. done ≡ false → Declines room.old self.old.name self.old.place) }
        ensures same { SameThread self.old self.new }

        ensures err { IfErr result
            (λ s. (s ≡ self.old.state) × (table.step s movement.ToNative ≡ None)
            × (self.new ≡ self.old) × (room.new ≡ room.old)) }
    {
        let back = match &self.body_state {
            BodyState::InJava(_) => Back::Java,
            BodyState::InVm(_) => Back::Vm,
            BodyState::AtPoll(_, _)
            | BodyState::InNative(_)
            | BodyState::Blocked
            | BodyState::Given(_, _)
            | BodyState::Serves(_, _, _) => {
                return Err(self.state());
            }
        };
        Ok(self.give(room, back, BodyState::InNative(back)))
    }

    /// Returns from native code: takes the body from its room, unless somebody holds it, and polls. What is pending stays in the
    /// room. None where the body isn't in the room; then nothing changes. A thread that isn't in native code is refused with its
    /// state.
    #[inline(always)]
    pub fn from_native<J: HandshakeOp>(
        &mut self,
        room: &mut Room<N, J>,
        row: &PollRow,
    ) -> Result<Option<Poll>, State>
        requires row { row.now ≡ N.poll_row }

        ensures ok { IfOk result
            (λ done. IfSome done
            (λ said. (back : WayBack) × (self.old.state ≡ IsInNative back)
            × ComesBack self.new.crossed.body self.new (IsNativeTrans back) said)) }
        ensures resumed { IfOk result (λ done. IfSome done (λ said. IsResumed self.new)) }
        ensures room { IfOk result
            (λ done. IfSome done (λ said. ComesOut self.new room.old room.new)) }
        ensures again { IfOk result
            (λ done. IfNone done ((self.new ≡ self.old) × (room.new ≡ room.old))) }
        ensures absent { IfOk result
            (λ done. IfNone done (IsAbsent room.old self.old.name self.old.place)) }
        ensures same { SameThread self.old self.new }

        ensures err { IfErr result
            (λ s. (s ≡ self.old.state) × ((back : WayBack) → s ≢ IsInNative back)
            × (self.new ≡ self.old) × (room.new ≡ room.old)) }
    {
        let BodyState::InNative(back) = &self.body_state else {
            return Err(self.state());
        };
        let back = *back;
        Ok(self.come_back(room, row, back))
    }

    /// Crosses from the VM into a wait that the runtime knows of, without a poll. The body goes into its room, where a holder may
    /// take it. `false` where the room doesn't take the body; then nothing changes. A thread that isn't in the VM is refused with
    /// its state.
    pub fn block<J: HandshakeOp>(&mut self, room: &mut Room<N, J>) -> Result<bool, State>
        ensures ok { IfOk result
            (λ done. done ≡ true → (self.old.state ≡ IsInVm) × (self.new.state ≡ IsBlocked)) }
        ensures given { IfOk result (λ done. done ≡ true → Gives self.old self.new) }
        ensures room { IfOk result (λ done. done ≡ true → GoesIn self.old room.old room.new) }
        ensures again { IfOk result
            (λ done. done ≡ false → (self.new ≡ self.old) × (room.new ≡ room.old)) }
        ensures declined { IfOk result
            (λ done. done ≡ false → Declines room.old self.old.name self.old.place) }
        ensures same { SameThread self.old self.new }

        ensures err { IfErr result
            (λ s. (s ≡ self.old.state) × (s ≢ IsInVm) × (self.new ≡ self.old)
            × (room.new ≡ room.old)) }
    {
        let BodyState::InVm(_) = &self.body_state else {
            return Err(self.state());
        };
        Ok(self.give(room, Back::Vm, BodyState::Blocked))
    }

    /// Returns from a wait: takes the body from its room, unless somebody holds it, and polls. What is pending stays in the room.
    /// None where the body isn't in the room; then nothing changes. A thread that isn't blocked is refused with its state.
    pub fn unblock<J: HandshakeOp>(
        &mut self,
        room: &mut Room<N, J>,
        row: &PollRow,
    ) -> Result<Option<Poll>, State>
        requires row { row.now ≡ N.poll_row }

        ensures ok { IfOk result
            (λ done. IfSome done
            (λ said. (self.old.state ≡ IsBlocked)
            × ComesBack self.new.crossed.body self.new IsBlockedTrans said)) }
        ensures resumed { IfOk result (λ done. IfSome done (λ said. IsResumed self.new)) }
        ensures room { IfOk result
            (λ done. IfSome done (λ said. ComesOut self.new room.old room.new)) }
        ensures again { IfOk result
            (λ done. IfNone done ((self.new ≡ self.old) × (room.new ≡ room.old))) }
        ensures absent { IfOk result
            (λ done. IfNone done (IsAbsent room.old self.old.name self.old.place)) }
        ensures same { SameThread self.old self.new }

        ensures err { IfErr result
            (λ s. (s ≡ self.old.state) × (s ≢ IsBlocked) × (self.new ≡ self.old)
            × (room.new ≡ room.old)) }
    {
        let BodyState::Blocked = &self.body_state else {
            return Err(self.state());
        };
        Ok(self.come_back(room, row, Back::Vm))
    }

    // Puts the body into its room. The thread enters the state `to`, in which it doesn't own itself.
    #[inline(always)]
    fn give<J: HandshakeOp>(&mut self, room: &mut Room<N, J>, back: Back, to: BodyState<N>) -> bool
        requires running { self.old.state ≡ table.state_of back }
        requires safe { (is_running (state_in to) ≡ false) × (serves (state_in to) ≡ false) }
        requires away { (body_in to ≡ None) × (answer_in to ≡ None) × (given_in to ≡ None) }

        ensures state { result ≡ true → self.new.state ≡ state_in to }
        ensures given { result ≡ true → Gives self.old self.new }
        ensures room { result ≡ true → GoesIn self.old room.old room.new }
        ensures again { result ≡ false → (self.new ≡ self.old) × (room.new ≡ room.old) }
        ensures declined { result ≡ false → Declines room.old self.old.name self.old.place }
        ensures same { SameThread self.old self.new }
    {
        let body = self.body_state.take_body();
        match room.give(body) {
            Ok(receipt) => {
                self.body_state = to;
                self.crossed = receipt;
                true
            }
            Err(body) => {
                self.body_state = going_on(back, body);
                false
            }
        }
    }

    // Takes the body from its room and polls: the thread continues in the state that `back` names, or stops there.
    #[inline(always)]
    fn come_back<J: HandshakeOp>(
        &mut self,
        room: &mut Room<N, J>,
        row: &PollRow,
        back: Back,
    ) -> Option<Poll>
        requires row { row.now ≡ N.poll_row }

        ensures polled { IfSome result (λ said. GoesBack self.new.crossed.body self.new back said) }
        ensures resumed { IfSome result (λ said. IsResumed self.new) }
        ensures room { IfSome result (λ said. ComesOut self.new room.old room.new) }

        ensures again { IfNone result ((self.new ≡ self.old) × (room.new ≡ room.old)) }
        ensures absent { IfNone result (IsAbsent room.old self.old.name self.old.place) }
        ensures same { SameThread self.old self.new }
    {
        let (outgoing, resumed) = room.resume(self.name, self.place)?;
        let mut body = outgoing.into_body(&OwnHand);
        let found = body.poll(row);
        self.crossed = resumed;
        self.body_state = after_poll(back, body, found);
        Some(poll_of(found))
    }
}
