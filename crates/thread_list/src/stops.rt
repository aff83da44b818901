//! The steps of a thread that has stopped at a poll.
ghost use Rattle.std.specs.Prelude.{◌≡◌, ◌≢◌, ◌⊎◌, Some, None, IfOk, IfErr, IfSome, IfNone};
ghost use Rattle.thread_state.specs.declared.State.TheVariants.{AtPoll as IsAtPoll, Serving as IsServing};
ghost use Rattle.thread_state.specs.declared.Back.{Back as WayBack};
ghost use Rattle.thread_list.specs.Moves.{SameThread, Gives};
ghost use Rattle.desk.specs.declared.entries.Entry.{Entry as EntryOf};
ghost use Rattle.desk.specs.Fields.{at, Enters};
ghost use Rattle.thread_list.specs.Steps.{StopsNext, EndsServing, IsNotEntered};
ghost use Rattle.thread_list.specs.Rooms.{Declines, GoesIn, KeepsBody, HandsOut, PollsStill, StaysStopped};

use crate::body_state::{BodyState, OwnHand, after_poll};
use crate::polls::{Poll, poll_of};
use crate::running_thread::RunningThread;
use berths::{Recorder, Room};
use board::Board;
use bodies::Name;
use desk::{Desk, Finished};
use operations::job::HandshakeOp;
use poll::PollRow;
use thread_state::{Back, State};

/// Records at the desk what a thread's own job answered.
#[derive(Drop)]
struct OwnRecorder;

impl Recorder for OwnRecorder {}

impl<N: Name> RunningThread<N> {
    /// Takes one step of a stop, after a poll that answered Stop. The body goes into its room. Where no census keeps it, it comes
    /// out again to serve and is published, and its oldest job runs on it; `stop_serve` then enters the answer. Returns the
    /// number of that operation, or 0 where nothing is pending and the thread continues. None where the thread stays stopped. A
    /// thread that isn't at a poll is refused with its state.
    pub fn stop_next<J: HandshakeOp>(
        &mut self,
        room: &mut Room<N, J>,
        board: &Board,
        row: &PollRow,
    ) -> Result<Option<u64>, State>
        requires board { board.now ≡ N.board }
        requires row { row.now ≡ N.poll_row }

        ensures next { IfOk result (λ o. IfSome o (StopsNext self.old self.new)) }
        ensures room { IfOk result (λ o. IfSome o (HandsOut self.old.name room.old room.new)) }
        ensures again { IfOk result
            (λ o. IfNone o (StaysStopped self.old self.new room.old room.new)) }
        ensures same { SameThread self.old self.new }
        ensures err { IfErr result
            (λ s. (s ≡ self.old.state) × ((back : WayBack) → s ≢ IsAtPoll back)
            × (self.new ≡ self.old) × (room.new ≡ room.old)) }
    {
        let back = match &self.body_state {
            BodyState::AtPoll(back, _) => *back,
            BodyState::Given(back, _) => *back,
            BodyState::InJava(_)
            | BodyState::InVm(_)
            | BodyState::InNative(_)
            | BodyState::Blocked
            | BodyState::Serves(_, _, _) => return Err(self.state()),
        };
        if room.place() != self.place {
            return Ok(None);
        }
        self.give_in(room, back);
        Ok(self.come_out(room, board, row, back))
    }

    // Puts the body into its room, if it isn't there yet and the room takes it.
    fn give_in<J: HandshakeOp>(&mut self, room: &mut Room<N, J>, back: Back)
        requires stopped { self.old.state ≡ IsAtPoll back }
        ensures state { self.new.state ≡ self.old.state }
        ensures room { room.new ≡ record room.old { holder = room.new.holder } }
        ensures declined { (self.new ≡ self.old) × (room.new ≡ room.old)
            × ((b : _) → self.old.body ≡ Some b → Declines room.old self.old.name self.old.place)
            ⊎ Gives self.old self.new × GoesIn self.old room.old room.new }
        ensures same { SameThread self.old self.new }
    {
        if let BodyState::Given(_, _) = &self.body_state {
            return;
        }
        let body = self.body_state.take_body();
        self.body_state = match room.give(body) {
            Ok(receipt) => BodyState::Given(back, receipt),
            Err(body) => BodyState::AtPoll(back, body),
        };
    }

    // Takes the body from its room to serve, if it is there and no census keeps it.
    fn come_out<J: HandshakeOp>(
        &mut self,
        room: &mut Room<N, J>,
        board: &Board,
        row: &PollRow,
        back: Back,
    ) -> Option<u64>
        requires board { board.now ≡ N.board }
        requires row { row.now ≡ N.poll_row }
        requires stopped { self.old.state ≡ IsAtPoll back }
        requires place { room.old.place ≡ self.old.place }

        ensures next { IfSome result (StopsNext self.old self.new) }
        ensures room { IfSome result (HandsOut self.old.name room.old room.new) }
        ensures state { IfNone result (self.new.state ≡ self.old.state) }
        ensures again { IfNone result ((self.new ≡ self.old) × (room.new ≡ room.old)
            × (self.old.body ≡ None → KeepsBody room.old self.old.name self.old.place)
            ⊎ PollsStill self.old self.new room.old room.new) }
        ensures same { SameThread self.old self.new }
    {
        let given = self.body_state.take_given()?;
        let (outgoing, told, outing) = match room.serve(given) {
            Ok(served) => served,
            Err(given) => {
                self.body_state = BodyState::Given(back, given);
                return None;
            }
        };
        let mut body = outgoing.into_body(&OwnHand);
        body.publish(board);
        self.crossed = outing.out();
        match told {
            Some(job) => {
                let number = job.number();
                let done = job.run_on(&body).to_record(&OwnRecorder);
                self.body_state = BodyState::Serves(back, body, done);
                Some(number)
            }
            None => {
                let found = body.poll(row);
                self.body_state = after_poll(back, body, found);
                if found == 0 { Some(0) } else { None }
            }
        }
    }

    /// Enters what the job of a serving thread answered, clears the operation, and polls: the thread continues, or stops again.
    /// Returns the poll's answer and the receipt of the entry. None where the desk doesn't enter the answer; then nothing
    /// changes. A thread that isn't serving is refused with its state.
    pub fn stop_serve<J: HandshakeOp>(
        &mut self,
        desk: &mut Desk<N, J>,
        row: &PollRow,
    ) -> Result<Option<(Poll, Finished<N>)>, State>
        requires row { row.now ≡ N.poll_row }

        ensures ends { IfOk result (λ o. IfSome o (λ r. EndsServing self.old self.new r.0 r.1)) }
        ensures entered { IfOk result
            (λ o. IfSome o (λ r. (e : EntryOf) × Enters desk.old desk.new e r.1.stands)) }
        ensures desk { IfOk result
            (λ o. IfSome o
            (λ r. (desk.new.jobs ≡ desk.old.jobs) × (desk.new.keeper ≡ desk.old.keeper))) }
        ensures again { IfOk result
            (λ o. IfNone o ((self.new ≡ self.old) × (desk.new ≡ desk.old))) }
        ensures not_entered { IfOk result (λ o. IfNone o (IsNotEntered (at desk.old) self.old)) }
        ensures same { SameThread self.old self.new }

        ensures err { IfErr result
            (λ s. (s ≡ self.old.state) × ((back : WayBack) → s ≢ IsServing back)
            × (self.new ≡ self.old) × (desk.new ≡ desk.old)) }
    {
        let Some((back, mut body, done)) = self.body_state.take_answered() else {
            return Err(self.state());
        };
        let op = done.op();
        match desk.finish(&body, done) {
            Ok(finished) => {
                body.clear(row, op);
                let found = body.poll(row);
                self.body_state = after_poll(back, body, found);
                Ok(Some((poll_of(found), finished)))
            }
            Err(done) => {
                self.body_state = BodyState::Serves(back, body, done);
                Ok(None)
            }
        }
    }
}
