//! A thread's first steps and its last.
ghost use Rattle.std.specs.Prelude.{◌≡◌, ◌≢◌, ◌<◌, ◌==◌, [], ℕ, Some, None, true, false, IfOk, IfErr, OnOk, OnErr, IfSome, IfNone, length};
ghost use Rattle.berths.specs.Berths.{moved};
ghost use Rattle.bodies.specs.Bodies.{BodyView, IsPublished};
ghost use Rattle.frames.specs.Stack.{times};
ghost use Rattle.frames.specs.declared.CodeId.{CodeId as Code};
ghost use Rattle.thread_state.specs.declared.Back.TheVariants.{Java as OfJava};
ghost use Rattle.thread_state.specs.declared.State.TheVariants.{InJava as IsInJava, AtPoll as IsAtPoll};
ghost use Rattle.thread_list.specs.Moves.{SameThread, IsResumed, IsVacated, IsGivenUp, is_running};
ghost use Rattle.thread_list.specs.Steps.{PollsIn};
ghost use Rattle.thread_list.specs.Refused.{HasNoFrame};
ghost use Rattle.thread_list.specs.Rooms.{HasNoSeat, MovesIn, IsVacant};
ghost use Rattle.thread_list.specs.Refused.{vacate_refused};

use crate::body_state::{BodyState, OwnHand, after_poll};
use crate::faults::ExitFault;
use crate::polls::{Poll, poll_of};
use crate::running_thread::RunningThread;
use berths::{BodyReceipt, Room};
use board::Board;
use bodies::Name;
use frames::image::Image;
use operations::job::HandshakeOp;
use poll::PollRow;
use std::marker::{Model, PhantomData};
use thread_state::{Back, State};

/// A thread whose Start is entered and that hasn't taken its place yet.
#[derive(Drop)]
pub struct Entered<N: Name> {
    name: u64,
    place: usize,
    methods: u32,
    image: Image,
    of: PhantomData<N>,
}

impl<N: Name> Model for Entered<N> {
    ghost use Rattle.std.specs.Prelude.{◌≡◌, ◌<◌, [], false};
    ghost use Rattle.thread_list.specs.Steps.{Starting};

    ghost Value = { Starting };

    ghost view = { λ e. record { name = e.name; place = e.place; methods = e.methods } };

    ghost invariant = { λ e. (0 < e.name) × (e.place < N.board.places)
        × (e.image ≡ record { frames = []; counted = []; changed = []; publishing = false }) };
}

impl<N: Name> Entered<N> {
    pub fn new(name: u64, place: usize, methods: u32, image: Image) -> Entered<N>
        requires name { 0 < name }
        requires place { place < N.board.places }
        requires image { image
            ≡ record { frames = []; counted = []; changed = []; publishing = false } }
        ensures { result ≡ record { name = name; place = place; methods = methods } }
    {
        Entered {
            name,
            place,
            methods,
            image,
            of: PhantomData,
        }
    }

    pub fn name(&self) -> u64
        ensures { result ≡ self.now.name }
    {
        let _ = &self.image;
        self.name
    }

    pub fn place(&self) -> usize
        ensures value { result ≡ self.now.place }
        ensures bound { result < N.board.places }
    {
        let _ = &self.image;
        self.place
    }

    /// Takes the place, makes the first publication, and polls on the way into Java. The thread is handed back if another thread
    /// has the place, or the room belongs to another place.
    pub fn move_in<J: HandshakeOp>(
        self,
        room: &mut Room<N, J>,
        board: &Board,
        row: &PollRow,
    ) -> Result<RunningThread<N>, Entered<N>>
        requires board { board.now ≡ N.board }
        requires row { row.now ≡ N.poll_row }

        ensures started { IfOk result
            (λ r. (r.name ≡ self.name) × (r.place ≡ self.place) × (r.methods ≡ self.methods)) }
        ensures resumed { IfOk result (λ r. IsResumed r) }
        ensures polled { IfOk result (λ r. PollsIn r.crossed.body r OfJava) }
        ensures room { IfOk result (λ r. MovesIn self.name r.crossed room.old room.new) }

        ensures handed_back { IfErr result (λ e. (e ≡ self) × (room.new ≡ room.old)) }
        ensures taken { OnErr result (HasNoSeat room.old self.place) }
    {
        if room.place() != self.place {
            return Err(self);
        }
        let Some((spare, seat)) = room.start() else {
            return Err(self);
        };
        let Entered {
            name,
            place,
            methods,
            image,
            of: _,
        } = self;
        let mut body = spare.body(name, image);
        body.publish(board);
        let Ok(moved_in) = room.move_in(body) else {
            unreachable!()
        };
        let Some((outgoing, crossed)) = room.resume(name, place) else {
            unreachable!()
        };
        let mut body = outgoing.into_body(&OwnHand);
        let found = body.poll(row);
        let body_state = after_poll(Back::Java, body, found);
        Ok(RunningThread {
            name,
            place,
            methods: methods as usize,
            body_state,
            seat,
            moved_in,
            crossed,
        })
    }
}

/// Why a thread doesn't give its place up, in the order of the tests.
#[derive(Clone, Copy, PartialEq, Eq, Debug, Drop)]
pub enum VacateFault {
    /// It can't exit.
    Refused(ExitFault),
    /// Its room doesn't let it go, since an operation is pending for it. The thread polled, and this is the poll's answer.
    Told(Poll),
}

impl<N: Name> RunningThread<N> {
    /// Ends the thread: it publishes its empty stack and gives its place up. Returns the receipt of giving it up.
    pub fn vacate<J: HandshakeOp>(
        self,
        room: &mut Room<N, J>,
        board: &Board,
        row: &PollRow,
    ) -> Result<BodyReceipt<N>, (VacateFault, RunningThread<N>)>
        requires board { board.now ≡ N.board }
        requires row { row.now ≡ N.poll_row }

        ensures accepted { OnOk result ((is_running self.state ≡ true) × HasNoFrame self.body) }
        ensures vacated { IfOk result (λ r. IsVacated self.place self.name r) }
        ensures given_up { IfOk result (λ r. IsGivenUp self.body r) }
        ensures vacant { IfOk result (λ r. IsVacant r room.old room.new) }

        ensures same { IfErr result (λ e. SameThread self e.1) }
        ensures refused { IfErr result (λ e. vacate_refused room.old self e.1 e.0) }
        ensures kept { OnErr result (room.new ≡ room.old) }
    {
        let state = self.state();
        if !matches!(state, State::InJava | State::InVm) {
            return Err((VacateFault::Refused(ExitFault::Illegal(state)), self));
        }
        if self.depth() != 0 {
            return Err((VacateFault::Refused(ExitFault::StackNotEmpty), self));
        }
        let RunningThread {
            name,
            place,
            methods,
            mut body_state,
            seat,
            moved_in,
            crossed,
        } = self;
        let mut body = body_state.take_body();
        body.publish(board);
        match room.exit(body, board) {
            Ok(vacated) => Ok(vacated),
            Err(mut body) => {
                let found = body.poll(row);
                let body_state = after_poll(Back::Java, body, found);
                let back = RunningThread {
                    name,
                    place,
                    methods,
                    body_state,
                    seat,
                    moved_in,
                    crossed,
                };
                Err((VacateFault::Told(poll_of(found)), back))
            }
        }
    }

    /// Returns how many frames the thread's stack has, 0 if the thread doesn't have its body.
    pub fn depth(&self) -> usize
        ensures deep { (b : _) → self.now.body ≡ Some b → result ≡ length b.image.frames }
        ensures away { self.now.body ≡ None → result ≡ 0 }
    {
        match &self.body_state {
            BodyState::InJava(body) => body.depth(),
            BodyState::InVm(body) => body.depth(),
            BodyState::AtPoll(_, body) => body.depth(),
            BodyState::Serves(_, body, _) => body.depth(),
            BodyState::InNative(_) | BodyState::Blocked | BodyState::Given(_, _) => 0,
        }
    }
}
