//! Starting threads.
ghost use Rattle.std.specs.Prelude.{◌≡◌, ◌≢◌, IfOk, IfErr, true, false, [], ◌<◌, OnOk, Some};
ghost use Rattle.thread_state.specs.declared.State.TheVariants.{InJava as IsInJava};
ghost use Rattle.thread_list.specs.Moves.{IsStarted, GoesOn};
ghost use Rattle.desk.specs.declared.entries.Entry.{Entry};
ghost use Rattle.desk.specs.Machine.{State as DeskState, Book};
ghost use Rattle.desk.specs.Refusals.{start_refused};
ghost use Rattle.bodies.specs.Bodies.{BodyView};

use crate::body_state::{BodyState, OwnHand};
use crate::mutator::Mutator;
use crate::running_thread::RunningThread;
use crate::serving::served;
use crate::shared::Shared;
use berths::BodyReceipt;
use bodies::{Body, Name};
use desk::{Receipt, StartFault};
use frames::image::Image;
use operations::job::HandshakeOp;
use std::alloc::Global;
use std::sync::Wait;

impl<N: Name, J: HandshakeOp> Shared<N, J> {
    /// Starts a thread in the least vacant place: it makes its first publication and crosses into Java, after it has served what
    /// was pending for it by then. Returns the thread and the receipt of its Start.
    #[tactic(auto, using(crate::proofs::Turned::first_of_seat))]
    pub fn start<R: Wait>(
        &self,
        rt: &R,
        alloc: Global,
    ) -> Result<(Mutator<'_, N, J>, Receipt<N>), StartFault>
        ensures started { IfOk result (λ r. (r.0.state ≡ IsInJava)
            × (r.1.entry ≡ Entry.Start r.0.name r.0.place)) }
        ensures methods { IfOk result (λ r. r.0.methods ≡ self.now.methods) }
        ensures goes_on { IfOk result (λ r. (body : BodyView) × (r.0.body ≡ Some body)
            × IsStarted r.0 body) }
        ensures refused { IfErr result (λ e. (s : DeskState) × (book : Book)
            × start_refused s N.board.places book e) }
    {
        let image = Image::new(alloc);
        let (name, place, receipt) = self.enter(rt, image.is_ok())?;
        let Ok(image) = image else { unreachable!() };
        let berth = self.berth(place);
        let (spare, seat) = berth.start(rt, place);
        let mut body = spare.body(name, image);
        body.publish(self.board());
        let moved_in = berth.move_in(rt, body);
        let (body, crossed) = self.go_on(rt, name, place);
        let thread = RunningThread {
            name,
            place,
            methods: self.methods() as usize,
            body_state: BodyState::InJava(body),
            seat,
            moved_in,
            crossed,
        };
        let mutator = Mutator {
            shared: self,
            hints: self.hint_words(),
            thread,
        };
        Ok((mutator, receipt))
    }

    // Takes a starting thread's body from its berth, polls, and serves if the poll stops it. Returns the body and the receipt
    // that it last came out.
    fn go_on<R: Wait>(&self, rt: &R, name: u64, place: usize) -> (Body<N>, BodyReceipt<N>)
        requires place { place < N.board.places }
        ensures body { (result.0.name ≡ name) × (0 < result.0.name) × (result.0.seat.place ≡ place)
            × (result.0.seat.stored ≢ 0) }
        ensures goes_on { GoesOn place name result.1 result.0 }
    {
        let (outgoing, resumed) = self.berth(place).resume(rt, name, place);
        let mut body = outgoing.into_body(&OwnHand);
        if body.poll(self.row()) == 0 {
            return (body, resumed);
        }
        let (body, turn) = served(rt, self, body);
        (body, turn.last.out())
    }

    // Enters the Start of the next name, if there is an image for it.
    fn enter<R: Wait>(
        &self,
        rt: &R,
        has_image: bool,
    ) -> Result<(u64, usize, Receipt<N>), StartFault>
        ensures ok { IfOk result (λ r. (r.2.entry ≡ Entry.Start r.0 r.1) × (r.1 < N.board.places)
            × (0 < r.0)) }
        ensures image { OnOk result (has_image ≡ true) }
        ensures refused { IfErr result (λ e. (s : DeskState) × (book : Book)
            × start_refused s N.board.places book e) }
    {
        let mut desk = self.desk.lock(rt);
        let started = desk.start(has_image)?;
        Ok(started)
    }
}
