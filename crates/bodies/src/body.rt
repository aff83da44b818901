//! A thread's body, and the seats of a place that no thread has.
ghost use Rattle.std.specs.Prelude.{◌≡◌, ◌≢◌, ◌⊎◌, ℕ, true, false, ◌+◌, ◌<◌, ◌≤◌, ◌==◌, List, [], ◌∷◌, ◌++◌, length, None, IfSome, IfOk, IsTrue, ◌↔◌};
ghost use Rattle.thread_state.specs.PollRule.{polled, exchanged};
ghost use Rattle.frames.specs.declared.CodeId.{CodeId as Code};
ghost use Rattle.frames.specs.declared.Change.{Change as ChangeOf};
ghost use Rattle.frames.specs.Stack.{times};
ghost use Rattle.frames.specs.BoardViews.{stored_as};
ghost use Rattle.operations.specs.Asks.{reply};
ghost use Rattle.frames.specs.ImageView.{HasFrames, IsSettled, IsCounted, push_fault, next_code};
ghost use Rattle.bodies.specs.Bodies.{IsFit, IsCalled, AreMade, AreCounted, IsPublished, AreStanding};

use crate::name::Name;
use board::{Board, ThreadSeat};
use frames::image::Image;
use frames::{CodeId, Frame};
use operations::job::{Done, HandshakeOp};
use poll::{PollRow, Poller};
use std::alloc::{AllocError, Global};
use std::marker::{Model, PhantomData};

/// How a call of a method runs.
#[derive(Clone, Copy, Debug, PartialEq, Eq, Drop)]
pub enum Called {
    /// In the code of this serial.
    Compiled(u64),
    /// By the interpreter.
    Interpreted,
}

// What a place keeps for the threads that have it one after another. `images` has one image while a thread has the place, and none
// otherwise. It is a list because an index with a proved bound makes no test, while a `match` of an `Option` makes one.
#[derive(Drop)]
struct Parts {
    name: u64,
    images: Vec<Image>,
    seat: ThreadSeat,
    poller: Poller,
    // Padding: the fields that the thread of the next place writes are behind it, on cache lines of their own.
    apart: [u64; LINE],
}

// A cache line, in words.
const LINE: usize = 8;

/// The seat and the poller of one place, in a box with room for the name and the image of the thread that has the place. Moving a
/// body moves this box.
///
/// The box and the room for its image are allocated with the place, not by its threads, so that those of all places are next to one
/// another in memory.
#[derive(Drop)]
pub struct Seats {
    parts: Box<Parts>,
}

impl Model for Seats {
    ghost use Rattle.std.specs.Prelude.{vec_capacity};
    ghost use Rattle.bodies.specs.Bodies.{SeatsView, IsVacant};

    ghost Value = { SeatsView };

    ghost view = { λ s. record { seat = s.parts.value.seat; poller = s.parts.value.poller } };

    ghost invariant = { λ s. IsVacant s.parts.value.images.items
        (vec_capacity s.parts.value.images) };
}

impl Seats {
    /// Makes the seats of a place. The error is that memory was refused.
    pub fn new(alloc: Global, seat: ThreadSeat, poller: Poller) -> Result<Seats, AllocError>
        ensures { IfOk result (λ s. (s.seat ≡ seat) × (s.poller ≡ poller)) }
    {
        let images = Vec::with_capacity(alloc, 1)?;
        let parts = Parts {
            name: 0,
            images,
            seat,
            poller,
            apart: [0; LINE],
        };
        let parts = Box::new(alloc, parts)?;
        Ok(Seats { parts })
    }
}

/// The seat and the poller of one place, while no thread has the place. The seat has no moment stored and counts no code.
#[derive(Drop)]
pub struct SpareSeat<N: Name> {
    parts: Box<Parts>,
    of: PhantomData<N>,
}

impl<N: Name> Model for SpareSeat<N> {
    ghost use Rattle.std.specs.Prelude.{◌≡◌, vec_capacity};
    ghost use Rattle.bodies.specs.Bodies.{SpareView, IsPaired, IsSpare, IsVacant};

    ghost Value = { SpareView };

    ghost view = { λ p. record {
      seat = p.parts.value.seat.seen;
      poller = p.parts.value.poller.seen;
    } };

    ghost invariant = { λ p. IsPaired N.board N.poll_row p.parts.value.seat p.parts.value.poller
        × IsSpare p.parts.value.seat.seen
        × IsVacant p.parts.value.images.items (vec_capacity p.parts.value.images) };
}

impl<N: Name> SpareSeat<N> {
    /// The seats of a place that no thread has had yet.
    pub fn new(seats: Seats) -> SpareSeat<N>
        requires tables { (seats.seat.board ≡ N.board) × (seats.poller.table ≡ N.poll_row) }
        requires place { seats.poller.seen.place ≡ seats.seat.seen.place }
        requires unused { (seats.seat.seen.stored ≡ 0) × (seats.seat.seen.counted ≡ []) }
        ensures { (result.seat ≡ seats.seat.seen) × (result.poller ≡ seats.poller.seen) }
    {
        let Seats { parts } = seats;
        SpareSeat {
            parts,
            of: PhantomData,
        }
    }

    /// The place of both seats.
    #[inline(always)]
    pub fn place(&self) -> usize
        ensures value { result ≡ self.now.seat.place }
        ensures bound { result < N.board.places }
    {
        self.parts.seat.place()
    }
}

/// A thread's name, the image of its stack, and its seats of the same place: the seat at the code board and the poller.
///
/// The type keeps three facts. The image counts a code as often as the seat has counted it on the board. A code with more frames
/// than are counted was entered since the last publication. No publication is open.
///
/// A body is the box of its place, so that moving a body into its berth or out of it moves one pointer.
#[derive(Drop)]
pub struct Body<N: Name> {
    parts: Box<Parts>,
    of: PhantomData<N>,
}

impl<N: Name> Model for Body<N> {
    ghost use Rattle.std.specs.Prelude.{◌≤◌, vec_capacity};
    ghost use Rattle.bodies.specs.Bodies.{BodyView, image_of, IsPaired, IsKept};

    ghost Value = { BodyView };

    ghost view = { λ b. record {
      name = b.parts.value.name;
      image = image_of b.parts.value.images.items;
      seat = b.parts.value.seat.seen;
      poller = b.parts.value.poller.seen;
    } };

    ghost invariant = { λ b. IsPaired N.board N.poll_row b.parts.value.seat b.parts.value.poller
        × IsKept N.board.slots b.parts.value.images.items b.parts.value.seat.seen
        × (1 ≤ vec_capacity b.parts.value.images) };
}

// Makes each change that the image still has to publish.
fn count_changes(image: &mut Image, seat: &mut ThreadSeat, board: &Board)
    requires board { seat.old.board ≡ board.now }
    requires fit { IsFit seat.old.board.slots image.old seat.old.seen }
    requires publishing { image.old.publishing ≡ true }
    requires begun { seat.old.seen.moment ≢ 0 }

    ensures board { seat.new.board ≡ seat.old.board }
    ensures fit { IsFit seat.old.board.slots image.new seat.new.seen }
    ensures made { (made : List (ChangeOf × ℕ))
        × AreMade image.old image.new seat.old.seen seat.new.seen made }
    ensures none_left { next_code image.new ≡ None }
{
    while let Some(change) = image.next_change() {
        seat.count_change(board, change.code, change.by);
    }
}

// Opens a publication, counts the codes whose number of frames changed, one by one, and ends the publication.
#[inline(never)]
fn publish_all(image: &mut Image, seat: &mut ThreadSeat, board: &Board)
    requires board { seat.old.board ≡ board.now }
    requires fit { IsFit seat.old.board.slots image.old seat.old.seen }
    requires closed { image.old.publishing ≡ false }
    requires begun { seat.old.seen.moment ≢ 0 }
    ensures { AreCounted image.old image.new seat.old seat.new }
{
    match image.begin_keeping() {
        Ok(()) => {}
        Err(_) => unreachable!(),
    }
    count_changes(image, seat, board);
    match image.end() {
        Ok(()) => {}
        Err(_) => unreachable!(),
    }
}

// Counts the codes whose number of frames changed: a single one directly, several one by one. This is a function of its own, not
// inlined, since most publications have no such code.
#[inline(never)]
fn publish_changes(image: &mut Image, seat: &mut ThreadSeat, board: &Board)
    requires board { seat.old.board ≡ board.now }
    requires fit { IsFit seat.old.board.slots image.old seat.old.seen }
    requires closed { image.old.publishing ≡ false }
    requires begun { seat.old.seen.moment ≢ 0 }
    ensures { AreCounted image.old image.new seat.old seat.new }
{
    match image.settle_only() {
        Some(change) => seat.count_change(board, change.code, change.by),
        None => publish_all(image, seat, board),
    }
}

// Counts the codes whose number of frames changed, if there are any.
#[inline(always)]
fn count_moved(image: &mut Image, seat: &mut ThreadSeat, board: &Board)
    requires board { seat.old.board ≡ board.now }
    requires fit { IsFit seat.old.board.slots image.old seat.old.seen }
    requires closed { image.old.publishing ≡ false }
    requires begun { seat.old.seen.moment ≢ 0 }
    ensures { AreCounted image.old image.new seat.old seat.new }
{
    if !image.is_unmoved() {
        publish_changes(image, seat, board);
    }
}

impl<N: Name> Body<N> {
    /// Makes the body of a starting thread, in the box of the place that the thread takes. Its stack is empty, and no code is
    /// counted.
    pub fn new(name: u64, image: Image, pair: SpareSeat<N>) -> Body<N>
        requires empty { (image.frames ≡ []) × (image.publishing ≡ false)
            × ((c : Code) → times c image.counted ≡ 0) }
        ensures name { result.name ≡ name }
        ensures image { result.image ≡ image }
        ensures seats { (result.seat ≡ pair.seat) × (result.poller ≡ pair.poller) }
    {
        let SpareSeat { mut parts, of: _ } = pair;
        let taken = &mut *parts;
        taken.name = name;
        taken.images.push_reserved(image);
        Body {
            parts,
            of: PhantomData,
        }
    }

    /// The thread's name.
    #[inline(always)]
    pub fn name(&self) -> u64
        ensures { result ≡ self.now.name }
    {
        self.parts.name
    }

    /// The place of both seats.
    #[inline(always)]
    pub fn place(&self) -> usize
        ensures value { result ≡ self.now.seat.place }
        ensures poller { result ≡ self.now.poller.place }
        ensures bound { result < N.board.places }
    {
        self.parts.seat.place()
    }

    /// Runs a job on the body's own image, which must be settled.
    pub fn run<J: HandshakeOp>(&self, job: J) -> Done
        requires { IsSettled self.now.image }
        ensures same { (result.op ≡ J.number job) × (result.target ≡ J.whom job)
            × (result.ask ≡ J.asks job) }
        ensures reply { result.reply ≡ reply (J.asks job) self.now.image.frames }
        ensures called { J.may_answer job self.now.image result.reply }
    {
        job.run_on(&self.parts.images[0])
    }

    /// The frames of the stack, the top frame last.
    pub fn frames(&self) -> &[Frame]
        ensures value { result.now ≡ self.now.image.frames }
        ensures few { length result.now ≤ 256 }
    {
        let image = &self.parts.images[0];
        let _ = image.depth();
        image.frames()
    }

    /// How many frames the stack has.
    #[inline(always)]
    pub fn depth(&self) -> usize
        ensures { result ≡ length self.now.image.frames }
    {
        self.parts.images[0].depth()
    }

    /// Whether each code is counted as often as it has frames on the stack.
    pub fn is_settled(&self) -> bool
        ensures { IsTrue result ↔ IsSettled self.now.image }
    {
        self.parts.images[0].is_settled()
    }

    /// Enters a method: in the code of the hint, if one load of its entry finds the code in use, and otherwise in the interpreter.
    /// Without a hint the call makes no step. The body must have ended a publication and must have room for a frame. The hint must
    /// name a slot of the board.
    #[inline(always)]
    pub fn call(&mut self, board: &Board, method: u32, hint: Option<CodeId>) -> Called
        requires board { board.now ≡ N.board }
        requires depth { length self.old.image.frames < 256 }
        requires published { self.old.seat.stored ≢ 0 }
        requires slot { IfSome hint (λ c. c.slot < N.board.slots) }

        ensures step { IsCalled self.old self.new method hint result }
        ensures others { (self.new.name ≡ self.old.name) × (self.new.poller ≡ self.old.poller) }
    {
        let parts = &mut *self.parts;
        let image = &mut parts.images[0];
        if let Some(code) = hint {
            if parts.seat.enter(board, code) {
                image.put(Frame {
                    method,
                    code: Some(code),
                });
                return Called::Compiled(code.serial);
            }
        }
        image.put(Frame { method, code: None });
        Called::Interpreted
    }

    /// Leaves the method of the top frame, and returns that frame. The stack must have a frame.
    #[inline(always)]
    pub fn ret(&mut self) -> Frame
        requires frames { 0 < length self.old.image.frames }
        ensures popped { (self.old.image.frames ≡ self.new.image.frames ++ result ∷ [])
            × HasFrames self.old.image self.new.image self.new.image.frames }
        ensures others { (self.new.name ≡ self.old.name) × (self.new.seat ≡ self.old.seat)
            × (self.new.poller ≡ self.old.poller) }
    {
        let parts = &mut *self.parts;
        let image = &mut parts.images[0];
        image.take_top()
    }

    /// Publishes the stack: one load of the board's moment, one step for each code whose counts differ, and one store of the loaded
    /// moment.
    #[inline(always)]
    pub fn publish(&mut self, board: &Board)
        requires board { board.now ≡ N.board }
        ensures { IsPublished self.old self.new }
    {
        let parts = &mut *self.parts;
        let image = &mut parts.images[0];
        parts.seat.read_moment(board);
        count_moved(image, &mut parts.seat, board);
        parts.seat.end_publication(board);
    }

    /// Polls: returns the number that the place is armed with, 0 if it isn't armed. One load.
    #[inline(always)]
    pub fn poll(&mut self, row: &PollRow) -> u64
        requires row { row.now ≡ N.poll_row }
        ensures step { self.new.poller ≡ polled self.old.poller result }
        ensures later { (result ≡ 0) ⊎ (self.old.poller.cleared < result) }
        ensures others { (self.new.name ≡ self.old.name) × (self.new.image ≡ self.old.image)
            × (self.new.seat ≡ self.old.seat) }
    {
        let parts = &mut *self.parts;
        parts.poller.poll(row)
    }

    /// Disarms the place if it is armed with `n`, which isn't 0. Returns whether it was. One compare-exchange.
    #[inline(always)]
    pub fn clear(&mut self, row: &PollRow, n: u64) -> bool
        requires row { row.now ≡ N.poll_row }
        requires number { n ≢ 0 }
        ensures step { (found : ℕ) × (self.new.poller ≡ exchanged self.old.poller n found)
            × (result ≡ (found == n)) }
        ensures others { (self.new.name ≡ self.old.name) × (self.new.image ≡ self.old.image)
            × (self.new.seat ≡ self.old.seat) }
    {
        let parts = &mut *self.parts;
        parts.poller.clear(row, n)
    }

    /// Gives the place up: one store of 0. The stack must be empty, and no code counted.
    pub fn vacate(self, board: &Board) -> SpareSeat<N>
        requires board { board.now ≡ N.board }
        requires empty { self.image.frames ≡ [] }
        requires counted { IsCounted self.image }
        ensures { (result.seat ≡ stored_as self.seat 0) × (result.poller ≡ self.poller) }
    {
        let Body { mut parts, of: _ } = self;
        let left = &mut *parts;
        left.images.clear();
        left.seat.vacate(board);
        SpareSeat {
            parts,
            of: PhantomData,
        }
    }

    /// A law: the image and the seat of a body fit together. Hence, whenever the board's rule holds, the entry of the code of each
    /// frame has that code, in use or not entrant.
    pub fn frames_stand(&self)
        ensures fit { IsFit N.board.slots self.now.image self.now.seat }
        ensures standing { AreStanding self.now.image self.now.seat }
    {
        let _ = &self.parts;
    }
}
