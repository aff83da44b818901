//! The bodies of held threads. They have a module of their own, so that no other code can release one.
ghost use Rattle.std.specs.Prelude.{◌≡◌, ◌≢◌, ◌⊎◌, ◌<◌, ◌≤◌, ◌++◌, ◌∷◌, [], false, Some, IfOk, IfErr, OnErr, IfSome, IfNone, length, vec_capacity, slice_get, slice_set};
ghost use Rattle.std.specs.List.{remove};
ghost use Rattle.bodies.specs.Bodies.{BodyView, IsPublished};
ghost use Rattle.operations.specs.Asks.{reply};
ghost use Rattle.desk.specs.declared.entries.Entry.{Entry};
ghost use Rattle.desk.specs.Fields.{Enters, at};
ghost use Rattle.berths.specs.Berths.{moved, acted, Went, IsLeft};
ghost use Rattle.berths.specs.declared.room.Holder.TheVariants.{Out as IsOut};
ghost use Rattle.thread_list.specs.Moves.{IsCleared, IsAnswered};
ghost use Rattle.stopped_threads.specs.Held.{AreEach, StandsAt, is_held};
ghost use Rattle.stopped_threads.specs.Refused.{Withholds};
ghost use Rattle.stopped_threads.specs.Serves.{IsServe, Runs, IsLeftUnserved, not_served};

use crate::poll_armer::PollArmer;
use crate::serving::{Unserved, serve_body, serve_lent, told_job};
use berths::{BerthAct, BerthReceipt, BodyAct, BodyOwner, BodyReceipt, Room, Waiters};
use board::Board;
use bodies::{Body, Name};
use desk::{Desk, Finished, Receipt};
use operations::job::HandshakeOp;
use poll::{Armer, PollRow};
use std::alloc::{AllocError, Global};
use std::marker::Model;
use std::sync::Wait;
use thread_list::Shared;

// The hand of a holder: only here does a body that came out of its berth become a held one.
struct HolderHand;

impl BodyOwner for HolderHand {}

/// Bodies of different places in the order in which they were taken. Each has ended a publication. A body leaves only to go back
/// into its berth. Contracts see the bodies.
#[derive(Drop)]
pub struct HeldBodies<N: Name> {
    places: usize,
    bodies: Vec<Body<N>>,
    /// A bit for each place whose body was taken since the list was last empty. Where a place's bit isn't set, no body needs to
    /// be looked at.
    came: u64,
}

impl<N: Name> Model for HeldBodies<N> {
    ghost use Rattle.std.specs.Prelude.{◌≡◌, ◌≤◌, List, vec_capacity};
    ghost use Rattle.bodies.specs.Bodies.{BodyView};
    ghost use Rattle.stopped_threads.specs.Held.{AreHeld, AreAmong};

    ghost Value = { List BodyView };

    ghost view = { λ h. h.bodies.items };

    ghost invariant = { λ h. (h.places ≡ N.board.places) × (h.places ≤ 64)
        × (h.places ≤ vec_capacity h.bodies) × AreHeld h.places h.bodies.items
        × AreAmong h.came h.bodies.items };
}

/// A body on its way back into its berth. It isn't `Drop`, so it can't be lost on the way. Contracts see the body.
pub struct Returning<N: Name> {
    body: Body<N>,
}

impl<N: Name> Model for Returning<N> {
    ghost use Rattle.std.specs.Prelude.{◌≢◌, ◌<◌};
    ghost use Rattle.bodies.specs.Bodies.{BodyView};

    ghost Value = { BodyView };

    ghost view = { λ l. l.body };

    ghost invariant = { λ l. (0 < l.body.name) × (l.body.seat.stored ≢ 0)
        × (l.body.seat.place < 64) };
}

impl<N: Name> Returning<N> {
    /// Puts the body into its berth and wakes the threads that wait there. Where a census was operated over the body, that census
    /// no longer keeps its thread.
    pub fn back<J: HandshakeOp, R: Wait>(
        self,
        rt: &R,
        shared: &Shared<N, J>,
        operated: bool,
    ) -> BodyReceipt<N>
        ensures { result ≡ moved self (BodyAct.Released operated) }
    {
        let Returning { body } = self;
        shared.berth_of(&body).release(rt, body, operated)
    }

    /// Puts the body into its berth, without waking the threads that wait there. Returns the receipt and those waiters, to be
    /// woken later.
    pub fn back_quietly<J: HandshakeOp, R: Wait>(
        self,
        rt: &R,
        shared: &Shared<N, J>,
        operated: bool,
    ) -> (BodyReceipt<N>, Waiters<N>)
        ensures released { result.0 ≡ moved self (BodyAct.Released operated) }
        ensures waiters { result.1.place ≡ self.seat.place }
    {
        let Returning { body } = self;
        shared.berth_of(&body).release_quietly(rt, body, operated)
    }

    /// The place of the body's thread.
    pub fn place(&self) -> usize
        ensures place { result ≡ self.now.seat.place }
        ensures few { result < 64 }
    {
        self.body.place()
    }
}

// The index of the place's body.
fn index_of<N: Name>(bodies: &[Body<N>], place: usize) -> Option<usize>
    ensures some { IfSome result (λ i. (body : BodyView) × StandsAt bodies.now i place body) }
    ensures bound { IfSome result (λ i. (i < length bodies.now) × (place < N.board.places)) }
    ensures none { IfNone result (is_held place bodies.now ≡ false) }
{
    for index in 0..bodies.len() {
        if bodies[index].place() == place {
            return Some(index);
        }
    }
    None
}

// Whether the place's body is held.
fn is_held<N: Name>(bodies: &[Body<N>], place: usize) -> bool
    ensures { result ≡ is_held place bodies.now }
{
    bodies.iter().any(|b| b.place() == place)
}

// Publishes each body.
fn publish_all<N: Name>(bodies: &mut Vec<Body<N>>, board: &Board)
    requires board { board.now ≡ N.board }
    ensures published { AreEach IsPublished bodies.old.items bodies.new.items }
    ensures room { vec_capacity bodies.new ≡ vec_capacity bodies.old }
{
    for index in 0..bodies.len() {
        bodies[index].publish(board);
    }
}

// Clears the operation for each body. Operations are numbered from 1.
fn clear_all<N: Name>(bodies: &mut Vec<Body<N>>, row: &PollRow, number: u64)
    requires row { row.now ≡ N.poll_row }
    ensures cleared { AreEach (IsCleared number) bodies.old.items bodies.new.items }
    ensures room { vec_capacity bodies.new ≡ vec_capacity bodies.old }
{
    if number == 0 {
        return;
    }
    for index in 0..bodies.len() {
        bodies[index].clear(row, number);
    }
}

impl<N: Name> HeldBodies<N> {
    // Holds no body, with room for one of each place.
    fn new(alloc: Global, places: usize) -> Result<HeldBodies<N>, AllocError>
        requires places { (places ≡ N.board.places) × (places ≤ 64) }
        ensures { IfOk result (λ h. h ≡ []) }
    {
        let bodies = Vec::with_capacity(alloc, places)?;
        Ok(HeldBodies {
            places,
            bodies,
            came: 0,
        })
    }

    /// An empty `HeldBodies` with room for a body of each place, and the `PollArmer` that arms places. Both are made from the one armer,
    /// so there is only one of each, and neither can be replaced. If memory is refused, the armer is handed back.
    pub fn with_armer(
        alloc: Global,
        places: usize,
        armer: Armer,
    ) -> Result<(HeldBodies<N>, PollArmer), Armer>
        requires places { (places ≡ N.board.places) × (places ≤ 64) }
        ensures none { IfOk result (λ r. r.0 ≡ []) }
        ensures teller { IfOk result (λ r. r.1 ≡ armer) }
        ensures handed_back { IfErr result (λ a. a ≡ armer) }
    {
        match HeldBodies::new(alloc, places) {
            Ok(bodies) => Ok((bodies, PollArmer::new(armer))),
            Err(_) => Err(armer),
        }
    }

    pub fn as_slice(&self) -> &[Body<N>]
        ensures value { result.now ≡ self.now }
        ensures few { length result.now ≤ 64 }
    {
        self.bodies.as_slice()
    }

    /// The index of the place's body.
    pub fn index_of(&self, place: usize) -> Option<usize>
        ensures some { IfSome result (λ i. (body : BodyView) × StandsAt self.now i place body) }
        ensures bound { IfSome result (λ i. (i < length self.now) × (place < N.board.places)) }
        ensures none { IfNone result (is_held place self.now ≡ false) }
    {
        index_of(self.bodies.as_slice(), place)
    }

    /// Whether the place's body is held.
    pub fn has(&self, place: usize) -> bool
        ensures { result ≡ is_held place self.now }
    {
        if place < 64 && self.came >> place & 1 == 0 {
            return false;
        }
        is_held(self.bodies.as_slice(), place)
    }

    // Adds the body of a place of which no body is held.
    fn push(&mut self, body: Body<N>)
        requires apart { is_held body.seat.place self.old ≡ false }
        requires body { (0 < body.name) × (body.seat.stored ≢ 0) }
        ensures { self.new ≡ self.old ++ body ∷ [] }
    {
        // Reading a field makes the bound on places known; the shift relies on it.
        let _ = &self.places;
        self.came |= 1 << body.place();
        self.bodies.push_reserved(body);
    }

    /// Takes the named thread's body from its berth, if it is there and an operation is pending for the thread. The error is the
    /// receipt that the body isn't there, or that nothing is pending.
    #[inline(always)]
    pub fn hold<J: HandshakeOp, R: Wait>(
        &mut self,
        rt: &R,
        shared: &Shared<N, J>,
        name: u64,
        place: usize,
    ) -> Result<BodyReceipt<N>, BerthReceipt<N>>
        requires place { place < N.board.places }
        requires apart { is_held place self.old ≡ false }

        ensures held { IfOk result (λ r. Went place name BodyAct.Held r
            × (self.new ≡ self.old ++ r.body ∷ [])) }
        ensures left { IfErr result (λ r. (r ≡ acted place name BerthAct.Absent)
            ⊎ (r ≡ acted place name BerthAct.NothingTold)) }
        ensures said { IfErr result (λ r. r ≡ acted place name r.act) }
        ensures same { OnErr result (self.new ≡ self.old) }
    {
        let (outgoing, taken) = shared.berth(place).take(rt, name, place)?;
        self.push(outgoing.into_body(&HolderHand));
        Ok(taken)
    }

    /// Takes the body once it is in its berth and an operation is pending for its thread.
    pub fn hold_soon<J: HandshakeOp, R: Wait>(
        &mut self,
        rt: &R,
        shared: &Shared<N, J>,
        name: u64,
        place: usize,
    ) -> BodyReceipt<N>
        requires place { place < N.board.places }
        requires apart { is_held place self.old ≡ false }
        ensures { Went place name BodyAct.Held result × (self.new ≡ self.old ++ result.body ∷ []) }
    {
        let (outgoing, taken) = shared.berth(place).hold(rt, name, place);
        self.push(outgoing.into_body(&HolderHand));
        taken
    }

    /// Takes out the body at the index.
    pub fn take(&mut self, index: usize) -> Returning<N>
        requires index { index < length self.old }
        ensures body { slice_get self.old index ≡ Some result }
        ensures left { self.new ≡ remove self.old index }
    {
        let body = self.bodies.remove(index);
        Returning { body }
    }

    /// Takes out the last body.
    pub fn take_last(&mut self) -> Option<Returning<N>>
        ensures some { IfSome result (λ body. self.old ≡ self.new ++ body ∷ []) }
        ensures none { IfNone result ((self.old ≡ []) × (self.new ≡ [])) }
    {
        let body = self.bodies.pop()?;
        if self.bodies.is_empty() {
            self.came = 0;
        }
        Some(Returning { body })
    }

    /// Publishes each body.
    pub fn publish_all(&mut self, board: &Board)
        requires board { board.now ≡ N.board }
        ensures { AreEach IsPublished self.old self.new }
    {
        publish_all(&mut self.bodies, board);
    }

    /// Clears the operation for each body.
    pub fn clear_all(&mut self, row: &PollRow, number: u64)
        requires row { row.now ≡ N.poll_row }
        ensures { AreEach (IsCleared number) self.old self.new }
    {
        clear_all(&mut self.bodies, row, number);
    }

    /// Serves the body at the index: runs the oldest job that is pending for its thread. Returns the receipt of the entry.
    pub fn serve<J: HandshakeOp, R: Wait>(
        &mut self,
        rt: &R,
        shared: &Shared<N, J>,
        index: usize,
    ) -> Receipt<N>
        requires index { index < length self.old }
        ensures { (body : BodyView) × (after : BodyView) × (job : J)
            × (slice_get self.old index ≡ Some body) × (self.new ≡ slice_set self.old index after)
            × IsServe J.number J.whom J.asks J.may_answer job body after result }
    {
        let job = told_job(rt, shared, &self.bodies[index]);
        serve_body(rt, shared, &mut self.bodies[index], job)
    }

    /// Takes the named thread's body from its room, which is lent, if the body is there and an operation is pending for the
    /// thread. The error is the receipt that the body isn't there, or that nothing is pending.
    pub fn hold_from<J: HandshakeOp>(
        &mut self,
        room: &mut Room<N, J>,
        name: u64,
        place: usize,
    ) -> Result<BodyReceipt<N>, BerthReceipt<N>>
        requires apart { is_held place self.old ≡ false }
        ensures held { IfOk result (λ r. Went place name BodyAct.Held r
            × (self.new ≡ self.old ++ r.body ∷ [])) }
        ensures left { IfErr result (λ r. IsLeft room.old name place BerthAct.NothingTold r) }
        ensures withheld { OnErr result (Withholds room.old name place) }
        ensures same { OnErr result ((self.new ≡ self.old) × (room.new ≡ room.old)) }
    {
        let (outgoing, taken) = room.take(name, place)?;
        self.push(outgoing.into_body(&HolderHand));
        Ok(taken)
    }

    /// Puts the body at the index back into its room, which is lent. Where a census was operated over the body, that census no
    /// longer keeps its thread. None where the body didn't come out of this room; then nothing changes.
    pub fn release_into<J: HandshakeOp>(
        &mut self,
        index: usize,
        room: &mut Room<N, J>,
        operated: bool,
    ) -> Option<BodyReceipt<N>>
        requires index { index < length self.old }
        ensures released { IfSome result (λ r. (body : BodyView)
            × (slice_get self.old index ≡ Some body)
            × (r ≡ moved body (BodyAct.Released operated)) × (self.new ≡ remove self.old index)) }
        ensures again { IfNone result ((self.new ≡ self.old) × (room.new ≡ room.old)) }
        ensures elsewhere { IfNone result ((body : BodyView)
            × (slice_get self.old index ≡ Some body)
            × (room.old.holder ≡ IsOut body.name → room.old.place ≢ body.seat.place)) }
    {
        let body = &self.bodies[index];
        if !room.is_out(body.name()) || room.place() != body.place() {
            return None;
        }
        let Returning { body } = self.take(index);
        match room.release(body, operated) {
            Ok(receipt) => Some(receipt),
            Err(_) => unreachable!(),
        }
    }

    /// Publishes the body at the index, runs on it the oldest job of the room that is lent, enters the job's answer at the desk,
    /// and clears the operation. Returns the operation's number and what is known of the entry.
    pub fn serve_lent<J: HandshakeOp>(
        &mut self,
        index: usize,
        room: &mut Room<N, J>,
        desk: &mut Desk<N, J>,
        board: &Board,
        row: &PollRow,
    ) -> Result<(u64, Finished<N>), Unserved>
        requires index { index < length self.old }
        requires board { board.now ≡ N.board }
        requires row { row.now ≡ N.poll_row }

        ensures ran { IfOk result
            (λ r. Runs J.number J.whom J.asks J.may_answer r.0 r.1.ask r.1.body
            room.old room.new) }
        ensures served { IfOk result (λ r. (body : BodyView) × (after : BodyView)
            × (slice_get self.old index ≡ Some body) × (self.new ≡ slice_set self.old index after)
            × IsAnswered r.0 body r.1 after
            × Enters desk.old desk.new
            (Entry.Finish r.0 body.name (reply r.1.ask body.image.frames)) r.1.stands) }
        ensures left { IfErr result (λ e. (body : BodyView) × (after : BodyView)
            × (slice_get self.old index ≡ Some body) × (self.new ≡ slice_set self.old index after)
            × IsLeftUnserved J.number J.whom J.asks J.may_answer body room.old e after room.new) }
        ensures refused { OnErr result (desk.new ≡ desk.old) }
        ensures why { IfErr result (λ e. (body : BodyView) × (slice_get self.old index ≡ Some body)
            × not_served room.old (at desk.old) body.name e) }
    {
        serve_lent(&mut self.bodies[index], room, desk, board, row)
    }
}
