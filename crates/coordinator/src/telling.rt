//! Arms a thread by its name: puts its job, or the mark of a census, into its berth, and arms its place.
ghost use Rattle.std.specs.Prelude.{◌≡◌, ◌<◌, ◌≤◌, true, length, map, slice_index, IfSome, IfNone, OnSome};
ghost use Rattle.thread_state.specs.PollRule.{armed_with};
ghost use Rattle.stopped_threads.specs.Holding.{ArmsOn};
ghost use Rattle.stopped_threads.specs.Refused.{tell_said, told_act};
ghost use Rattle.coordinator_core.specs.Telling.{IsListing, AreArmed};
ghost use Rattle.berths.specs.Berths.{acted};

use crate::all_armed::AllArmed;
use crate::coordinator::Coordinator;
use berths::{BerthReceipt, locked};
use bodies::Name;
use coordinator_core::{Listed, PendingJob, PendingOp, job_of, put_in};
use desk::Desk;
use operations::Kind;
use operations::job::HandshakeOp;
use std::sync::Wait;
use std::{mem, thread};
use stopped_threads::{Found, TellFault, Told, look_up};

impl<'a, N: Name, J: HandshakeOp> Coordinator<'a, N, J> {
    /// Arms the named thread's poll for its oldest open request for which it wasn't armed, so that it stops at its next
    /// poll. Returns the receipt of the job or mark, or `Gone` without a live thread: nothing is done. Refusals in the
    /// order of `TellFault`.
    pub fn tell<R: Wait>(&mut self, rt: &R, name: u64) -> Result<Told<N>, TellFault>
        ensures said { tell_said name self.old.armer self.new.armer result }
        ensures held { (self.new.held ≡ self.old.held) × (self.new.operated ≡ self.old.operated) }
        ensures arms { ArmsOn self.old.armer self.new.armer }
    {
        self.tell_with(rt, name, None)
    }

    // Arms the named thread, with a job for it that was taken before, if any.
    fn tell_with<R: Wait>(
        &mut self,
        rt: &R,
        name: u64,
        hand: Option<J>,
    ) -> Result<Told<N>, TellFault>
        ensures said { tell_said name self.old.armer self.new.armer result }
        ensures held { (self.new.held ≡ self.old.held) × (self.new.operated ≡ self.old.operated) }
        ensures arms { ArmsOn self.old.armer self.new.armer }
    {
        let mut hand = hand;
        for _ in rt.forever() {
            if let Some(said) = self.try_tell(rt, name, &mut hand) {
                return said;
            }
            thread::yield_now();
        }
        unreachable!()
    }

    // One try: a look at the desk and, if an operation is pending, a step at the berth. None if the berth doesn't bear
    // the name: the thread is starting or exiting. A job that was taken stays in hand.
    fn try_tell<R: Wait>(
        &mut self,
        rt: &R,
        name: u64,
        hand: &mut Option<J>,
    ) -> Option<Result<Told<N>, TellFault>>
        ensures said { IfSome result (λ r. tell_said name self.old.armer self.new.armer r) }
        ensures again { IfNone result (self.new ≡ self.old) }
        ensures held { (self.new.held ≡ self.old.held) × (self.new.operated ≡ self.old.operated) }
        ensures arms { ArmsOn self.old.armer self.new.armer }
    {
        let mut desk = self.shared.desk().lock(rt);
        let (target, number) = match look_up(&desk, &self.armer, self.places, name) {
            Found::Untold(target, number) => (target, number),
            Found::NoPlace => return None,
            Found::Said(said) => return Some(said),
        };
        let job = job_of(
            &mut desk,
            number,
            name,
            hand.is_none() && target.kind == Kind::Handshake,
        );
        drop(desk);
        if job.is_some() {
            *hand = job;
        }
        let what = PendingOp {
            name,
            target,
            number,
            last: self.armer.last(target.place),
        };
        let mut pending = PendingJob {
            what,
            job: hand.take(),
        };
        let receipt = self.put(rt, &mut pending);
        *hand = pending.job;
        Some(Ok(Told::Told(receipt?)))
    }

    // Arms the listed threads, and lists and arms again while more is pending.
    pub(crate) fn tell_on<R: Wait>(&mut self, rt: &R, listed: Listed<N, J>) -> AllArmed<N, J>
        requires places { length self.old.armer.armed ≡ N.board.places }
        requires listed { IsListing self.old.armer listed }
        ensures held { (self.new.held ≡ self.old.held) × (self.new.operated ≡ self.old.operated) }
        ensures arms { ArmsOn self.old.armer self.new.armer }
    {
        let mut listed = listed;
        for _ in rt.forever() {
            if let Some(told) = self.tell_listed(rt, listed) {
                return told;
            }
            listed = self.list_untold(rt);
        }
        unreachable!()
    }

    // Lists the due threads and the next pending operation of each, under one hold of the desk's lock.
    fn list_untold<R: Wait>(&mut self, rt: &R) -> Listed<N, J>
        ensures same { self.new ≡ self.old }
        ensures places { length self.new.armer.armed ≡ N.board.places }
        ensures listed { IsListing self.new.armer result }
    {
        let mut desk = self.shared.desk().lock(rt);
        self.list_from(&mut desk)
    }

    // Lists them under a hold of the desk's lock. It is inlined, down to its loops, since a returned list would go
    // through memory.
    #[inline(always)]
    pub(crate) fn list_from(&mut self, desk: &mut Desk<N, J>) -> Listed<N, J>
        ensures same { self.new ≡ self.old }
        ensures seen { result.seen ≡ desk.old }
        ensures places { length self.new.armer.armed ≡ N.board.places }
        ensures listed { IsListing self.new.armer result }
    {
        self.out = 0;
        let list = mem::replace(&mut self.untold, Vec::new(self.alloc));
        Listed::list(desk, &self.armer, self.places, &mut self.due, list)
    }

    // Arms the listed threads. None if more is pending, or a thread wasn't armed for its listed operation.
    fn tell_listed<R: Wait>(&mut self, rt: &R, listed: Listed<N, J>) -> Option<AllArmed<N, J>>
        requires places { length self.old.armer.armed ≡ N.board.places }
        requires listed { IsListing self.old.armer listed }
        ensures seen { IfSome result (λ told. told ≡ listed.seen) }
        ensures held { (self.new.held ≡ self.old.held) × (self.new.operated ≡ self.old.operated) }
        ensures arms { ArmsOn self.old.armer self.new.armer }
    {
        let (seen, mut list, has_more) = listed.parts();
        let is_told = self.tell_each(rt, &mut list);
        self.untold = list;
        if has_more || !is_told {
            return None;
        }
        Some(AllArmed::of(seen, &self.armer))
    }

    // Arms each thread of the list, in the order of names. Returns whether each was armed for its listed operation.
    fn tell_each<R: Wait>(&mut self, rt: &R, list: &mut Vec<PendingJob<J>>) -> bool
        ensures told { result ≡ true → AreArmed self.new.armer (map (λ u. u.what) list.old.items) }
        ensures held { (self.new.held ≡ self.old.held) × (self.new.operated ≡ self.old.operated) }
        ensures arms { ArmsOn self.old.armer self.new.armer }
    {
        let mut is_told = true;
        for at in 0..list.len() {
            is_told = self.tell_at(rt, &mut list[at]) && is_told;
        }
        is_told
    }

    // Arms a thread for its listed operation, and returns whether it did. If the berth doesn't bear the name, it arms
    // the thread as `tell` does. The job goes from the list straight into the berth, since the processor would wait for
    // each store of a copy.
    #[inline(always)]
    fn tell_at<R: Wait>(&mut self, rt: &R, untold: &mut PendingJob<J>) -> bool
        ensures told { result ≡ true
            → untold.old.what.number ≤ slice_index self.new.armer.armed untold.old.what.target.place }
        ensures listed { untold.new.what ≡ untold.old.what }
        ensures held { (self.new.held ≡ self.old.held) × (self.new.operated ≡ self.old.operated) }
        ensures arms { ArmsOn self.old.armer self.new.armer }
    {
        let what = untold.what;
        if what.target.place < self.places && self.put(rt, untold).is_some() {
            return true;
        }
        let _ = self.tell_with(rt, what.name, untold.job.take());
        false
    }

    // Notes that the place's thread has its body while it is armed.
    #[inline(always)]
    fn note_out(&mut self, place: usize, is_out: bool)
        ensures { self.new ≡ self.old }
    {
        if is_out {
            self.out |= 1 << (place % 64);
        }
    }

    // Puts the pending job or mark into its berth, and arms the place. Returns the receipt of the job or mark.
    #[inline(always)]
    fn put<R: Wait>(&mut self, rt: &R, pending: &mut PendingJob<J>) -> Option<BerthReceipt<N>>
        requires place { pending.old.what.target.place < length self.old.armer.armed }

        ensures armed { OnSome result (self.new.armer
            ≡ armed_with self.old.armer pending.old.what.target.place pending.old.what.number) }
        ensures receipt { IfSome result (λ r.
            r ≡ acted pending.old.what.target.place pending.old.what.name
            (told_act pending.old.what.target.kind pending.old.what.number)) }
        ensures refused { IfNone result (self.new.armer ≡ self.old.armer) }
        ensures what { pending.new.what ≡ pending.old.what }
        ensures held { (self.new.held ≡ self.old.held) × (self.new.operated ≡ self.old.operated) }
        ensures arms { ArmsOn self.old.armer self.new.armer }
    {
        let shared = self.shared;
        let place = pending.what.target.place;
        let mut room = locked!(shared.berth(place).room(), rt);
        let is_out = !room.has_body(pending.what.name) && !self.bodies.has(place);
        self.note_out(place, is_out);
        put_in(
            &mut self.armer,
            self.places,
            &mut room,
            shared.row(),
            pending,
        )
    }
}
