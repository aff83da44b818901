//! Serves the targets of open handshakes, one at a time, until the oldest handshake is closed.
ghost use Rattle.std.specs.Prelude.{◌≡◌, ◌⊎◌, ◌<◌, ◌≤◌, ◌-◌, ℕ, [], true, false, min, IfOk, IfErr};
ghost use Rattle.desk.specs.declared.entries.Entry.{Entry};
ghost use Rattle.desk.specs.Machine.{State as DeskState};
ghost use Rattle.desk.specs.Fields.{at};
ghost use Rattle.coordinator.specs.Driving.{number_of, IsWorked, IsListed};
ghost use Rattle.coordinator.specs.Awaited.{awaited, WasThere};
ghost use Rattle.stopped_threads.specs.Brought.{IsAttended};
ghost use Rattle.stopped_threads.specs.Holding.{Holding};
ghost use Rattle.berths.specs.Berths.{acted};

use crate::all_armed::AllArmed;
use crate::closed::Worked;
use crate::coordinator::Coordinator;
use crate::faults::Driven;
use crate::looks::Looks;
use berths::{BerthAct, BerthReceipt};
use bodies::Name;
use desk::{Desk, Live, Progress};
use operations::Kind;
use operations::job::HandshakeOp;
use std::hint;
use std::sync::Wait;
use stopped_threads::{BodyInService, ServeReceipt};

// How many looks at poll words the passes of a `drive` make, without a lock, before they sleep.
const SPINS: u32 = 500;

// How many of these looks are for one thread. They take longer than a thread takes to its next poll: if it didn't come,
// it may wait for this very processor. The coordinator doesn't yield instead, since a thread that has served itself may
// then run there for its slice.
const PATIENCE: u32 = 250;

/// The passes over the due targets, after all are armed. The first pass is over the targets that were listed for
/// arming, each further one over those that are due for the oldest open request.
#[derive(Drop)]
pub struct Passes<N: Name, J: HandshakeOp> {
    told: AllArmed<N, J>,
    looks: Looks,
    is_first: bool,
}

impl<N: Name, J: HandshakeOp> Passes<N, J> {
    /// Makes `Passes` before the first pass, with all looks left.
    pub fn new(told: AllArmed<N, J>) -> Passes<N, J>
        ensures told { result.told ≡ told }
        ensures looks { result.looks ≡ 500 }
        ensures first { result.is_first ≡ true }
    {
        Passes {
            told,
            looks: Looks::new(SPINS),
            is_first: true,
        }
    }
}

/// The result for a target whose body was in its berth: it was served, or had no job, since its thread has served
/// itself.
#[derive(Drop)]
pub enum TryServed<N: Name> {
    Served(ServeReceipt<N>),
    Idle(BerthReceipt<N>),
}

// The number of the oldest open request, if the named thread is due for it.
fn awaited_of<N: Name, J: HandshakeOp>(desk: &Desk<N, J>, name: u64) -> Option<u64>
    ensures { result ≡ awaited (at desk.now) name }
{
    if !desk.is_awaited(name) {
        return None;
    }
    match desk.progress(name, u64::MAX) {
        Progress::Undone(number) => Some(number),
        Progress::Done | Progress::NotTold => None,
    }
}

impl<'a, N: Name, J: HandshakeOp> Coordinator<'a, N, J> {
    // Serves the targets, pass by pass, until the oldest open handshake is closed.
    pub(crate) fn drive_handshake<R: Wait>(
        &mut self,
        rt: &R,
        told: AllArmed<N, J>,
    ) -> (Driven, Worked<N>)
        ensures closed { result.1.closing.stands.entry ≡ Entry.Close (number_of result.0) }
        ensures worked { IsWorked result.0 result.1.closing }
        ensures listed { (old : Holding) → IsListed old result.0 result.1 }
        ensures free { (self.new.held ≡ []) × (self.new.operated ≡ false) }
        ensures armer { self.new.armer ≡ self.old.armer }
    {
        self.release_all(rt);
        let mut passes = Passes::new(told);
        for _ in rt.forever() {
            self.serve_pass(rt, &mut passes);
            if let Some(closed) = self.close_kind(rt, Kind::Handshake, None) {
                return closed.handshake();
            }
        }
        unreachable!()
    }

    // Makes a pass: serves each due target, in the order of names.
    pub(crate) fn serve_pass<R: Wait>(&mut self, rt: &R, passes: &mut Passes<N, J>)
        ensures same { self.new ≡ self.old }
        ensures told { passes.new.told ≡ passes.old.told }
        ensures looks { passes.new.looks ≤ passes.old.looks }
        ensures further { passes.new.is_first ≡ false }
    {
        if !passes.is_first {
            self.list_due(rt, true);
        }
        self.serve_listed(rt, passes);
        passes.is_first = false;
    }

    // Serves each listed target: at once if its body is in its berth, otherwise after a wait.
    fn serve_listed<R: Wait>(&self, rt: &R, passes: &mut Passes<N, J>)
        ensures pass { (passes.new.told ≡ passes.old.told)
            × (passes.new.is_first ≡ passes.old.is_first) }
        ensures looks { passes.new.looks ≤ passes.old.looks }
    {
        for who in self.due.as_slice() {
            if who.place >= self.places {
                continue;
            }
            let is_out = (self.out >> (who.place % 64)) & 1 == 1;
            if is_out || self.try_serve(rt, &passes.told, *who).is_err() {
                self.wait_then_serve(rt, passes, *who);
            }
        }
    }

    // Waits for a target whose body isn't in its berth. While looks are left it waits without a lock, since the thread
    // would have to wait for that lock. Then, if the target is due for the oldest open request, it sleeps until the
    // body is there. A target that comes to its armed poll serves itself. Only a further pass waits for that: what the
    // target runs may wait for targets later in this pass.
    #[inline(never)]
    fn wait_then_serve<R: Wait>(&self, rt: &R, passes: &mut Passes<N, J>, who: Live)
        requires { who.place < N.board.places }
        ensures pass { (passes.new.told ≡ passes.old.told)
            × (passes.new.is_first ≡ passes.old.is_first) }
        ensures looks { passes.new.looks ≤ passes.old.looks }
    {
        if self.spin_until_clear(who.place, &mut passes.looks)
            || self.try_serve(rt, &passes.told, who).is_ok()
        {
            return;
        }
        let Some(number) = self.awaited(rt, who.name) else {
            return;
        };
        let came = self
            .shared
            .berth(who.place)
            .wait_for(rt, who.name, who.place, number);
        if came.act() == BerthAct::Here {
            let _ = self.try_serve(rt, &passes.told, who);
        } else if !passes.is_first {
            self.shared.wait_finished(rt, who.name);
        }
    }

    // Looks at the place's poll word until it is clear, as often as patience and the looks left allow. Returns whether
    // it is clear. If it isn't, no looks are left.
    fn spin_until_clear(&self, place: usize, looks: &mut Looks) -> bool
        ensures came { result ≡ true → (made : ℕ) × (made < min looks.old 250)
            × (looks.new ≡ looks.old - made) }
        ensures away { result ≡ false → looks.new ≡ 0 }
    {
        for made in 0..looks.up_to(PATIENCE) {
            if self.shared.row().peek(place) == 0 {
                looks.spend(made);
                return true;
            }
            hint::spin_loop();
        }
        looks.end();
        false
    }

    // The number of the oldest open request, if the named thread is due for it.
    fn awaited<R: Wait>(&self, rt: &R, name: u64) -> Option<u64>
        ensures { (s : DeskState) × (result ≡ awaited s name) }
    {
        let desk = self.shared.desk().lock(rt);
        awaited_of(&desk, name)
    }

    // Serves a target if its body is in its berth: takes the body out with its oldest job, serves all its jobs in
    // order, and puts the body back. The error is the receipt that the body isn't there.
    #[inline(always)]
    fn try_serve<R: Wait>(
        &self,
        rt: &R,
        told: &AllArmed<N, J>,
        due: Live,
    ) -> Result<TryServed<N>, BerthReceipt<N>>
        requires { due.place < N.board.places }
        ensures attended { IfOk result
            (WasThere J.number J.whom J.asks J.may_answer due.place due.name) }
        ensures absent { IfErr result (λ r. r ≡ acted due.place due.name BerthAct.Absent) }
    {
        match BodyInService::take(rt, self.shared, told, due.name, due.place) {
            Ok(served) => Ok(TryServed::Served(served.bring_back(rt, self.shared))),
            Err(left) => match left.act() {
                BerthAct::NoJob => Ok(TryServed::Idle(left)),
                _ => Err(left),
            },
        }
    }
}
