//! Holds all live threads, and operates and closes the open census over them.
ghost use Rattle.std.specs.Prelude.{◌≡◌, ◌<◌, [], false, None, IfOk, IfErr, OnOk, OnErr, IfSome, IfNone};
ghost use Rattle.bodies.specs.Census.{IsCensus};
ghost use Rattle.operations.specs.declared.Kind.TheVariants as kind;
ghost use Rattle.desk.specs.declared.entries.Entry.{Entry};
ghost use Rattle.desk.specs.Machine.{State as DeskState};
ghost use Rattle.stopped_threads.specs.Held.{is_held};
ghost use Rattle.stopped_threads.specs.Holding.{ArmsOn};
ghost use Rattle.coordinator.specs.Driving.{number_of, WasOldest, IsWorked, IsListed, IsCounted, HoldsOn, LacksList};

use crate::closed::{Closed, Worked};
use crate::coordinator::Coordinator;
use crate::counted::Counted;
use crate::driving::put_back;
use crate::faults::{DriveFault, Driven};
use crate::looks::Looks;
use berths::Unwoken;
use bodies::{Name, census_of};
use desk::Live;
use operations::Kind;
use operations::job::HandshakeOp;
use std::sync::Wait;
use std::{hint, thread};
use stopped_threads::OperateFault;

// How many looks into berths for absent bodies a census makes before it sleeps.
const LOOKS: u32 = 128;

// After this many looks for one thread the census yields between looks, and before that it pauses. That thread may wait
// for this very processor, and each thread that has stopped leaves its own.
const QUICK: u32 = 4;

const PAUSE: u32 = 16;

fn pause() {
    for _ in 0..PAUSE {
        hint::spin_loop();
    }
}

/// How the coordinator waits for a body that isn't in its berth: with looks while any are left, or asleep until the
/// body is there.
#[derive(Drop)]
pub enum CensusWait {
    Looking(Looks),
    Asleep,
}

impl<'a, N: Name, J: HandshakeOp> Coordinator<'a, N, J> {
    // Holds all live threads, operates the open census over them, puts their bodies back and closes the census.
    pub(crate) fn drive_census<R: Wait>(
        &mut self,
        rt: &R,
    ) -> Result<(Driven, Worked<N>), DriveFault>
        ensures closed { IfOk result (λ r.
            r.1.closing.stands.entry ≡ Entry.Close (number_of r.0)) }
        ensures worked { IfOk result (λ r. IsWorked r.0 r.1.closing) }
        ensures listed { IfOk result (λ r. IsListed self.old r.0 r.1) }
        ensures free { OnOk result ((self.new.held ≡ []) × (self.new.operated ≡ false)) }

        ensures refused { IfErr result (λ e. e ≡ DriveFault.NoMemory) }
        ensures lacks { OnErr result ((s : DeskState) × LacksList s self.new.held) }
        ensures holds { OnErr result (HoldsOn self.old self.new) }
        ensures arms { ArmsOn self.old.armer self.new.armer }
    {
        let Some(counted) = self.counted(rt) else {
            return Err(DriveFault::NoMemory);
        };
        let number = counted.number();
        let unwoken = put_back(rt, self.shared, &mut self.bodies, self.operated);
        let closed = self.close_census(rt, unwoken, number);
        Ok(closed.census(counted))
    }

    // Closes the open census, of this number if one is given, and wakes the threads that wait at berths.
    fn close_census<R: Wait>(
        &mut self,
        rt: &R,
        unwoken: Unwoken<N>,
        number: Option<u64>,
    ) -> Closed<N>
        requires free { self.old.held ≡ [] }

        ensures closed { result.shown.stands.entry ≡ Entry.Close result.number }
        ensures oldest { WasOldest kind.Census result.number result.shown }
        ensures numbered { IfSome number (λ n. result.number ≡ n) }
        ensures free { (self.new.held ≡ []) × (self.new.operated ≡ false) }
        ensures armer { self.new.armer ≡ self.old.armer }
    {
        let closed = self.close_kind(rt, Kind::Census, number);
        self.shared.wake(unwoken);
        match closed {
            Some(closed) => closed,
            None => self.close_again(rt, number),
        }
    }

    // Closes the open census after a failed try. Other threads run before each further try.
    fn close_again<R: Wait>(&mut self, rt: &R, number: Option<u64>) -> Closed<N>
        requires free { self.old.held ≡ [] }

        ensures closed { result.shown.stands.entry ≡ Entry.Close result.number }
        ensures oldest { WasOldest kind.Census result.number result.shown }
        ensures numbered { IfSome number (λ n. result.number ≡ n) }
        ensures free { (self.new.held ≡ []) × (self.new.operated ≡ false) }
        ensures armer { self.new.armer ≡ self.old.armer }
    {
        for _ in rt.forever() {
            thread::yield_now();
            if let Some(closed) = self.close_kind(rt, Kind::Census, number) {
                return closed;
            }
        }
        unreachable!()
    }

    // Holds all live threads, mostly those that were listed for arming, and operates the open census over them. None if
    // there is no memory for its list. Nobody else operates a census: if the desk says that it is done, this
    // coordinator has done it.
    fn counted<R: Wait>(&mut self, rt: &R) -> Option<Counted<N>>
        ensures counted { IfSome result (IsCounted self.old) }
        ensures lacks { IfNone result ((s : DeskState) × LacksList s self.new.held) }
        ensures holds { IfNone result (HoldsOn self.old self.new) }
        ensures arms { ArmsOn self.old.armer self.new.armer }
    {
        self.hold_listed(rt, CensusWait::Looking(Looks::new(LOOKS)));
        for _ in rt.forever() {
            match self.operate(rt) {
                Ok((number, list, receipt)) => {
                    return Some(Counted {
                        list,
                        operated: Some((number, receipt)),
                    });
                }
                Err(OperateFault::NoMemory) => return None,
                Err(OperateFault::Refused(desk::OperateFault::AlreadyDone)) if self.operated => {
                    return self.list_again();
                }
                Err(OperateFault::Refused(_)) => self.hold_all(rt),
            }
        }
        unreachable!()
    }

    // The list of the operated census over the threads that are still held.
    fn list_again(&self) -> Option<Counted<N>>
        ensures { IfSome result (λ c. IsCensus self.now.held c.list × (c.operated ≡ None)) }
    {
        match census_of(self.alloc, self.bodies.as_slice()) {
            Ok(list) => Some(Counted {
                list,
                operated: None,
            }),
            Err(_) => None,
        }
    }

    fn hold_all<R: Wait>(&mut self, rt: &R)
        ensures { HoldsOn self.old self.new }
    {
        self.list_due(rt, false);
        self.hold_listed(rt, CensusWait::Asleep);
    }

    // Holds the listed threads. A thread that exited before it was armed doesn't come.
    fn hold_listed<R: Wait>(&mut self, rt: &R, waiting: CensusWait)
        ensures { HoldsOn self.old self.new }
    {
        let mut waiting = waiting;
        for at in 0..self.places {
            if at >= self.due.len() {
                return;
            }
            let who = self.due[at];
            self.hold_due(rt, who, &mut waiting);
        }
    }

    // Takes a thread's body out of its berth, unless it is held.
    fn hold_due<R: Wait>(&mut self, rt: &R, due: Live, waiting: &mut CensusWait)
        ensures { HoldsOn self.old self.new }
    {
        if due.place >= self.places || self.bodies.has(due.place) {
            return;
        }
        match waiting {
            CensusWait::Looking(looks) => self.look_for(rt, due, looks),
            CensusWait::Asleep => {
                let _receipt = self.bodies.hold_soon(rt, self.shared, due.name, due.place);
            }
        }
    }

    // Takes a thread's body out of its berth once it is there, and looks for it while looks are left.
    fn look_for<R: Wait>(&mut self, rt: &R, due: Live, looks: &mut Looks)
        requires place { due.place < N.board.places }
        requires apart { is_held due.place self.old.held ≡ false }
        ensures { HoldsOn self.old self.new }
    {
        for made in 0..looks.up_to(LOOKS) {
            if self.hold_here(rt, due.name, due.place).is_ok() {
                looks.spend(made);
                return;
            }
            if made < QUICK {
                pause();
            } else {
                thread::yield_now();
            }
        }
        looks.end();
    }
}
