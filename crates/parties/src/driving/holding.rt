//! Holds all live threads for a census, and operates it.
ghost use Rattle.std.specs.Prelude.{◌≡◌, ◌⊎◌, IfErr, OnErr, OnOk};
ghost use Rattle.parties.specs.Driven.{Leads, Rests, Held, Operates, work};

use crate::acts::Fault;
use crate::coordinating;
use crate::system::SharedSystem;
use bodies::Name;
use coordinator_core::{CoordinatorCore, Drive, OperateFault, Stage};
use desk::Live;
use operations::job::Query;
use std::alloc::Global;

// Holds the due thread if it can be held, unless it is held.
fn hold_next<'s, 'c, 'd, N: Name>(
    system: &'s SharedSystem<N>,
    keeps: &'c mut CoordinatorCore<N>,
    drive: &'d mut Drive<Query>,
    who: Live,
) -> Result<(), Fault>
    ensures held { OnOk result
        (Held N (work keeps.old drive.old.called) (work keeps.new drive.new.called)
        ⊎ ((keeps.new ≡ keeps.old) × (drive.new.called ≡ drive.old.called))) }
    ensures refused { IfErr result (λ e. (e ≡ Fault.Again) × (keeps.new ≡ keeps.old)
        × (drive.new.called ≡ drive.old.called)) }
{
    if who.place >= system.places() || keeps.holds(who.place) {
        drive.pass();
        return Ok(());
    }
    let Some(mut room) = system.try_room(who.place) else {
        return Err(Fault::Again);
    };
    if keeps.hold_due(&mut *room.value, who).is_some() {
        drive.pass();
    } else {
        drive.pass_late();
    }
    Ok(())
}

// Makes the pass over the threads that are due for a census.
pub(crate) fn hold_pass<'s, 'c, 'd, N: Name>(
    system: &'s SharedSystem<N>,
    keeps: &'c mut CoordinatorCore<N>,
    drive: &'d mut Drive<Query>,
) -> Result<(), Fault>
    ensures leads { Leads N (work keeps.old drive.old.called) (work keeps.new drive.new.called) }
    ensures rests { IfErr result (Rests (work keeps.new drive.new.called)) }
{
    for _ in 0..system.places() {
        let Some(who) = drive.next_due() else {
            return Ok(());
        };
        hold_next(system, keeps, drive, who)?;
    }
    Ok(())
}

// Begins another pass over the threads that are due for a census.
fn look_again<'s, 'd, N: Name>(system: &'s SharedSystem<N>, drive: &'d mut Drive<Query>) -> Fault
    ensures fault { (result ≡ Fault.Again) ⊎ (result ≡ Fault.Awaits) }
    ensures same { drive.new.called ≡ drive.old.called }
{
    let Some(desk) = system.try_desk() else {
        return Fault::Again;
    };
    drive.pass_again(&*desk.value, false);
    Fault::Awaits
}

// Operates the open census if all threads are held. The fault then says that the host may run its VM operation. If the
// census was operated before, the work continues.
pub(crate) fn operate<'s, 'c, 'd, 'l, N: Name>(
    system: &'s SharedSystem<N>,
    keeps: &'c mut CoordinatorCore<N>,
    drive: &'d mut Drive<Query>,
    alloc: Global,
    counts: &'l mut Vec<(u64, u32)>,
) -> Result<(), Fault>
    ensures { Operates (work keeps.old drive.old.called) counts.old.items result
        (work keeps.new drive.new.called) counts.new.items }
{
    if drive.late() > 0 {
        return Err(look_again(system, drive));
    }
    match coordinating::operate(system, keeps, alloc, counts) {
        Ok((number, _)) => {
            drive.go(Stage::Release);
            drive.call_at_safepoint(number);
            Err(Fault::AtSafepoint)
        }
        Err(Fault::Operate(OperateFault::Refused(desk::OperateFault::NotAllHeld))) => {
            Err(look_again(system, drive))
        }
        Err(Fault::Operate(OperateFault::Refused(desk::OperateFault::AlreadyDone))) => {
            drive.go(Stage::Release);
            Ok(())
        }
        Err(Fault::Operate(OperateFault::NoMemory)) => {
            Err(Fault::Operate(OperateFault::NoMemory))
        }
        Err(Fault::Operate(OperateFault::Refused(_))) => {
            drive.go(Stage::Begin);
            Err(Fault::Again)
        }
        Err(_) => Err(Fault::Again),
    }
}
