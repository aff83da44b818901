//! Serves the targets of handshakes, one at a time.
ghost use Rattle.std.specs.Prelude.{◌≡◌, true, false, Some, IfOk, IfErr};
ghost use Rattle.coordinator_core.specs.declared.drive.Callback.{Callback};
ghost use Rattle.parties.specs.Driven.{Leads, Rests, Called, work};

use crate::acts::Fault;
use crate::driving::releasing::let_go;
use crate::system::SharedSystem;
use bodies::Name;
use coordinator_core::{Callback, CoordinatorCore, Drive, NotCalled};
use desk::Live;
use operations::job::Query;

// Serves the held thread of the callback, under both locks, and releases it if it has no further job.
fn serve_called<'s, 'c, 'd, N: Name>(
    system: &'s SharedSystem<N>,
    keeps: &'c mut CoordinatorCore<N>,
    drive: &'d mut Drive<Query>,
    number: u64,
    place: usize,
) -> Result<(), Fault>
    requires called { drive.old.called ≡ Some (Callback.Handshake number place) }
    ensures leads { Leads N (work keeps.old drive.old.called) (work keeps.new drive.new.called) }
    ensures rests { IfErr result (Rests (work keeps.new drive.new.called)) }
{
    if place >= system.places() {
        drive.call_ends();
        return Ok(());
    }
    let Some(mut desk) = system.try_desk() else {
        return Err(Fault::Again);
    };
    let Some(mut room) = system.try_room(place) else {
        return Err(Fault::Again);
    };
    let _ = keeps.serve_called(
        &mut *desk.value,
        &mut *room.value,
        system.board(),
        system.row(),
        number,
        place,
    );
    drive.call_ends();
    if room.value.oldest_job().is_none() {
        let_go(keeps, &mut *room.value, place);
    }
    Ok(())
}

// Ends the host's callback, which the host has run: serves the held thread that it was for. Ends it too if the host has
// released that thread.
pub(crate) fn settle<'s, 'c, 'd, N: Name>(
    system: &'s SharedSystem<N>,
    keeps: &'c mut CoordinatorCore<N>,
    drive: &'d mut Drive<Query>,
) -> Result<(), Fault>
    ensures leads { Leads N (work keeps.old drive.old.called) (work keeps.new drive.new.called) }
    ensures rests { IfErr result (Rests (work keeps.new drive.new.called)) }
{
    match drive.called() {
        None => Ok(()),
        Some(Callback::Safepoint(_)) => {
            drive.call_ends();
            Ok(())
        }
        Some(Callback::Handshake(number, place)) => {
            serve_called(system, keeps, drive, number, place)
        }
    }
}

// Calls the due thread if it can be served. Returns whether it is called.
fn call_next<'s, 'c, 'd, N: Name>(
    system: &'s SharedSystem<N>,
    keeps: &'c mut CoordinatorCore<N>,
    drive: &'d mut Drive<Query>,
    who: Live,
) -> Result<bool, Fault>
    ensures called { IfOk result (λ is. is ≡ true → Called N (work keeps.old drive.old.called) (work keeps.new drive.new.called)) }
    ensures passed { IfOk result (λ is. is ≡ false → (keeps.new ≡ keeps.old) × (drive.new.called ≡ drive.old.called)) }
    ensures refused { IfErr result (λ e. (e ≡ Fault.Again) × (keeps.new ≡ keeps.old) × (drive.new.called ≡ drive.old.called)) }
{
    if who.place >= system.places() {
        drive.pass();
        return Ok(false);
    }
    let Some(mut room) = system.try_room(who.place) else {
        return Err(Fault::Again);
    };
    match keeps.call(&mut *room.value, who) {
        Ok(number) => {
            drive.call(number, who.place);
            Ok(true)
        }
        Err(NotCalled::Idle) => {
            drive.pass();
            Ok(false)
        }
        Err(NotCalled::Away) => {
            drive.pass_late();
            Ok(false)
        }
    }
}

// Makes the pass over the due targets, up to the next that can be served.
pub(crate) fn serve_pass<'s, 'c, 'd, N: Name>(
    system: &'s SharedSystem<N>,
    keeps: &'c mut CoordinatorCore<N>,
    drive: &'d mut Drive<Query>,
) -> Result<(), Fault>
    ensures leads { Leads N (work keeps.old drive.old.called) (work keeps.new drive.new.called) }
    ensures rests { IfErr result (Rests (work keeps.new drive.new.called)) }
{
    for _ in 0..system.places() {
        let Some(who) = drive.next_due() else {
            return Ok(());
        };
        if call_next(system, keeps, drive, who)? {
            return Err(Fault::Runs);
        }
    }
    Ok(())
}
