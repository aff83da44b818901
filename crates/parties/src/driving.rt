//! Advances the work on the open requests as far as it goes without waiting. Each step tries the desk's lock, a room's
//! lock or both, and holds them for that step only.
ghost use Rattle.std.specs.Prelude.{◌≡◌, IfOk, IfErr, OnErr};
ghost use Rattle.parties.specs.Driven.{Leads, Rests, Closed, Ends, Advances, work};

use crate::acts::Fault;
use crate::system::SharedSystem;
use arming::arm_all;
use bodies::Name;
use coordinator_core::{CoordinatorCore, Drive, Stage};
use desk::{CloseFault, OpenFault};
use holding::{hold_pass, operate};
use operations::Kind;
use operations::job::Query;
use releasing::release_all;
use serving::{serve_pass, settle};
use std::alloc::Global;

mod arming;
mod holding;
mod releasing;
mod serving;

// Opens the oldest waiting request if none is open, and lists the pending operations.
fn begin<'s, 'c, 'd, N: Name>(
    system: &'s SharedSystem<N>,
    keeps: &'c CoordinatorCore<N>,
    drive: &'d mut Drive<Query>,
    alloc: Global,
) -> Result<(), Fault>
    ensures leads { Leads N (work keeps.now drive.old.called) (work keeps.now drive.new.called) }
    ensures rests { IfErr result (Rests (work keeps.now drive.new.called)) }
{
    if drive.reserve(alloc, system.places()).is_err() {
        return Err(Fault::NoMemory);
    }
    let Some(mut desk) = system.try_desk() else {
        return Err(Fault::Again);
    };
    desk.value.history_is_legal();
    if keeps.begin(&mut *desk.value, drive) {
        Ok(())
    } else {
        Err(Fault::Open(OpenFault::QueueEmpty))
    }
}

// Comes to the point at which the pending operations are listed.
fn open_and_list<'s, 'c, 'd, N: Name>(
    system: &'s SharedSystem<N>,
    keeps: &'c mut CoordinatorCore<N>,
    drive: &'d mut Drive<Query>,
    alloc: Global,
) -> Result<(), Fault>
    ensures leads { Leads N (work keeps.old drive.old.called) (work keeps.new drive.new.called) }
    ensures rests { IfErr result (Rests (work keeps.new drive.new.called)) }
{
    settle(system, keeps, drive)?;
    if drive.stage() != Stage::Begin {
        return Ok(());
    }
    begin(system, keeps, drive, alloc)
}

// Comes to the point at which the whole list is armed.
fn arm<'s, 'c, 'd, N: Name>(
    system: &'s SharedSystem<N>,
    keeps: &'c mut CoordinatorCore<N>,
    drive: &'d mut Drive<Query>,
    alloc: Global,
) -> Result<(), Fault>
    ensures leads { Leads N (work keeps.old drive.old.called) (work keeps.new drive.new.called) }
    ensures rests { IfErr result (Rests (work keeps.new drive.new.called)) }
{
    open_and_list(system, keeps, drive, alloc)?;
    let Stage::Arm(kind) = drive.stage() else {
        return Ok(());
    };
    arm_all(system, keeps, drive, kind)
}

// Comes to the point at which targets of handshakes are served, or the census is operated.
fn prepare<'s, 'c, 'd, N: Name>(
    system: &'s SharedSystem<N>,
    keeps: &'c mut CoordinatorCore<N>,
    drive: &'d mut Drive<Query>,
    alloc: Global,
) -> Result<(), Fault>
    ensures leads { Leads N (work keeps.old drive.old.called) (work keeps.new drive.new.called) }
    ensures rests { IfErr result (Rests (work keeps.new drive.new.called)) }
{
    arm(system, keeps, drive, alloc)?;
    if drive.stage() != Stage::Hold {
        return Ok(());
    }
    hold_pass(system, keeps, drive)
}

// Closes the oldest open request if it is of this kind. If targets of a handshake aren't done with it, begins another
// pass.
fn close<'s, 'c, 'd, N: Name>(
    system: &'s SharedSystem<N>,
    keeps: &'c mut CoordinatorCore<N>,
    drive: &'d mut Drive<Query>,
    kind: Kind,
) -> Result<u64, Fault>
    ensures closed { IfOk result
        (λ n. Closed (work keeps.old drive.old.called) n (work keeps.new drive.new.called)) }
    ensures refused { OnErr result
        ((keeps.new ≡ keeps.old) × (drive.new.called ≡ drive.old.called)) }
    ensures rests { IfErr result (Rests (work keeps.new drive.new.called)) }
{
    let Some(mut desk) = system.try_desk() else {
        return Err(Fault::Again);
    };
    desk.value.history_is_legal();
    if desk.value.open_kind() != Some(kind) {
        drive.go(Stage::Begin);
        return Err(Fault::Again);
    }
    match keeps.close(&mut *desk.value, None) {
        Ok((number, _receipt)) => {
            drive.go(Stage::Begin);
            Ok(number)
        }
        Err(CloseFault::NotDone) if kind == Kind::Handshake => {
            drive.pass_again(&*desk.value, true);
            Err(Fault::Awaits)
        }
        Err(_) => {
            drive.go(Stage::Begin);
            Err(Fault::Again)
        }
    }
}

// Serves the targets of the open handshakes and closes the oldest one, or releases the threads that were held for the
// census and closes the census.
fn finish<'s, 'c, 'd, N: Name>(
    system: &'s SharedSystem<N>,
    keeps: &'c mut CoordinatorCore<N>,
    drive: &'d mut Drive<Query>,
) -> Result<u64, Fault>
    ensures { Ends N (work keeps.old drive.old.called) result (work keeps.new drive.new.called) }
{
    match drive.stage() {
        Stage::Serve => {
            serve_pass(system, keeps, drive)?;
            close(system, keeps, drive, Kind::Handshake)
        }
        Stage::Release => {
            release_all(system, keeps)?;
            close(system, keeps, drive, Kind::Census)
        }
        Stage::Begin | Stage::Arm(_) | Stage::Hold => Err(Fault::Again),
    }
}

/// Advances the work on the open requests as far as it goes without waiting. Returns the number of the request that it
/// closed, or why the work rests.
pub(crate) fn advance<'s, 'c, 'd, 'l, N: Name>(
    system: &'s SharedSystem<N>,
    keeps: &'c mut CoordinatorCore<N>,
    drive: &'d mut Drive<Query>,
    alloc: Global,
    counts: &'l mut Vec<(u64, u32)>,
) -> Result<u64, Fault>
    ensures { Advances N (work keeps.old drive.old.called) counts.old.items result
        (work keeps.new drive.new.called) counts.new.items }
{
    if let Err(fault) = prepare(system, keeps, drive, alloc) {
        return Err(fault);
    }
    if drive.stage() != Stage::Hold {
        return finish(system, keeps, drive);
    }
    if let Err(fault) = operate(system, keeps, drive, alloc, counts) {
        return Err(fault);
    }
    finish(system, keeps, drive)
}
