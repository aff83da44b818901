//! Arms the listed threads.
ghost use Rattle.std.specs.Prelude.{◌≡◌, ◌⊎◌, IfErr, OnErr, OnOk};
ghost use Rattle.parties.specs.Driven.{Leads, Rests, ArmsListed, ArmsAsked, work};

use crate::acts::Fault;
use crate::coordinating;
use crate::driving::releasing::release_all;
use crate::system::SharedSystem;
use bodies::Name;
use coordinator_core::{CoordinatorCore, Drive, PendingOp};
use operations::Kind;
use operations::job::Query;

// Arms the named thread as `tell` does, with the next job of the list in hand.
fn tell_next<'s, 'c, 'd, N: Name>(
    system: &'s SharedSystem<N>,
    keeps: &'c mut CoordinatorCore<N>,
    drive: &'d mut Drive<Query>,
    name: u64,
) -> Result<(), Fault>
    ensures armed { OnOk result (ArmsAsked keeps.old keeps.new ⊎ (keeps.new ≡ keeps.old)) }
    ensures refused { OnErr result (keeps.new ≡ keeps.old) }
    ensures called { drive.new.called ≡ drive.old.called }
    ensures rests { IfErr result (Rests (work keeps.new drive.new.called)) }
{
    let mut job = drive.swap_job(None);
    match coordinating::tell(system, keeps, name, &mut job) {
        Ok(Some((_number, _receipt))) => {
            if job.is_some() {
                let _ = drive.swap_job(job);
            } else {
                drive.pass();
            }
            Ok(())
        }
        Err(Fault::Again) => {
            let _ = drive.swap_job(job);
            Err(Fault::Again)
        }
        // The thread is gone, or nothing is pending for it.
        Ok(None) | Err(_) => {
            drive.pass();
            Ok(())
        }
    }
}

// Arms the next listed thread: as listed or, if that can't be, after a look at the desk.
fn arm_next<'s, 'c, 'd, N: Name>(
    system: &'s SharedSystem<N>,
    keeps: &'c mut CoordinatorCore<N>,
    drive: &'d mut Drive<Query>,
    next: PendingOp,
) -> Result<(), Fault>
    ensures armed { OnOk result (ArmsListed keeps.old keeps.new
        ⊎ (ArmsAsked keeps.old keeps.new ⊎ (keeps.new ≡ keeps.old))) }
    ensures refused { OnErr result (keeps.new ≡ keeps.old) }
    ensures called { drive.new.called ≡ drive.old.called }
    ensures rests { IfErr result (Rests (work keeps.new drive.new.called)) }
{
    let place = next.target.place;
    if place < system.places() {
        let Some(mut room) = system.try_room(place) else {
            return Err(Fault::Again);
        };
        if keeps
            .arm_next(drive, &mut *room.value, system.row())
            .is_some()
        {
            return Ok(());
        }
    }
    tell_next(system, keeps, drive, next.name)
}

fn arm_listed<'s, 'c, 'd, N: Name>(
    system: &'s SharedSystem<N>,
    keeps: &'c mut CoordinatorCore<N>,
    drive: &'d mut Drive<Query>,
) -> Result<(), Fault>
    ensures leads { Leads N (work keeps.old drive.old.called) (work keeps.new drive.new.called) }
    ensures rests { IfErr result (Rests (work keeps.new drive.new.called)) }
{
    for _ in 0..system.places() {
        let Some(next) = drive.next_pending() else {
            return Ok(());
        };
        arm_next(system, keeps, drive, next)?;
    }
    Ok(())
}

// Arms the whole list. For handshakes it also releases all held threads, before any target is served.
pub(crate) fn arm_all<'s, 'c, 'd, N: Name>(
    system: &'s SharedSystem<N>,
    keeps: &'c mut CoordinatorCore<N>,
    drive: &'d mut Drive<Query>,
    kind: Kind,
) -> Result<(), Fault>
    ensures leads { Leads N (work keeps.old drive.old.called) (work keeps.new drive.new.called) }
    ensures rests { IfErr result (Rests (work keeps.new drive.new.called)) }
{
    arm_listed(system, keeps, drive)?;
    if drive.next_pending().is_some() {
        return Err(Fault::Again);
    }
    if kind == Kind::Handshake {
        release_all(system, keeps)?;
    }
    drive.arm_ends(kind);
    Ok(())
}
