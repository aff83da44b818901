//! Releases held threads, each under the lock of its room.
ghost use Rattle.std.specs.Prelude.{◌≡◌, ◌⊎◌, Option, IfOk, IfErr, ℕ};
ghost use Rattle.coordinator_core.specs.Done as done;
ghost use Rattle.coordinator_core.specs.declared.drive.Callback.{Callback};
ghost use Rattle.berths.specs.Berths.{Moved};
ghost use Rattle.parties.specs.Driven.{Leads, work};

use crate::acts::Fault;
use crate::system::SharedSystem;
use berths::Room;
use bodies::Name;
use coordinator_core::CoordinatorCore;
use operations::job::Query;

// Releases the held thread of the place if its body came out of this room.
pub(crate) fn let_go<'c, 'r, N: Name>(
    keeps: &'c mut CoordinatorCore<N>,
    room: &'r mut Room<N, Query>,
    place: usize,
)
    ensures { ((receipt : Moved) × done.Releases keeps.old keeps.new place receipt)
        ⊎ (keeps.new ≡ keeps.old) }
{
    let _ = keeps.release_held(room, place);
}

// Releases the body that was taken last. False if none is held.
fn release_last<'s, 'c, N: Name>(
    system: &'s SharedSystem<N>,
    keeps: &'c mut CoordinatorCore<N>,
) -> Result<bool, Fault>
    ensures released { IfOk result (λ more.
        ((place : ℕ) × (receipt : Moved) × done.Releases keeps.old keeps.new place receipt)
        ⊎ (keeps.new ≡ keeps.old)) }
    ensures refused { IfErr result (λ e. (e ≡ Fault.Again) × (keeps.new ≡ keeps.old)) }
{
    let Some(place) = keeps.last_held() else {
        return Ok(false);
    };
    let Some(mut room) = system.try_room(place) else {
        return Err(Fault::Again);
    };
    let _ = keeps.release_last(&mut *room.value);
    Ok(true)
}

pub(crate) fn release_all<'s, 'c, N: Name>(
    system: &'s SharedSystem<N>,
    keeps: &'c mut CoordinatorCore<N>,
) -> Result<(), Fault>
    ensures leads { (called : Option Callback) → Leads N (work keeps.old called) (work keeps.new called) }
    ensures refused { IfErr result (λ e. e ≡ Fault.Again) }
{
    for _ in 0..system.places() {
        if !release_last(system, keeps)? {
            return Ok(());
        }
    }
    Ok(())
}
