// Makes systems and their parties. `safepoint.h` lists the refusals.
ghost use Rattle.std.specs.Prelude.{◌≡◌, ◌≢◌, None, pos};
ghost use Rattle.safepoint.specs.Told.{IsBegun, IsFresh};

use crate::codes::{BAD_SIZE, MADE, NO_MEMORY, code_of};
use crate::handle::CHandle;
use std::alloc::Global;
use thread_list::{Parts, PartsFault};

/// Makes a system of these sizes, and its coordinator.
#[unsafe(no_mangle)]
pub extern "C" fn sp_make(
    alloc: Global,
    coordinator: &mut CHandle,
    places: usize,
    slots: usize,
    methods: usize,
) -> i64
    ensures made { result ≡ pos 0
        → IsBegun coordinator.new.handle.board coordinator.new.handle.row
        coordinator.new.handle.value }
    ensures sizes { result ≡ pos 0 → (coordinator.new.handle.board.places ≡ places)
        × (coordinator.new.handle.board.slots ≡ slots) }
    ensures kept { result ≢ pos 0 → coordinator.new.handle.value ≡ coordinator.old.handle.value }
{
    if coordinator.is_made() {
        return MADE;
    }
    match Parts::new(alloc, places, slots, methods) {
        Ok(parts) => code_of(coordinator.make(alloc, parts)),
        Err(PartsFault::BadSize) => BAD_SIZE,
        Err(PartsFault::NoMemory) => NO_MEMORY,
    }
}

/// Makes another party of the same system.
#[unsafe(no_mangle)]
pub extern "C" fn sp_fork(alloc: Global, party: &mut CHandle, other: &mut CHandle) -> i64
    ensures same { party.new.handle.value ≡ party.old.handle.value }
    ensures fresh { result ≡ pos 0 → IsFresh other.new.handle.value
        × (other.new.handle.board ≡ party.old.handle.board)
        × (other.new.handle.row ≡ party.old.handle.row) }
    ensures kept { result ≢ pos 0 → other.new.handle.value ≡ other.old.handle.value }
{
    if other.is_made() {
        return MADE;
    }
    code_of(party.fork(alloc, other))
}

/// Frees the party.
#[unsafe(no_mangle)]
pub extern "C" fn sp_free(alloc: Global, party: &mut CHandle)
    ensures { party.new.handle.value ≡ None }
{
    party.free(alloc)
}
