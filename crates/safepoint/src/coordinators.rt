// The calls of the coordinator. `safepoint.h` lists the refusals.
ghost use Rattle.std.specs.Prelude.{◌≡◌, Some, None};
ghost use Rattle.safepoint.specs.Told.{Replies};

use crate::codes::code_of;
use crate::handle::CHandle;
use parties::acts::Act;

/// Opens the oldest waiting request, and returns its number.
#[unsafe(no_mangle)]
pub extern "C" fn sp_open(coordinator: &mut CHandle) -> i64
    ensures { Replies coordinator.old.handle.board.places result Act.Open
        coordinator.old.handle.value coordinator.new.handle.value }
{
    code_of(coordinator.dispatch(Act::Open))
}

/// Arms the named thread, and returns the number with which its place is armed, 0 if the name is gone.
#[unsafe(no_mangle)]
pub extern "C" fn sp_tell(coordinator: &mut CHandle, name: u64) -> i64
    ensures { Replies coordinator.old.handle.board.places result (Act.Tell name)
        coordinator.old.handle.value coordinator.new.handle.value }
{
    code_of(coordinator.dispatch(Act::Tell(name)))
}

/// Holds the thread of a place, and returns the oldest operation that it owes.
#[unsafe(no_mangle)]
pub extern "C" fn sp_hold(coordinator: &mut CHandle, place: usize) -> i64
    ensures { Replies coordinator.old.handle.board.places result (Act.Hold place)
        coordinator.old.handle.value coordinator.new.handle.value }
{
    code_of(coordinator.dispatch(Act::Hold(place)))
}

/// Serves the held thread of a place, and returns the operation's number.
#[unsafe(no_mangle)]
pub extern "C" fn sp_serve(coordinator: &mut CHandle, place: usize) -> i64
    ensures { Replies coordinator.old.handle.board.places result (Act.Serve place)
        coordinator.old.handle.value coordinator.new.handle.value }
{
    code_of(coordinator.dispatch(Act::Serve(place)))
}

/// Releases the held thread of a place.
#[unsafe(no_mangle)]
pub extern "C" fn sp_release(coordinator: &mut CHandle, place: usize) -> i64
    ensures { Replies coordinator.old.handle.board.places result (Act.Release place)
        coordinator.old.handle.value coordinator.new.handle.value }
{
    code_of(coordinator.dispatch(Act::Release(place)))
}

/// Operates the open census over the held threads, and returns its number.
#[unsafe(no_mangle)]
pub extern "C" fn sp_operate(coordinator: &mut CHandle) -> i64
    ensures { Replies coordinator.old.handle.board.places result Act.Operate
        coordinator.old.handle.value coordinator.new.handle.value }
{
    code_of(coordinator.dispatch(Act::Operate))
}

/// Returns how many frames a code had in the last operated census.
#[unsafe(no_mangle)]
pub extern "C" fn sp_counted(coordinator: &mut CHandle, serial: u64) -> i64
    ensures { Replies coordinator.old.handle.board.places result (Act.Counted serial)
        coordinator.old.handle.value coordinator.new.handle.value }
{
    code_of(coordinator.dispatch(Act::Counted(serial)))
}

/// Closes the oldest open request, and returns its number.
#[unsafe(no_mangle)]
pub extern "C" fn sp_close(coordinator: &mut CHandle) -> i64
    ensures { Replies coordinator.old.handle.board.places result (Act.Close None)
        coordinator.old.handle.value coordinator.new.handle.value }
{
    code_of(coordinator.dispatch(Act::Close(None)))
}

/// Closes the open request of this number, and returns the number.
#[unsafe(no_mangle)]
pub extern "C" fn sp_close_of(coordinator: &mut CHandle, number: u64) -> i64
    ensures { Replies coordinator.old.handle.board.places result (Act.Close (Some number))
        coordinator.old.handle.value coordinator.new.handle.value }
{
    code_of(coordinator.dispatch(Act::Close(Some(number))))
}

/// Advances the work on the open requests as far as it goes without waiting. Returns the number of the request that it
/// closed, or a code that says: a held thread is served next, the census is operated, or threads haven't come yet.
#[unsafe(no_mangle)]
pub extern "C" fn sp_advance(coordinator: &mut CHandle) -> i64
    ensures { Replies coordinator.old.handle.board.places result Act.Advance
        coordinator.old.handle.value coordinator.new.handle.value }
{
    code_of(coordinator.dispatch(Act::Advance))
}

/// Returns the operation of the host's next callback, 0 without one.
#[unsafe(no_mangle)]
pub extern "C" fn sp_called_operation(coordinator: &mut CHandle) -> i64
    ensures { Replies coordinator.old.handle.board.places result Act.CalledOperation
        coordinator.old.handle.value coordinator.new.handle.value }
{
    code_of(coordinator.dispatch(Act::CalledOperation))
}

/// Returns the place of the held thread of that callback, 0 without one.
#[unsafe(no_mangle)]
pub extern "C" fn sp_called_place(coordinator: &mut CHandle) -> i64
    ensures { Replies coordinator.old.handle.board.places result Act.CalledPlace
        coordinator.old.handle.value coordinator.new.handle.value }
{
    code_of(coordinator.dispatch(Act::CalledPlace))
}

/// Returns how many threads the work waits for.
#[unsafe(no_mangle)]
pub extern "C" fn sp_awaited(coordinator: &mut CHandle) -> i64
    ensures { Replies coordinator.old.handle.board.places result Act.Awaited
        coordinator.old.handle.value coordinator.new.handle.value }
{
    code_of(coordinator.dispatch(Act::Awaited))
}

/// Returns the least name above this one of a thread that the work waits for, 0 without one.
#[unsafe(no_mangle)]
pub extern "C" fn sp_awaited_after(coordinator: &mut CHandle, name: u64) -> i64
    ensures { Replies coordinator.old.handle.board.places result (Act.AwaitedAfter name)
        coordinator.old.handle.value coordinator.new.handle.value }
{
    code_of(coordinator.dispatch(Act::AwaitedAfter(name)))
}

/// Returns the place of that thread, 0 without one.
#[unsafe(no_mangle)]
pub extern "C" fn sp_awaited_place(coordinator: &mut CHandle, name: u64) -> i64
    ensures { Replies coordinator.old.handle.board.places result (Act.AwaitedPlace name)
        coordinator.old.handle.value coordinator.new.handle.value }
{
    code_of(coordinator.dispatch(Act::AwaitedPlace(name)))
}

/// Does the last step of reclaiming a code. Returns how many activations it has, 0 if it is freed.
#[unsafe(no_mangle)]
pub extern "C" fn sp_reclaim_end(coordinator: &mut CHandle, serial: u64) -> i64
    ensures { Replies coordinator.old.handle.board.places result (Act.Weigh serial)
        coordinator.old.handle.value coordinator.new.handle.value }
{
    code_of(coordinator.dispatch(Act::Weigh(serial)))
}
