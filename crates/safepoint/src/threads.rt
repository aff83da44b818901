// The calls of a thread. `safepoint.h` lists the refusals. A call that polls returns the poll's number, 0 to continue.
ghost use Rattle.std.specs.Prelude.{◌≡◌};
ghost use Rattle.safepoint.specs.Told.{Replies};

use crate::codes::{code_of, code_of_poll, code_of_step};
use crate::handle::CHandle;
use parties::acts::Act;

/// Makes the party a thread, and returns its name.
#[unsafe(no_mangle)]
pub extern "C" fn sp_start(thread: &mut CHandle) -> i64
    ensures { Replies thread.old.handle.board.places result Act.Start thread.old.handle.value
        thread.new.handle.value }
{
    code_of(thread.dispatch(Act::Start))
}

/// Ends the thread, or polls if an operation is pending for it.
#[unsafe(no_mangle)]
pub extern "C" fn sp_exit(thread: &mut CHandle) -> i64
    ensures { Replies thread.old.handle.board.places result Act.Exit thread.old.handle.value
        thread.new.handle.value }
{
    code_of(thread.dispatch(Act::Exit))
}

/// Returns the thread's name.
#[unsafe(no_mangle)]
pub extern "C" fn sp_name(thread: &mut CHandle) -> i64
    ensures { Replies thread.old.handle.board.places result Act.Name thread.old.handle.value
        thread.new.handle.value }
{
    code_of(thread.dispatch(Act::Name))
}

/// Returns the thread's place.
#[unsafe(no_mangle)]
pub extern "C" fn sp_place(thread: &mut CHandle) -> i64
    ensures { Replies thread.old.handle.board.places result Act.Place thread.old.handle.value
        thread.new.handle.value }
{
    code_of(thread.dispatch(Act::Place))
}

/// Returns the thread's state, as a number.
#[unsafe(no_mangle)]
pub extern "C" fn sp_state(thread: &mut CHandle) -> i64
    ensures { Replies thread.old.handle.board.places result Act.State thread.old.handle.value
        thread.new.handle.value }
{
    code_of(thread.dispatch(Act::State))
}

/// Returns how many frames the thread's stack has.
#[unsafe(no_mangle)]
pub extern "C" fn sp_depth(thread: &mut CHandle) -> i64
    ensures { Replies thread.old.handle.board.places result Act.Depth thread.old.handle.value
        thread.new.handle.value }
{
    code_of(thread.dispatch(Act::Depth))
}

/// Enters a method, and returns the serial of its code, 0 if it is interpreted.
#[unsafe(no_mangle)]
pub extern "C" fn sp_call(thread: &mut CHandle, method: u32) -> i64
    ensures { Replies thread.old.handle.board.places result (Act.Call method)
        thread.old.handle.value thread.new.handle.value }
{
    code_of_step(thread.dispatch(Act::Call(method)))
}

/// Leaves the top method and polls.
#[unsafe(no_mangle)]
pub extern "C" fn sp_ret(thread: &mut CHandle) -> i64
    ensures { Replies thread.old.handle.board.places result Act.Ret thread.old.handle.value
        thread.new.handle.value }
{
    code_of_poll(thread.dispatch(Act::Ret))
}

/// Polls.
#[unsafe(no_mangle)]
pub extern "C" fn sp_back_edge(thread: &mut CHandle) -> i64
    ensures { Replies thread.old.handle.board.places result Act.BackEdge thread.old.handle.value
        thread.new.handle.value }
{
    code_of_poll(thread.dispatch(Act::BackEdge))
}

/// Publishes the stack.
#[unsafe(no_mangle)]
pub extern "C" fn sp_publish(thread: &mut CHandle) -> i64
    ensures { Replies thread.old.handle.board.places result Act.Publish thread.old.handle.value
        thread.new.handle.value }
{
    code_of_step(thread.dispatch(Act::Publish))
}

/// Goes into the VM.
#[unsafe(no_mangle)]
pub extern "C" fn sp_to_vm(thread: &mut CHandle) -> i64
    ensures { Replies thread.old.handle.board.places result Act.ToVm thread.old.handle.value
        thread.new.handle.value }
{
    code_of_step(thread.dispatch(Act::ToVm))
}

/// Comes out of the VM and polls.
#[unsafe(no_mangle)]
pub extern "C" fn sp_from_vm(thread: &mut CHandle) -> i64
    ensures { Replies thread.old.handle.board.places result Act.FromVm thread.old.handle.value
        thread.new.handle.value }
{
    code_of_poll(thread.dispatch(Act::FromVm))
}

/// Goes into native code.
#[unsafe(no_mangle)]
pub extern "C" fn sp_to_native(thread: &mut CHandle) -> i64
    ensures { Replies thread.old.handle.board.places result Act.ToNative thread.old.handle.value
        thread.new.handle.value }
{
    code_of_step(thread.dispatch(Act::ToNative))
}

/// Comes back from native code and polls.
#[unsafe(no_mangle)]
pub extern "C" fn sp_from_native(thread: &mut CHandle) -> i64
    ensures { Replies thread.old.handle.board.places result Act.FromNative thread.old.handle.value
        thread.new.handle.value }
{
    code_of_poll(thread.dispatch(Act::FromNative))
}

/// Goes from the VM into a wait.
#[unsafe(no_mangle)]
pub extern "C" fn sp_block(thread: &mut CHandle) -> i64
    ensures { Replies thread.old.handle.board.places result Act.Block thread.old.handle.value
        thread.new.handle.value }
{
    code_of_step(thread.dispatch(Act::Block))
}

/// Comes back from a wait and polls.
#[unsafe(no_mangle)]
pub extern "C" fn sp_unblock(thread: &mut CHandle) -> i64
    ensures { Replies thread.old.handle.board.places result Act.Unblock thread.old.handle.value
        thread.new.handle.value }
{
    code_of_poll(thread.dispatch(Act::Unblock))
}

/// Continues after a poll that stopped, and returns the operation to serve, 0 if the thread continues.
#[unsafe(no_mangle)]
pub extern "C" fn sp_stop_next(thread: &mut CHandle) -> i64
    ensures { Replies thread.old.handle.board.places result Act.StopNext thread.old.handle.value
        thread.new.handle.value }
{
    code_of(thread.dispatch(Act::StopNext))
}

/// Reports that the operation is served, and polls.
#[unsafe(no_mangle)]
pub extern "C" fn sp_stop_serve(thread: &mut CHandle) -> i64
    ensures { Replies thread.old.handle.board.places result Act.StopServe thread.old.handle.value
        thread.new.handle.value }
{
    code_of(thread.dispatch(Act::StopServe))
}
