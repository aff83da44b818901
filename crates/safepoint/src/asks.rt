// The calls of any party. `safepoint.h` lists the refusals.
ghost use Rattle.std.specs.Prelude.{◌≡◌, None};
ghost use Rattle.safepoint.specs.Codes.{bad_ask_code};
ghost use Rattle.safepoint.specs.Told.{Replies, Submits, ask_of};

use crate::codes::{BAD_ASK, code_of};
use crate::handle::CHandle;
use operations::Ask;
use parties::acts::Act;

/// Adds the name to the targets of the next request.
#[unsafe(no_mangle)]
pub extern "C" fn sp_target(party: &mut CHandle, name: u64) -> i64
    ensures { Replies party.old.handle.board.places result (Act.Target name) party.old.handle.value
        party.new.handle.value }
{
    code_of(party.dispatch(Act::Target(name)))
}

/// Makes all threads that are live at the submit the targets of the next request.
#[unsafe(no_mangle)]
pub extern "C" fn sp_target_all(party: &mut CHandle) -> i64
    ensures { Replies party.old.handle.board.places result Act.TargetAll party.old.handle.value
        party.new.handle.value }
{
    code_of(party.dispatch(Act::TargetAll))
}

// The ask of this number, with a serial.
fn ask_of(asks: u32, serial: u64) -> Option<Ask>
    ensures { result ≡ ask_of asks serial }
{
    match asks {
        0 => Some(Ask::Depth),
        1 => Some(Ask::CountOf(serial)),
        2 => Some(Ask::Top),
        _ => None,
    }
}

/// Queues a handshake of the targets, and returns its number. It asks for the depth (0), the frames of the serial's
/// code (1), or the top (2).
#[unsafe(no_mangle)]
pub extern "C" fn sp_submit(party: &mut CHandle, asks: u32, serial: u64) -> i64
    ensures { Submits party.old.handle.board.places (ask_of asks serial) bad_ask_code result
        party.old.handle.value party.new.handle.value }
{
    match ask_of(asks, serial) {
        Some(ask) => code_of(party.dispatch(Act::Submit(Some(ask)))),
        None => BAD_ASK,
    }
}

/// Queues a census, and returns its number.
#[unsafe(no_mangle)]
pub extern "C" fn sp_census(party: &mut CHandle) -> i64
    ensures { Replies party.old.handle.board.places result (Act.Submit None) party.old.handle.value
        party.new.handle.value }
{
    code_of(party.dispatch(Act::Submit(None)))
}

/// Does the first step of reclaiming a code. Returns the number of its handshake, 0 without targets.
#[unsafe(no_mangle)]
pub extern "C" fn sp_reclaim_begin(party: &mut CHandle, serial: u64) -> i64
    ensures { Replies party.old.handle.board.places result (Act.Reclaim serial)
        party.old.handle.value party.new.handle.value }
{
    code_of(party.dispatch(Act::Reclaim(serial)))
}

/// Installs a new code for the method, and returns its serial.
#[unsafe(no_mangle)]
pub extern "C" fn sp_install(party: &mut CHandle, method: u32) -> i64
    ensures { Replies party.old.handle.board.places result (Act.Install method)
        party.old.handle.value party.new.handle.value }
{
    code_of(party.dispatch(Act::Install(method)))
}

/// Makes the code not entrant.
#[unsafe(no_mangle)]
pub extern "C" fn sp_invalidate(party: &mut CHandle, serial: u64) -> i64
    ensures { Replies party.old.handle.board.places result (Act.Invalidate serial)
        party.old.handle.value party.new.handle.value }
{
    code_of(party.dispatch(Act::Invalidate(serial)))
}

/// Returns the name's reply in the operation.
#[unsafe(no_mangle)]
pub extern "C" fn sp_reply(party: &mut CHandle, op: u64, name: u64) -> i64
    ensures { Replies party.old.handle.board.places result (Act.Reply op name)
        party.old.handle.value party.new.handle.value }
{
    code_of(party.dispatch(Act::Reply(op, name)))
}

/// Returns the least live name above this one, 0 for none.
#[unsafe(no_mangle)]
pub extern "C" fn sp_live_after(party: &mut CHandle, name: u64) -> i64
    ensures { Replies party.old.handle.board.places result (Act.LiveAfter name)
        party.old.handle.value party.new.handle.value }
{
    code_of(party.dispatch(Act::LiveAfter(name)))
}

/// Returns the kind of the open requests: none (0), handshakes (1), or a census (2).
#[unsafe(no_mangle)]
pub extern "C" fn sp_open_kind(party: &mut CHandle) -> i64
    ensures { Replies party.old.handle.board.places result Act.OpenKind party.old.handle.value
        party.new.handle.value }
{
    code_of(party.dispatch(Act::OpenKind))
}

/// Returns the least number of an open or waiting request, 0 without one.
#[unsafe(no_mangle)]
pub extern "C" fn sp_pending(party: &mut CHandle) -> i64
    ensures { Replies party.old.handle.board.places result Act.Pending party.old.handle.value
        party.new.handle.value }
{
    code_of(party.dispatch(Act::Pending))
}

/// Forgets all entries so far.
#[unsafe(no_mangle)]
pub extern "C" fn sp_forget(party: &mut CHandle) -> i64
    ensures { Replies party.old.handle.board.places result Act.Forget party.old.handle.value
        party.new.handle.value }
{
    code_of(party.dispatch(Act::Forget))
}
