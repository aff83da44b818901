//! The replies to handshakes that are still due.
ghost use Rattle.std.specs.Prelude.{◌≡◌, ◌++◌, map, filter, OnOk};
ghost use Rattle.std.specs.List.{position};
ghost use Rattle.witness_check.specs.Owed.{is_of, may_owe, isnt_of, owed_to, asked_of, paid};

use operations::Request;
use std::alloc::AllocError;
use system::events::Event;

/// A thread's due reply to a handshake.
#[derive(Clone, Copy, Debug, PartialEq, Eq, Drop)]
pub struct Owed {
    pub op: u64,
    pub name: u64,
}

/// The targets of the requested handshake; none for a census and for other events.
fn asked_of(event: &Event) -> &[u64]
    ensures { result.now ≡ asked_of event.now }
{
    match event {
        Event::Ask(Request::Handshake { targets, .. }) => targets.as_slice(),
        _ => &[],
    }
}

/// Makes the replies of the targets to the operation due.
fn owe(owed: &mut Vec<Owed>, op: u64, targets: &[u64]) -> Result<(), AllocError>
    ensures { OnOk result (owed.new.items ≡ owed.old.items ++ map (owed_to op) targets.now) }
{
    for name in targets {
        owed.push(Owed { op, name: *name })?;
    }
    Ok(())
}

/// Notes the request with this number.
pub(crate) fn ask(owed: &mut Vec<Owed>, op: u64, event: &Event) -> Result<(), AllocError>
    ensures { OnOk result (owed.new.items ≡ owed.old.items
        ++ map (owed_to op) (asked_of event.now)) }
{
    owe(owed, op, asked_of(event))
}

/// Notes the Open of the operation, which is for threads up to the newest name.
pub(crate) fn open(owed: &mut Vec<Owed>, op: u64, newest: u64)
    ensures { owed.new.items ≡ filter (may_owe op newest) owed.old.items }
{
    owed.retain(|it| it.op != op || it.name <= newest);
}

/// Notes the Close of the operation.
pub(crate) fn close(owed: &mut Vec<Owed>, op: u64)
    ensures { owed.new.items ≡ filter (isnt_of op) owed.old.items }
{
    owed.retain(|it| it.op != op);
}

/// The position of the thread's oldest due reply.
pub(crate) fn oldest(owed: &[Owed], name: u64) -> Option<usize>
    ensures { result ≡ position (is_of name) owed.now }
{
    owed.iter().position(|it| it.name == name)
}

/// The thread gives its oldest due reply.
pub(crate) fn pay(owed: &mut Vec<Owed>, name: u64)
    ensures { owed.new.items ≡ paid name owed.old.items }
{
    let Some(at) = oldest(owed.as_slice(), name) else {
        return;
    };
    if at < owed.len() {
        owed.remove(at);
    }
}
