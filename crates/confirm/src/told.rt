//! The verdict on a text: a log, the line `order` and an order.
ghost use Rattle.std.specs.Prelude.{◌≡◌, IfOk, IfErr, string_bytes, option_map};
ghost use Rattle.confirm.specs.Orders.{size_line};
ghost use Rattle.confirm.specs.Told.{IsLog, IsLogFault, IsTold, IsFaultOf};

use crate::fault::Fault;
use crate::order::read_order;
use crate::parts::part;
use call_log::log::Log;
use call_log::reading::read;
use std::alloc::{AllocError, Global};
use witness_check::check::check;
use witness_check::streams::all_rise;

/// The line for the sizes of a log.
fn size_line(alloc: Global, log: &Log) -> Result<Vec<u8>, AllocError>
    ensures { IfOk result (λ line. line.items ≡ size_line log.now) }
{
    let line = format!(in alloc; "size {} {} {}\n", log.places, log.slots, log.methods)?;
    Ok(line.into_bytes())
}

/// The log that the text spells.
fn read_log(alloc: Global, text: &[u8]) -> Result<Log, Fault>
    ensures log { IfOk result (IsLog text.now) }
    ensures fault { IfErr result (IsLogFault text.now) }
{
    let log = match read(alloc, text) {
        Ok(log) => log,
        Err(fault) => return Err(Fault::BadLog(fault)),
    };
    if all_rise(alloc, log.calls.as_slice())? {
        Ok(log)
    } else {
        Err(Fault::Tickets)
    }
}

/// The lines of the order that follows the log in the text, if the order explains the log; None if it doesn't.
pub fn tell(alloc: Global, text: &[u8]) -> Result<Option<Vec<u8>>, Fault>
    ensures told { IfOk result
        (λ lines. IsTold text.now (option_map (λ lines. lines.items) lines)) }
    ensures fault { IfErr result (IsFaultOf text.now) }
{
    let Some((before, behind)) = part(text) else {
        return Err(Fault::NoOrder);
    };
    let log = read_log(alloc, before)?;
    let order = read_order(alloc, behind, size_line(alloc, &log)?)?;
    let (events, owners) = (order.events.as_slice(), order.owners.as_slice());
    if check(alloc, &log, events, owners)? {
        Ok(Some(order.lines))
    } else {
        Ok(None)
    }
}
