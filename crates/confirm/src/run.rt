//! Reads a log with an order, and writes the lines of that order.
ghost use Rattle.std.specs.Prelude.{◌≡◌};
ghost use Rattle.confirm.specs.Ran.{Ran, FailedCalls};

use crate::fault::Fault;
use crate::input::read_text;
use crate::told::tell;
use replay::device::{Sink, Source};
use replay::stream::flush;
use std::alloc::Global;

/// The result of a run.
#[derive(Clone, Copy, Debug, PartialEq, Eq, Drop)]
pub enum Status {
    /// The lines of the order were written: it explains the log.
    Explained,
    /// The order doesn't explain the log, and nothing was written.
    NotExplained,
}

/// Reads a log with an order, and writes the lines of the order only if the checker finds that it explains the log.
pub fn confirm<R: Source, W: Sink>(
    alloc: Global,
    source: &mut R,
    sink: &mut W,
) -> Result<Status, Fault>
    requires source { R.failures source.old ≡ 0 }
    requires unread { R.reads source.old ≡ 0 }
    requires sink { W.failures sink.old ≡ 0 }
    ensures ran { Ran result (R.left source.old) (R.left source.new) (W.got sink.old)
        (W.got sink.new) }
    ensures failed { FailedCalls result (R.failures source.new) (W.failures sink.new) }
{
    let text = read_text(alloc, source)?;
    match tell(alloc, text.as_slice())? {
        None => Ok(Status::NotExplained),
        Some(lines) => {
            let mut lines = lines;
            match flush(&mut lines, sink) {
                Ok(()) => Ok(Status::Explained),
                Err(_) => Err(Fault::WriteFailed),
            }
        }
    }
}
