//! Writes the streams of a run as a log.
ghost use Rattle.std.specs.Prelude.{◌≡◌, ◌++◌, true, false, OnOk, IfOk, map};
ghost use Rattle.std.specs.List.{flat_map};
ghost use Rattle.call_log.specs.Spelled.{calls_text, header_text};
ghost use Rattle.recorder.specs.Streams.{are_whole, texts};

use crate::stream::Stream;
use call_log::entry::Entry;
use call_log::writing::{put_header, put_line};
use std::alloc::{AllocError, Global};

/// Why there is no log.
#[derive(Clone, Copy, Debug, PartialEq, Eq, Drop)]
pub enum Unwritten {
    /// A stream is lost.
    Lost,
    NoMemory,
}

/// Appends the lines of the calls to the text.
fn put_calls(text: &mut Vec<u8>, calls: &[Entry]) -> Result<(), AllocError>
    ensures { OnOk result (text.new.items ≡ text.old.items ++ calls_text calls.now) }
{
    for call in calls {
        put_line(text, call)?;
        text.push(b'\n')?;
    }
    Ok(())
}

/// Appends the calls of a stream to the text, unless it is lost.
fn put_stream(text: &mut Vec<u8>, stream: &Stream<'_>) -> Result<(), Unwritten>
    ensures { OnOk result ((stream.now.lost ≡ false)
        × (text.new.items ≡ text.old.items ++ calls_text stream.now.calls)) }
{
    if stream.is_lost() {
        return Err(Unwritten::Lost);
    }
    match put_calls(text, stream.calls()) {
        Ok(()) => Ok(()),
        Err(_) => Err(Unwritten::NoMemory),
    }
}

/// Appends the calls of the streams to the text, one stream after the other.
fn put_streams(text: &mut Vec<u8>, streams: &[Stream<'_>]) -> Result<(), Unwritten>
    ensures { OnOk result ((are_whole streams.now ≡ true)
        × (text.new.items ≡ text.old.items ++ texts streams.now)) }
{
    for stream in streams {
        put_stream(text, stream)?;
    }
    Ok(())
}

/// The log of a run of a system with these sizes. Its calls are those of the streams. Fails if a stream is lost.
pub fn write(
    alloc: Global,
    sizes: (u64, u64, u64),
    streams: &[Stream<'_>],
) -> Result<Vec<u8>, Unwritten>
    ensures { IfOk result (λ text. (are_whole streams.now ≡ true)
        × (text.items ≡ header_text true sizes.0 sizes.1 sizes.2 ++ texts streams.now)) }
{
    let mut text = Vec::new(alloc);
    if put_header(&mut text, true, sizes.0, sizes.1, sizes.2).is_err() {
        return Err(Unwritten::NoMemory);
    }
    put_streams(&mut text, streams)?;
    Ok(text)
}
