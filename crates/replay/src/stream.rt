// Bytes in, text out.
ghost use Rattle.std.specs.Prelude.{◌≡◌, ◌++◌, ◌∷◌, ◌^◌, ◌<◌, ◌≤◌, [], ℕ, List, Option, None, OnOk, OnErr, IfOk, IfSome, MatchResult, length, take, vec_len, vec_capacity};
ghost use Rattle.std.specs.Io.KnownBytes.{Appends};
ghost use Rattle.system.specs.World.{World};
ghost use Rattle.replay.specs.Known.{AppendsPart, Grows};
ghost use Rattle.system.specs.declared.answers.Answer.TheVariants as answers;
ghost use Rattle.replay.specs.Printed.{answer_text};
ghost use Rattle.replay.specs.Room.{LineTakes};
ghost use Rattle.replay.specs.Streams.{IsPiece, Turned, FedBy, SinkKept, Finished, GaveUp, failed_writes};
ghost use Rattle.replay.specs.Outcome.{Wrote, FailedCalls};
ghost use Rattle.replay.specs.Text.{IsAt, text};

use crate::device::{Failed, Sink, Source};
use crate::engine::{Reply, obey};
use crate::grammar::parse;
use crate::held::Held;
use crate::print::{put_census_line, put_short, put_stack_line};
use crate::words::find_end;
use std::alloc::{AllocError, Global};
use std::error::Error;
use std::fmt;
use std::mem::forget;
use system::System;
use system::answers::{Answer, CountList, FrameList};

/// How many bytes one read asks for. At most so many bytes wait to be written, besides one answer.
const BLOCK: usize = 65_536;

/// The most reads of one call.
const READS: u64 = 1_099_511_627_775;

/// Why not all was read, or not all was answered.
#[derive(Clone, Copy, Debug, PartialEq, Eq, Drop)]
pub enum ReplayFault {
    /// A read failed, or 2^40 - 1 reads didn't reach the end. The whole lines before are answered.
    ReadFailed,
    /// A write failed, or took nothing. A beginning of the text is written.
    WriteFailed,
    /// Memory was refused: at a line that takes memory, and the lines before it are answered; or before anything was read.
    NoMemory,
}

impl fmt::Display for ReplayFault {
    fn fmt<W: fmt::Write>(&self, f: &mut fmt::Formatter<W>) -> fmt::Result {
        f.write_str(match self {
            ReplayFault::ReadFailed => "a read failed",
            ReplayFault::WriteFailed => "a write failed",
            ReplayFault::NoMemory => "there is no memory",
        })
    }
}

impl Error for ReplayFault {}

/// Why lines aren't answered.
#[derive(Clone, Copy, Debug, PartialEq, Eq, Drop)]
pub(crate) enum Halt {
    WriteFailed,
    NoMemory,
}

/// Writes all that waits. A failed call isn't repeated.
pub fn flush<W: Sink>(waits: &mut Vec<u8>, sink: &mut W) -> Result<(), Failed>
    requires { W.failures sink.old ≡ 0 }
    ensures done { OnOk result (Appends (W.got sink.old) (W.got sink.new) waits.old.items
        × (waits.new.items ≡ []) × (W.failures sink.new ≡ 0)) }
    ensures part { OnErr result (AppendsPart (W.got sink.old) (W.got sink.new) waits.old.items
        × (W.failures sink.new ≡ 1)) }
    ensures none_wait { OnOk result (vec_len waits.new ≡ 0) }
    ensures kept { vec_capacity waits.old ≤ vec_capacity waits.new }
{
    let mut at = 0;
    while at < waits.len() {
        at += sink.write(&waits[at..])?;
    }
    waits.clear();
    Ok(())
}

/// Writes all that waits, if that is much.
fn relieve<W: Sink>(waits: &mut Vec<u8>, sink: &mut W) -> Result<(), Failed>
    requires { W.failures sink.old ≡ 0 }

    ensures done { OnOk result
        (Grows (W.got sink.old) waits.old.items (W.got sink.new) waits.new.items []
        × (W.failures sink.new ≡ 0)) }
    ensures little { OnOk result (vec_len waits.new < BLOCK) }
    ensures part { OnErr result (AppendsPart (W.got sink.old) (W.got sink.new) waits.old.items
        × (W.failures sink.new ≡ 1)) }
    ensures few_wait { OnOk result (vec_len waits.new < 2 ^ 16) }
    ensures kept { vec_capacity waits.old ≤ vec_capacity waits.new }
{
    if waits.len() < BLOCK {
        Ok(())
    } else {
        flush(waits, sink)
    }
}

/// Appends the frames of a stack to what waits, once their text is complete.
#[cold]
fn put_stack(text: &mut Vec<u8>, waits: &mut Vec<u8>, frames: FrameList) -> Result<(), AllocError>
    ensures text { OnOk result (waits.new.items
        ≡ waits.old.items ++ (answer_text (answers.Frames frames) ++ 10 ∷ [])) }
    ensures none { OnErr result (waits.new.items ≡ waits.old.items) }
    ensures text_kept { vec_capacity text.old ≤ vec_capacity text.new }
    ensures waits_kept { vec_capacity waits.old ≤ vec_capacity waits.new }
{
    text.clear();
    put_stack_line(text, frames.as_slice())?;
    waits.extend_from_slice(text)
}

/// Appends the counts of a census to what waits, once their text is complete.
#[cold]
fn put_counts(text: &mut Vec<u8>, waits: &mut Vec<u8>, counts: CountList) -> Result<(), AllocError>
    ensures text { OnOk result (waits.new.items
        ≡ waits.old.items ++ (answer_text (answers.Census counts) ++ 10 ∷ [])) }
    ensures none { OnErr result (waits.new.items ≡ waits.old.items) }
    ensures text_kept { vec_capacity text.old ≤ vec_capacity text.new }
    ensures waits_kept { vec_capacity waits.old ≤ vec_capacity waits.new }
{
    text.clear();
    put_census_line(text, counts.as_slice())?;
    waits.extend_from_slice(text)
}

/// Answers a line. It is inlined into the one loop that calls it.
#[inline(always)]
fn turn(
    system: &mut Option<System>,
    text: &mut Vec<u8>,
    waits: &mut Vec<u8>,
    alloc: Global,
    line: &[u8],
) -> Result<(), AllocError>
    requires text_room { 2 ^ 16 ≤ vec_capacity text.old }
    requires waits_room { 2 ^ 17 ≤ vec_capacity waits.old }
    requires few_wait { vec_len waits.old < 2 ^ 16 }

    ensures done { OnOk result
        (Turned system.old line.now waits.old.items waits.new.items system.new) }
    ensures none { OnErr result (waits.new.items ≡ waits.old.items) }
    ensures no_memory { (world : Option World) → IsAt system.old world
        → OnErr result (LineTakes world line.now) }
    ensures text_room { 2 ^ 16 ≤ vec_capacity text.new }
    ensures waits_room { 2 ^ 17 ≤ vec_capacity waits.new }
{
    let command = parse(alloc, line)?;
    let said = obey(system, alloc, command)?;
    if put_short(waits, &said) {
        // The reply owns nothing. Its drop would test that again.
        forget(said);
        return Ok(());
    }
    match said {
        Reply::Answered(Answer::Frames(frames)) => put_stack(text, waits, frames),
        Reply::Answered(Answer::Census(counts)) => put_counts(text, waits, counts),
        _ => unreachable!(),
    }
}

/// Ends the line that was held.
#[inline(always)]
fn end_line(
    system: &mut Option<System>,
    held: &mut Held,
    text: &mut Vec<u8>,
    waits: &mut Vec<u8>,
    alloc: Global,
    piece: &[u8],
) -> Result<(), AllocError>
    requires text_room { 2 ^ 16 ≤ vec_capacity text.old }
    requires waits_room { 2 ^ 17 ≤ vec_capacity waits.old }
    requires few_wait { vec_len waits.old < 2 ^ 16 }

    ensures done { OnOk result (Turned system.old (held.old
        ++ piece.now) waits.old.items waits.new.items system.new) }
    ensures held { OnOk result (held.new ≡ []) }
    ensures none { OnErr result (waits.new.items ≡ waits.old.items) }

    ensures no_memory { (world : Option World) → IsAt system.old world
        → OnErr result (LineTakes world (held.old ++ piece.now)) }
    ensures text_room { 2 ^ 16 ≤ vec_capacity text.new }
    ensures waits_room { 2 ^ 17 ≤ vec_capacity waits.new }
{
    held.join(piece);
    turn(system, text, waits, alloc, held.line(piece))?;
    held.clear();
    Ok(())
}

/// Answers the lines that end in the bytes.
fn feed<W: Sink>(
    system: &mut Option<System>,
    held: &mut Held,
    text: &mut Vec<u8>,
    waits: &mut Vec<u8>,
    sink: &mut W,
    alloc: Global,
    bytes: &[u8],
) -> Result<(), Halt>
    requires fresh { W.failures sink.old ≡ 0 }
    requires text_room { 2 ^ 16 ≤ vec_capacity text.old }
    requires waits_room { 2 ^ 17 ≤ vec_capacity waits.old }
    requires few_wait { vec_len waits.old < 2 ^ 16 }

    ensures failures { MatchResult result (λ _. W.failures sink.new ≡ 0)
        (λ halt. W.failures sink.new ≡ failed_writes halt) }
    ensures fed { FedBy result
        (record { system = system.old; held = held.old; waits = waits.old.items; got = W.got sink.old })
        bytes.now
        (record { system = system.new; held = held.new; waits = waits.new.items; got = W.got sink.new }) }
    ensures quiet { length bytes.now ≡ 1 → SinkKept result (W.got sink.old) (W.got sink.new) }
    ensures text_room { 2 ^ 16 ≤ vec_capacity text.new }
    ensures waits_room { 2 ^ 17 ≤ vec_capacity waits.new }
{
    let mut at = 0;
    while at < bytes.len() {
        let piece = &bytes[at..];
        let n = find_end(piece);
        if n >= piece.len() {
            held.add(piece);
            return Ok(());
        }
        match end_line(system, held, text, waits, alloc, &piece[..n]) {
            Ok(()) => {}
            Err(_) => return Err(Halt::NoMemory),
        }
        at += n + 1;
        match relieve(waits, sink) {
            Ok(()) => {}
            Err(_) => return Err(Halt::WriteFailed),
        }
    }
    Ok(())
}

/// Reads all there is, and answers each line.
///
/// A last line without a newline is a line. A line that spells nothing is answered `bad line`, and the run goes on. What is
/// read and written doesn't change how much memory the call takes. A failed call isn't repeated.
pub fn replay<R: Source, W: Sink>(
    alloc: Global,
    source: &mut R,
    sink: &mut W,
) -> Result<(), ReplayFault>
    requires source { R.failures source.old ≡ 0 }
    requires unread { R.reads source.old ≡ 0 }
    requires sink { W.failures sink.old ≡ 0 }

    ensures text { OnOk result (IfSome (R.left source.old)
        (λ input. Appends (W.got sink.old) (W.got sink.new) (text input))) }
    ensures wrote { Wrote result (R.left source.old) (R.left source.new) (W.got sink.old)
        (W.got sink.new) }
    ensures failed { FailedCalls result (R.reads source.new) (R.failures source.new)
        (W.failures sink.new) }
{
    match buffers(alloc) {
        Ok((block, text, waits)) => answer_all(alloc, source, sink, block, text, waits),
        Err(_) => Err(ReplayFault::NoMemory),
    }
}

fn buffers(alloc: Global) -> Result<(Vec<u8>, Vec<u8>, Vec<u8>), AllocError>
    ensures block { IfOk result (λ all. 0 < vec_len all.0) }
    ensures text { IfOk result (λ all. 2 ^ 16 ≤ vec_capacity all.1) }
    ensures waits { IfOk result
        (λ all. (2 ^ 17 ≤ vec_capacity all.2) × (vec_len all.2 ≡ 0) × (all.2.items ≡ [])) }
{
    let block = vec![in alloc; 0u8; BLOCK]?;
    let text = Vec::with_capacity(alloc, BLOCK)?;
    let waits = Vec::with_capacity(alloc, 2 * BLOCK)?;
    Ok((block, text, waits))
}

/// Answers block after block, through buffers for what is read, for one answer and for what waits to be written.
fn answer_all<R: Source, W: Sink>(
    alloc: Global,
    source: &mut R,
    sink: &mut W,
    mut block: Vec<u8>,
    mut text: Vec<u8>,
    mut waits: Vec<u8>,
) -> Result<(), ReplayFault>
    requires source { R.failures source.old ≡ 0 }
    requires unread { R.reads source.old ≡ 0 }
    requires sink { W.failures sink.old ≡ 0 }
    requires room { 0 < vec_len block }
    requires text_room { 2 ^ 16 ≤ vec_capacity text }
    requires waits_room { 2 ^ 17 ≤ vec_capacity waits }
    requires none_wait { vec_len waits ≡ 0 }
    requires none { waits.items ≡ [] }

    ensures wrote { Wrote result (R.left source.old) (R.left source.new) (W.got sink.old)
        (W.got sink.new) }
    ensures failed { FailedCalls result (R.reads source.new) (R.failures source.new)
        (W.failures sink.new) }
{
    let mut held = Held::new();
    let mut system = None;
    for turn in 0..READS {
        let Ok(n) = source.read(&mut block) else {
            return Err(ReplayFault::ReadFailed);
        };
        if n == 0 {
            return finish(&mut system, &mut held, &mut text, &mut waits, sink, alloc);
        }
        match feed(
            &mut system,
            &mut held,
            &mut text,
            &mut waits,
            sink,
            alloc,
            &block[..n],
        ) {
            Ok(()) => {}
            Err(halt) => return Err(give_up(halt, &mut waits, sink)),
        }
        match flush(&mut waits, sink) {
            Ok(()) => {}
            Err(_) => return Err(ReplayFault::WriteFailed),
        }
    }
    Err(ReplayFault::ReadFailed)
}

/// Returns the fault that stops the call. If memory was refused, it first writes the answers before that event.
fn give_up<W: Sink>(halt: Halt, waits: &mut Vec<u8>, sink: &mut W) -> ReplayFault
    requires { W.failures sink.old ≡ failed_writes halt }
    ensures { GaveUp halt result waits.old.items (W.got sink.old) (W.got sink.new)
        (W.failures sink.new) }
{
    match halt {
        Halt::WriteFailed => ReplayFault::WriteFailed,
        Halt::NoMemory => match flush(waits, sink) {
            Ok(()) => ReplayFault::NoMemory,
            Err(_) => ReplayFault::WriteFailed,
        },
    }
}

/// Answers a last line without a newline like one with a newline, and writes all.
fn finish<W: Sink>(
    system: &mut Option<System>,
    held: &mut Held,
    text: &mut Vec<u8>,
    waits: &mut Vec<u8>,
    sink: &mut W,
    alloc: Global,
) -> Result<(), ReplayFault>
    requires fresh { W.failures sink.old ≡ 0 }
    requires text_room { 2 ^ 16 ≤ vec_capacity text.old }
    requires waits_room { 2 ^ 17 ≤ vec_capacity waits.old }
    requires few_wait { vec_len waits.old < 2 ^ 16 }
    requires none { waits.old.items ≡ [] }
    requires piece { IsPiece held.old }
    requires fits { held.old ≡ take 1025 held.old }

    ensures failed { FailedCalls result 0 0 (W.failures sink.new) }
    ensures finished { Finished result system.old held.old (W.got sink.old) (W.got sink.new) }
{
    if held.is_empty() {
        return Ok(());
    }
    match feed(system, held, text, waits, sink, alloc, b"\n") {
        Ok(()) => {}
        Err(Halt::NoMemory) => return Err(ReplayFault::NoMemory),
        Err(Halt::WriteFailed) => return Err(ReplayFault::WriteFailed),
    }
    match flush(waits, sink) {
        Ok(()) => Ok(()),
        Err(_) => Err(ReplayFault::WriteFailed),
    }
}
