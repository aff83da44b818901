//! How a log is read.
ghost use Rattle.std.specs.List.{All};
ghost use Rattle.std.specs.Prelude.{◌≡◌, ◌++◌, ◌∷◌, false, None, IfOk, IfErr, IfSome, OnOk, MatchOption};
ghost use Rattle.call_log.specs.Spelled.{line_text, calls_text};
ghost use Rattle.call_log.specs.Entries.{entry_of};
ghost use Rattle.call_log.specs.Tokens.{tokens_of};
ghost use Rattle.call_log.specs.Reading.{IsCall, fault_of, IsFaultOf, cut, cut_seen, number_at, is_header, IsHeader, StandsIn, log_text, IsReadFault};

use crate::entry::{Entry, entry_of};
use crate::faults::{Fault, line_fault};
use crate::log::Log;
use crate::tokens::{Token, find_end, token_at, tokens};
use crate::writing::{put_line, put_size};
use std::alloc::{AllocError, Global};

/// The longest line of a call, without its newline.
const LONGEST: usize = 65_536;

/// The greatest number of calls in a log.
const MOST: usize = 1_048_576;

/// Why a text can't be read as a log.
#[derive(Clone, Copy, Debug, PartialEq, Eq, Drop)]
pub enum ReadFault {
    /// The first two lines aren't the header of a log.
    Header,
    /// The line of this number, counted from 1, isn't the line of a call.
    Line(u64, Fault),
    /// The log has more than 1,048,576 calls.
    TooMany,
    /// Memory was refused.
    NoMemory,
}

/// Why a line can't be read.
#[derive(Clone, Copy, Debug, PartialEq, Eq, Drop)]
enum LineFault {
    Bad(Fault),
    NoMemory,
}

/// The call that the line spells.
fn read_line(alloc: Global, line: &[u8]) -> Result<Entry, LineFault>
    ensures entry { IfOk result (λ entry. entry ≡ entry_of (tokens_of line.now)) }
    ensures spelled { IfOk result (λ entry. line.now ≡ line_text entry) }
    ensures clean { OnOk result (fault_of line.now ≡ None) }
    ensures bad { IfErr result (IsFaultOf line.now) }
{
    if line.len() > LONGEST {
        return Err(LineFault::Bad(Fault::Long));
    }
    let Ok(tokens) = tokens(alloc, line) else {
        return Err(LineFault::NoMemory);
    };
    if let Some(fault) = line_fault(tokens.as_slice()) {
        return Err(LineFault::Bad(fault));
    }
    let Ok(entry) = entry_of(alloc, tokens.as_slice()) else {
        return Err(LineFault::NoMemory);
    };
    let mut text = Vec::new(alloc);
    if put_line(&mut text, &entry).is_err() {
        return Err(LineFault::NoMemory);
    }
    if text.as_slice() == line {
        Ok(entry)
    } else {
        Err(LineFault::Bad(Fault::Spelling))
    }
}

/// The first line and the text after its newline; None if there is no newline.
#[tactic(auto, using(crate::proofs::Cuts::cut_plain, crate::proofs::Cuts::cut_mixed, crate::proofs::Cuts::cut_slices))]
fn cut(text: &[u8]) -> Option<(&[u8], &[u8])>
    ensures cut { cut_seen result ≡ cut text.now }
    ensures whole { IfSome result (λ parts. text.now ≡ parts.0.now ++ 10 ∷ parts.1.now) }
{
    let end = find_end(text);
    if end < text.len() {
        Some((&text[..end], &text[end + 1..]))
    } else {
        None
    }
}

/// The calls that the lines of the text spell. The first of these lines is the third of the log.
fn read_calls(alloc: Global, text: &[u8]) -> Result<Vec<Entry>, ReadFault>
    ensures calls { IfOk result (λ calls. text.now ≡ calls_text calls.items) }
    ensures clean { IfOk result (λ calls. All IsCall calls.items) }
    ensures fault { IfErr result (StandsIn text.now) }
{
    let mut calls = Vec::new(alloc);
    let mut rest = text;
    while !rest.is_empty() {
        if calls.len() >= MOST {
            return Err(ReadFault::TooMany);
        }
        let number = calls.len() as u64 + 3;
        let Some((line, behind)) = cut(rest) else {
            return Err(ReadFault::Line(number, Fault::Cut));
        };
        match read_line(alloc, line) {
            Ok(entry) => {
                if calls.push(entry).is_err() {
                    return Err(ReadFault::NoMemory);
                }
            }
            Err(LineFault::Bad(fault)) => return Err(ReadFault::Line(number, fault)),
            Err(LineFault::NoMemory) => return Err(ReadFault::NoMemory),
        }
        rest = behind;
    }
    Ok(calls)
}

fn number_at(tokens: &[Token], at: usize) -> u64
    ensures { result ≡ number_at tokens.now at }
{
    match token_at(tokens, at) {
        Token::Number(n) => n,
        _ => 0,
    }
}

/// The content of the first two lines: whether jobs are recorded, and the sizes.
#[derive(Clone, Copy, Debug, Drop)]
struct Header {
    jobs: bool,
    places: u64,
    slots: u64,
    methods: u64,
}

/// The content of the two lines, or None if they aren't the header of a log.
fn read_header(alloc: Global, first: &[u8], second: &[u8]) -> Result<Option<Header>, AllocError>
    ensures { IfOk result
        (λ header. MatchOption header (is_header first.now second.now
        ≡ false) (IsHeader first.now second.now)) }
{
    let jobs = first == b"witness 1 jobs".as_slice();
    if !jobs && first != b"witness 1".as_slice() {
        return Ok(None);
    }
    let tokens = tokens(alloc, second)?;
    let tokens = tokens.as_slice();
    let header = Header {
        jobs,
        places: number_at(tokens, 1),
        slots: number_at(tokens, 2),
        methods: number_at(tokens, 3),
    };
    let mut text = Vec::new(alloc);
    put_size(&mut text, header.places, header.slots, header.methods)?;
    if text.as_slice() == second {
        Ok(Some(header))
    } else {
        Ok(None)
    }
}

/// Reads a log: a header of two lines, and a line for each call, each with its newline. The result stands for the whole text: the text is
/// exactly the text of this log, and no line of a call has a fault.
pub fn read(alloc: Global, text: &[u8]) -> Result<Log, ReadFault>
    ensures log { IfOk result (λ log. text.now ≡ log_text log) }
    ensures clean { IfOk result (λ log. All IsCall log.calls.items) }
    ensures fault { IfErr result (IsReadFault text.now) }
{
    let Some((first, behind)) = cut(text) else {
        return Err(ReadFault::Header);
    };
    let Some((second, rest)) = cut(behind) else {
        return Err(ReadFault::Header);
    };
    match read_header(alloc, first, second) {
        Err(_) => Err(ReadFault::NoMemory),
        Ok(None) => Err(ReadFault::Header),
        Ok(Some(header)) => match read_calls(alloc, rest) {
            Err(fault) => Err(fault),
            Ok(calls) => Ok(Log {
                jobs: header.jobs,
                places: header.places,
                slots: header.slots,
                methods: header.methods,
                calls,
            }),
        },
    }
}
