// The grammar of a line.
ghost use Rattle.std.specs.Prelude.{◌≡◌, ◌≢◌, true, None, IfOk, OnErr, option_map, is_some};
ghost use Rattle.replay.specs.Room.{is_handshake};
ghost use Rattle.replay.specs.Words.{words_after};
ghost use Rattle.replay.specs.Grammar.{command_of, of_word, size_of, enter_of, close_of, asking, handshake, alone, of_one, of_two, numbers};

use crate::keywords::{AskWord, Word, ask_of, first_word};
use crate::words::{cut, is_end, last, next, next_number, short_last};
use operations::{Ask, Request, Targets};
use std::alloc::{AllocError, Global};
use system::events::{Act, Event};

/// What a line spells: an event, or the sizes of a new system.
#[derive(Debug, Drop)]
pub enum Command {
    /// Places, slots and methods.
    Size(u64, u64, u64),
    Do(Event),
}

/// The longest line, without its newline.
const LONGEST: usize = 1024;

/// The most names for which room is reserved before any is read. No handshake has more.
const LISTED: usize = 64;

/// The command that the line spells. Only the names of a handshake take memory.
pub fn parse(alloc: Global, line: &[u8]) -> Result<Option<Command>, AllocError>
    ensures command { IfOk result (λ command. command ≡ command_of line.now) }
    ensures no_memory { OnErr result (is_handshake (command_of line.now) ≡ true) }
{
    if line.len() > LONGEST {
        return Ok(None);
    }
    let Some((word, end)) = first_word(line) else {
        return Ok(None);
    };
    let (_, tail) = line.split_at(end);
    match word {
        Word::Ask => asking(alloc, tail),
        word => Ok(plain(word, tail)),
    }
}

/// What a keyword and the words after it spell, where they take no memory.
fn plain(word: Word, tail: &[u8]) -> Option<Command>
    requires { word ≢ Word.Ask }
    ensures { result ≡ of_word word (words_after tail.now) }
{
    match word {
        Word::Size => size(tail),
        Word::Start => alone(Event::Start, tail),
        Word::At(act) => Some(Command::Do(Event::At(short_last(tail)? as usize, act))),
        Word::Enter => enter(tail),
        Word::Install => Some(Command::Do(Event::Install(last(tail)?))),
        Word::Invalidate => Some(Command::Do(Event::Invalidate(last(tail)?))),
        Word::Round => alone(Event::Round, tail),
        Word::Look => look(tail),
        Word::Weigh => Some(Command::Do(Event::Weigh(last(tail)?))),
        Word::Free => Some(Command::Do(Event::Free(last(tail)?))),
        Word::Ask => None,
        Word::Open => alone(Event::Open, tail),
        Word::Tell => Some(Command::Do(Event::Tell(last(tail)?))),
        Word::Operate => alone(Event::Operate, tail),
        Word::Close => close(tail),
        Word::Count => Some(Command::Do(Event::Count(last(tail)?))),
        Word::State => Some(Command::Do(Event::CodeState(last(tail)?))),
        Word::Resolve => Some(Command::Do(Event::Resolve(last(tail)?))),
    }
}

fn alone(event: Event, tail: &[u8]) -> Option<Command>
    ensures { result ≡ alone event (words_after tail.now) }
{
    if is_end(tail) {
        Some(Command::Do(event))
    } else {
        None
    }
}

fn enter(tail: &[u8]) -> Option<Command>
    ensures { result ≡ enter_of (words_after tail.now) }
{
    let (at, tail) = next(tail)?;
    let (method, tail) = next(tail)?;
    if is_end(tail) {
        return Some(Command::Do(Event::At(at as usize, Act::Enter(method, None))));
    }
    let serial = short_last(tail)?;
    Some(Command::Do(Event::At(at as usize, Act::Enter(method, Some(serial)))))
}

fn close(tail: &[u8]) -> Option<Command>
    ensures { result ≡ close_of (words_after tail.now) }
{
    if is_end(tail) {
        return Some(Command::Do(Event::Close(None)));
    }
    let number = last(tail)?;
    Some(Command::Do(Event::Close(Some(number))))
}

fn look(tail: &[u8]) -> Option<Command>
    ensures { result ≡ of_two Event.Look (words_after tail.now) }
{
    let (serial, tail) = next(tail)?;
    Some(Command::Do(Event::Look(serial, short_last(tail)? as usize)))
}

fn size(tail: &[u8]) -> Option<Command>
    ensures { result ≡ size_of (words_after tail.now) }
{
    let (x, tail) = next_number(tail)?;
    let (y, tail) = next_number(tail)?;
    Some(Command::Size(x, y, last(tail)?))
}

/// What the words after `ask` spell.
fn asking(alloc: Global, tail: &[u8]) -> Result<Option<Command>, AllocError>
    ensures command { IfOk result (λ command. command ≡ asking (words_after tail.now)) }
    ensures no_memory { OnErr result (is_handshake (asking (words_after tail.now)) ≡ true) }
{
    if is_end(tail) {
        return Ok(None);
    }
    let (first, tail) = cut(&tail[1..]);
    match ask_of(first) {
        None => Ok(None),
        Some(AskWord::Depth) => handshake(alloc, Ask::Depth, tail),
        Some(AskWord::Top) => handshake(alloc, Ask::Top, tail),
        Some(AskWord::Count) => match next(tail) {
            None => Ok(None),
            Some((serial, tail)) => handshake(alloc, Ask::CountOf(serial), tail),
        },
        Some(AskWord::Census) => Ok(alone(Event::Ask(Request::Census), tail)),
    }
}

fn handshake(alloc: Global, ask: Ask, tail: &[u8]) -> Result<Option<Command>, AllocError>
    ensures command { IfOk result (λ command. command ≡ handshake ask (words_after tail.now)) }
    ensures no_memory { OnErr result (is_handshake (handshake ask (words_after tail.now)) ≡ true) }
{
    match numbers(alloc, tail)? {
        None => Ok(None),
        Some(names) => {
            let targets = Targets::from_vec(names);
            Ok(Some(Command::Do(Event::Ask(Request::Handshake { targets, ask }))))
        }
    }
}

/// All words as numbers. Memory is refused only if every word is a number.
fn numbers(alloc: Global, tail: &[u8]) -> Result<Option<Vec<u64>>, AllocError>
    ensures read { IfOk result
        (λ read. option_map (λ names. names.items) read ≡ numbers (words_after tail.now)) }
    ensures no_memory { OnErr result (is_some (numbers (words_after tail.now)) ≡ true) }
{
    // A name has two bytes at least, with its space.
    let Ok(mut names) = Vec::with_capacity(alloc, (tail.len() / 2).min(LISTED)) else {
        return without_memory(tail);
    };
    let mut rest = tail;
    while !rest.is_empty() {
        match next(rest) {
            None => return Ok(None),
            Some((name, behind)) => {
                if names.push(name).is_err() {
                    return without_memory(behind);
                }
                rest = behind;
            }
        }
    }
    Ok(Some(names))
}

/// The result for words when memory for their numbers is refused: no command if a word isn't a number, and else the refusal.
#[cold]
fn without_memory(tail: &[u8]) -> Result<Option<Vec<u64>>, AllocError>
    ensures bad { IfOk result (λ read. (read ≡ None) × (numbers (words_after tail.now) ≡ None)) }
    ensures no_memory { OnErr result (is_some (numbers (words_after tail.now)) ≡ true) }
{
    if are_numbers(tail) {
        Err(AllocError)
    } else {
        Ok(None)
    }
}

/// Whether all words are numbers.
fn are_numbers(tail: &[u8]) -> bool
    ensures { result ≡ is_some (numbers (words_after tail.now)) }
{
    let mut rest = tail;
    while !rest.is_empty() {
        match next(rest) {
            None => return false,
            Some((_, behind)) => rest = behind,
        }
    }
    true
}
