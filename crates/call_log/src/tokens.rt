//! A line as tokens: numbers and words.
ghost use Rattle.std.specs.Prelude.{◌≡◌, ◌^◌, ◌<◌, ◌≤◌, ◌==◌, ℕ, map, IfOk, IfSome, length, slice_index_or, option_map};
ghost use Rattle.std.specs.List.{slice_split};
ghost use Rattle.call_log.specs.Tokens.{value, number, token_of, tokens_of, count_from, numbers_from, end_of};
ghost use Rattle.call_log.specs.declared.tokens.Token.TheVariants as Tokens;

use crate::word::Word;
use itoa::Buffer;
use std::alloc::{AllocError, Global};

/// The greatest number of a log.
const GREATEST: u64 = 1_099_511_627_775;

/// The bytes between two spaces.
#[derive(Clone, Copy, Debug, PartialEq, Eq, Drop)]
pub enum Token {
    /// At most 2^40 - 1, in decimal without zeros in front.
    Number(u64),
    Word(Word),
    Other,
}

/// The value of the bytes as digits; None if it is too great.
fn value(bytes: &[u8]) -> Option<u64>
    ensures value { result ≡ value 0 bytes.now }
    ensures small { IfSome result (λ n. n < 2 ^ 40) }
{
    let mut n = 0u64;
    for b in bytes {
        n = n * 10 + (*b).saturating_sub(b'0') as u64;
        if n > GREATEST {
            return None;
        }
    }
    Some(n)
}

/// The number that the bytes spell.
fn number(bytes: &[u8]) -> Option<u64>
    ensures { result ≡ number bytes.now }
{
    let n = value(bytes)?;
    let mut buffer = Buffer::new();
    if bytes == buffer.format(n).as_bytes() {
        Some(n)
    } else {
        None
    }
}

impl Token {
    /// The token that the bytes spell.
    pub fn of(bytes: &[u8]) -> Token
        ensures { result ≡ token_of bytes.now }
    {
        match Word::of(bytes) {
            Some(word) => Token::Word(word),
            None => match number(bytes) {
                Some(n) => Token::Number(n),
                None => Token::Other,
            },
        }
    }
}

/// The parts of a line between spaces, as bytes.
fn parts(alloc: Global, line: &[u8]) -> Result<Vec<&[u8]>, AllocError>
    ensures { IfOk result
        (λ parts. map (λ x. x.now) parts.items ≡ slice_split (λ b. b == 32) line.now) }
{
    line.split(|b| *b == b' ').collect(alloc)
}

/// The tokens of a line.
pub fn tokens(alloc: Global, line: &[u8]) -> Result<Vec<Token>, AllocError>
    ensures { IfOk result (λ tokens. tokens.items ≡ tokens_of line.now) }
{
    let parts = parts(alloc, line)?;
    let mut tokens = Vec::new(alloc);
    for part in &parts {
        tokens.push(Token::of(part))?;
    }
    Ok(tokens)
}

/// The position of the first newline, or the length if there is none.
pub(crate) fn find_end(bytes: &[u8]) -> usize
    ensures at { result ≡ end_of bytes.now }
    ensures bound { result ≤ length bytes.now }
{
    for (i, b) in bytes.iter().enumerate() {
        if *b == b'\n' {
            return i;
        }
    }
    bytes.len()
}

/// The token at this position; `Other` past the end.
pub(crate) fn token_at(tokens: &[Token], at: usize) -> Token
    ensures { result ≡ slice_index_or tokens.now at Tokens.Other }
{
    tokens.get(at).copied().unwrap_or(Token::Other)
}

/// How many tokens at the beginning are numbers.
pub(crate) fn count(tokens: &[Token]) -> usize
    ensures count { result ≡ count_from tokens.now }
    ensures bound { result ≤ length tokens.now }
{
    for (i, token) in tokens.iter().enumerate() {
        match token {
            Token::Number(_) => {}
            _ => return i,
        }
    }
    tokens.len()
}

/// The numbers at the beginning of the tokens.
pub(crate) fn numbers(alloc: Global, tokens: &[Token]) -> Result<Vec<u64>, AllocError>
    ensures { IfOk result (λ numbers. numbers.items ≡ numbers_from tokens.now) }
{
    let mut numbers = Vec::new(alloc);
    for token in tokens {
        match token {
            Token::Number(n) => numbers.push(*n)?,
            _ => return Ok(numbers),
        }
    }
    Ok(numbers)
}
