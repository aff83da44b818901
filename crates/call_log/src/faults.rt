//! What is wrong with a line.
ghost use Rattle.std.specs.Prelude.{◌≡◌, drop};
ghost use Rattle.call_log.specs.Faults.{is_number, is_minus, is_question, is_colon, is_semicolon, calls, answers, takes, says};
ghost use Rattle.call_log.specs.Faults.{head_fault, answer_fault, jobs_fault, line_fault};

use crate::arity;
use crate::tokens::{Token, count, token_at};
use crate::word::Word;

/// The fault of a call's line: the first of its parts that isn't well-formed.
#[derive(Clone, Copy, Debug, PartialEq, Eq, Drop)]
pub enum Fault {
    /// The line has no newline.
    Cut,
    /// The line has more than 65,536 bytes.
    Long,
    /// The number of the stream.
    Stream,
    /// The ticket before.
    Before,
    /// The ticket after, or `-`.
    After,
    /// The name of the call.
    Call,
    /// The count of numbers after the name of the call.
    Arguments,
    /// The colon.
    Colon,
    /// The answer. It must be `?` exactly where the ticket after is `-`.
    Answer,
    /// The count of numbers after the answer.
    Values,
    /// The jobs: four numbers each, after a semicolon.
    Jobs,
    /// All parts are there, but the line isn't their exact spelling.
    Spelling,
}

fn is_number(token: Token) -> bool
    ensures { result ≡ is_number token }
{
    match token {
        Token::Number(_) => true,
        _ => false,
    }
}

fn is_minus(token: Token) -> bool
    ensures { result ≡ is_minus token }
{
    match token {
        Token::Word(Word::Minus) => true,
        _ => false,
    }
}

fn is_question(token: Token) -> bool
    ensures { result ≡ is_question token }
{
    match token {
        Token::Word(Word::Question) => true,
        _ => false,
    }
}

fn is_colon(token: Token) -> bool
    ensures { result ≡ is_colon token }
{
    match token {
        Token::Word(Word::Colon) => true,
        _ => false,
    }
}

fn is_semicolon(token: Token) -> bool
    ensures { result ≡ is_semicolon token }
{
    match token {
        Token::Word(Word::Semicolon) => true,
        _ => false,
    }
}

fn calls(token: Token) -> bool
    ensures { result ≡ calls token }
{
    match token {
        Token::Word(word) => arity::is_call(word),
        _ => false,
    }
}

fn answers(token: Token) -> bool
    ensures { result ≡ answers token }
{
    match token {
        Token::Word(word) => arity::is_answer(word),
        _ => false,
    }
}

fn takes(token: Token, count: usize) -> bool
    ensures { result ≡ takes token count }
{
    match token {
        Token::Word(word) => arity::takes(word, count),
        _ => false,
    }
}

fn says(token: Token, count: usize) -> bool
    ensures { result ≡ says token count }
{
    match token {
        Token::Word(word) => arity::says(word, count),
        _ => false,
    }
}

/// The tokens from this position on.
pub(crate) fn behind(tokens: &[Token], at: usize) -> &[Token]
    ensures { result.now ≡ drop at tokens.now }
{
    if at < tokens.len() {
        &tokens[at..]
    } else {
        &tokens[tokens.len()..]
    }
}

/// Faults in the stream, the tickets and the name of the call.
fn head_fault(tokens: &[Token]) -> Option<Fault>
    ensures { result ≡ head_fault tokens.now }
{
    let after = token_at(tokens, 2);
    if !is_number(token_at(tokens, 0)) {
        Some(Fault::Stream)
    } else if !is_number(token_at(tokens, 1)) {
        Some(Fault::Before)
    } else if !(is_number(after) || is_minus(after)) {
        Some(Fault::After)
    } else if !calls(token_at(tokens, 3)) {
        Some(Fault::Call)
    } else {
        None
    }
}

/// Faults from the colon on.
fn answer_fault(tokens: &[Token], colon: usize, answer: Token, values: usize) -> Option<Fault>
    ensures { result ≡ answer_fault tokens.now colon answer values }
{
    if !is_colon(token_at(tokens, colon)) {
        Some(Fault::Colon)
    } else if !answers(answer) || is_question(answer) != is_minus(token_at(tokens, 2)) {
        Some(Fault::Answer)
    } else if !says(answer, values) {
        Some(Fault::Values)
    } else {
        None
    }
}

/// Faults in what follows the answer and its numbers, with this count of numbers after the semicolon.
fn jobs_fault(tokens: &[Token], end: usize, numbers: usize) -> Option<Fault>
    ensures { result ≡ jobs_fault tokens.now end numbers }
{
    let len = tokens.len();
    if len == end {
        return None;
    }
    let marked = is_semicolon(token_at(tokens, end));
    if marked && numbers > 0 && numbers % 4 == 0 && end < len && len - end == numbers + 1 {
        None
    } else {
        Some(Fault::Jobs)
    }
}

/// The first part of a line that isn't well-formed.
pub(crate) fn line_fault(tokens: &[Token]) -> Option<Fault>
    ensures { result ≡ line_fault tokens.now }
{
    if let Some(fault) = head_fault(tokens) {
        return Some(fault);
    }
    let arguments = count(behind(tokens, 4));
    if !takes(token_at(tokens, 3), arguments) {
        return Some(Fault::Arguments);
    }
    let colon = 4 + arguments;
    let values = count(behind(tokens, colon + 2));
    if let Some(fault) = answer_fault(tokens, colon, token_at(tokens, colon + 1), values) {
        return Some(fault);
    }
    let end = colon + 2 + values;
    jobs_fault(tokens, end, count(behind(tokens, end + 1)))
}
