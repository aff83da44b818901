//! A call, as a line of a log has it.
ghost use Rattle.std.specs.Prelude.{◌≡◌, IfOk, map};
ghost use Rattle.call_log.specs.Entries.{number_in, after_in, word_in, answer_in, jobs_in, entry_of};

use crate::faults::behind;
use crate::lists::{Job, Jobs, Numbers};
use crate::tokens::{Token, count, numbers, token_at};
use crate::word::Word;
use std::alloc::{AllocError, Global};

/// A call of one stream. Tickets are drawn from one shared counter that only rises.
#[derive(Debug, Drop)]
pub struct Entry {
    /// The number of the stream. Each thread of the machine that writes lines has its own.
    pub stream: u64,
    /// The ticket drawn before the call.
    pub before: u64,
    /// The ticket drawn after the call; None if the call hadn't returned.
    pub after: Option<u64>,
    pub call: Word,
    pub args: Numbers,
    /// None if the call hadn't returned.
    pub answer: Option<Word>,
    pub values: Numbers,
    /// The jobs that ran during the call.
    pub jobs: Jobs,
}

fn number_in(token: Token) -> u64
    ensures { result ≡ number_in token }
{
    match token {
        Token::Number(n) => n,
        _ => 0,
    }
}

fn after_in(token: Token) -> Option<u64>
    ensures { result ≡ after_in token }
{
    match token {
        Token::Number(n) => Some(n),
        _ => None,
    }
}

fn word_in(token: Token) -> Word
    ensures { result ≡ word_in token }
{
    match token {
        Token::Word(word) => word,
        _ => Word::Question,
    }
}

fn answer_in(token: Token) -> Option<Word>
    ensures { result ≡ answer_in token }
{
    match token {
        Token::Word(Word::Question) => None,
        Token::Word(word) => Some(word),
        _ => None,
    }
}

/// Each group of four numbers as a job.
fn jobs_in(alloc: Global, numbers: &[u64]) -> Result<Vec<Job>, AllocError>
    ensures { IfOk result (λ jobs. jobs.items ≡ jobs_in numbers.now) }
{
    let mut jobs = Vec::new(alloc);
    let mut left = numbers;
    while let [op, name, reply, ticket, more @ ..] = left {
        jobs.push(Job {
            op: *op,
            name: *name,
            reply: *reply,
            ticket: *ticket,
        })?;
        left = more;
    }
    Ok(jobs)
}

/// The call that the tokens spell.
pub(crate) fn entry_of(alloc: Global, tokens: &[Token]) -> Result<Entry, AllocError>
    ensures { IfOk result (λ entry. entry ≡ entry_of tokens.now) }
{
    let arguments = behind(tokens, 4);
    let colon = 4 + count(arguments);
    let values = behind(tokens, colon + 2);
    let end = colon + 2 + count(values);
    let of_jobs = numbers(alloc, behind(tokens, end + 1))?;
    Ok(Entry {
        stream: number_in(token_at(tokens, 0)),
        before: number_in(token_at(tokens, 1)),
        after: after_in(token_at(tokens, 2)),
        call: word_in(token_at(tokens, 3)),
        args: Numbers::from_vec(numbers(alloc, arguments)?),
        answer: answer_in(token_at(tokens, colon + 1)),
        values: Numbers::from_vec(numbers(alloc, values)?),
        jobs: Jobs::from_vec(jobs_in(alloc, of_jobs.as_slice())?),
    })
}
