// The words of the command line.
ghost use Rattle.std.specs.Prelude.{◌≡◌, ◌<◌, ◌^◌, map, string_bytes, IfSome};
ghost use Rattle.run_picture.specs.Words.{asked_as, asked_of, part_of, between, line_of};

use crate::part::{Part, WHOLE};
use crate::picture::{Asked, Form};
use itoa::Buffer;

/// The greatest line number.
const GREATEST: u64 = 1_099_511_627_775;

/// The request of the words after the program's name; None if they are bad, which they also are if the last line is before the first.
pub fn read_words(words: &[String]) -> Option<Asked>
    ensures { result ≡ asked_of (map string_bytes words.now) }
{
    match words {
        [first, rest @ ..] => {
            if first.as_str() == "--html" {
                shown_as(Form::Page, read_part(rest))
            } else {
                shown_as(Form::Picture, read_part(words))
            }
        }
        _ => shown_as(Form::Picture, read_part(words)),
    }
}

// A part in this form.
fn shown_as(form: Form, part: Option<Part>) -> Option<Asked>
    ensures { result ≡ asked_as form part }
{
    Some(Asked { form, part: part? })
}

// The lines that the words ask for.
fn read_part(words: &[String]) -> Option<Part>
    ensures { result ≡ part_of (map string_bytes words.now) }
{
    match words {
        [] => Some(WHOLE),
        [flag, line] => {
            if flag.as_str() == "--from" {
                Some(Part {
                    from: read_number(line.as_str())?,
                    end: None,
                })
            } else if flag.as_str() == "--to" {
                between(1, read_number(line.as_str())?)
            } else {
                None
            }
        }
        [flag, line, then, last] => {
            if flag.as_str() == "--from" && then.as_str() == "--to" {
                between(read_number(line.as_str())?, read_number(last.as_str())?)
            } else {
                None
            }
        }
        _ => None,
    }
}

// The part from one line to another, which must not be before it.
fn between(first: u64, last: u64) -> Option<Part>
    requires { last < 2 ^ 40 }
    ensures { result ≡ between first last }
{
    if first <= last {
        Some(Part {
            from: first,
            end: Some(last + 1),
        })
    } else {
        None
    }
}

// The number of a line, from 1 on, without a sign and without leading zeros.
fn read_number(word: &str) -> Option<u64>
    ensures value { result ≡ line_of word.now }
    ensures bound { IfSome result (λ n. n < 2 ^ 40) }
{
    let Ok(number) = word.parse::<u64>() else {
        return None;
    };
    let mut buffer = Buffer::new();
    if buffer.format(number) == word && 1 <= number && number <= GREATEST {
        Some(number)
    } else {
        None
    }
}
