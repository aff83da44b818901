// What the command line asks for.
ghost use Rattle.std.specs.Prelude.{◌≡◌, ◌<◌, ◌≤◌, map, option_map, string_bytes, IfSome};
ghost use Rattle.cli.specs.CommandLine.{form_of, form_view, HasThreads, spelled, most_threads};

use itoa::Buffer;

/// What the program must do.
#[derive(Clone, Copy, Debug, PartialEq, Eq, Drop)]
pub enum Form<'a> {
    /// Answer lines.
    Replay,
    /// Check the script in this file.
    Check(&'a str),
    /// Run the script in this file on this many threads, 1 to 64.
    Run(&'a str, usize),
}

const MOST_THREADS: u64 = 64;

const DEFAULT_THREADS: usize = 4;

/// What the arguments after the program's name ask for; None if they are bad.
pub fn read_form(words: &[String]) -> Option<Form<'_>>
    ensures form { option_map form_view result ≡ form_of (map string_bytes words.now) }
    ensures threads { IfSome result HasThreads }
{
    match words {
        [word] => {
            if word.as_str() == "replay" {
                Some(Form::Replay)
            } else {
                None
            }
        }
        [word, file] => {
            if word.as_str() == "check" {
                Some(Form::Check(file.as_str()))
            } else if word.as_str() == "run" {
                Some(Form::Run(file.as_str(), DEFAULT_THREADS))
            } else {
                None
            }
        }
        [word, file, flag, count] => {
            if word.as_str() == "run" && flag.as_str() == "--threads" {
                Some(Form::Run(file.as_str(), thread_count(count)?))
            } else {
                None
            }
        }
        _ => None,
    }
}

// The number of threads that a word spells; None unless it is the usual spelling of an allowed number.
#[tactic(auto, using(crate::proofs::Spellings::spelled_or_below, crate::proofs::Spellings::none_spelled))]
fn thread_count(word: &str) -> Option<usize>
    ensures value { result ≡ spelled most_threads word.now }
    ensures bound { IfSome result (λ n. (0 < n) × (n ≤ most_threads)) }
{
    let mut count = MOST_THREADS;
    while count > 0 {
        let mut buffer = Buffer::new();
        if buffer.format(count) == word {
            return Some(count as usize);
        }
        count -= 1;
    }
    None
}
