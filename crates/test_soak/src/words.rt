//! The words of the command line.
use crate::plan::{Kind, Plan};
use std::alloc::Global;
use std::env;

/// The run that the words ask for.
#[derive(Clone, Copy, Drop)]
pub enum Form {
    Short,
    Run(Plan),
}

/// Reads the words; None if they are bad.
pub fn read_words(rt: &HostRuntime, alloc: Global) -> Option<Form> {
    let words: Vec<String> = env::args(rt).ok()?.collect(alloc).ok()?;
    match words.as_slice() {
        [_] => Some(Form::Short),
        [_, threads, rounds, seed] => run_of(Kind::Counted, [threads, rounds, seed]),
        [_, threads, rounds, seed, word] => run_of(kind_of(word)?, [threads, rounds, seed]),
        _ => None,
    }
}

fn kind_of(word: &String) -> Option<Kind> {
    match word.as_str() {
        "forget" => Some(Kind::Forgotten),
        "record" => Some(Kind::Recorded),
        _ => None,
    }
}

fn run_of(kind: Kind, numbers: [&String; 3]) -> Option<Form> {
    let [threads, rounds, seed] = numbers;
    let plan = Plan::new(
        kind,
        threads.as_str().parse().ok()?,
        rounds.as_str().parse().ok()?,
        seed.as_str().parse().ok()?,
    )?;
    Some(Form::Run(plan))
}
