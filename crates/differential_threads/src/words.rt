//! The words of the command line.
use std::alloc::{AllocError, Global};
use std::env::{self, Env};

/// How many seeds are played, the first seed, and whether the tally is printed.
#[derive(Clone, Copy)]
pub struct Words {
    pub seeds: u64,
    pub first: u64,
    pub told: bool,
}

// The gate plays at least twenty schedules to their end: one seed in sixteen may stop early.
const SEEDS: u64 = 21;

const FIRST: u64 = 1;

/// The words aren't numbers, or there are too many.
#[derive(Clone, Copy)]
pub struct BadWords;

/// Reads the words after the program's name.
pub fn read_words<E: Env>(env: &E, alloc: Global) -> Result<Words, BadWords> {
    let Ok(args) = env::args(&(env, alloc)) else {
        return Err(BadWords);
    };
    let words: Vec<String> = match args.collect(alloc) {
        Ok(words) => words,
        Err(_) => return Err(BadWords),
    };
    numbers(words.as_slice())
}

fn numbers(words: &[String]) -> Result<Words, BadWords> {
    match words {
        [_] => Ok(Words {
            seeds: SEEDS,
            first: FIRST,
            told: false,
        }),
        [_, seeds] => Ok(Words {
            seeds: number(seeds)?,
            first: FIRST,
            told: true,
        }),
        [_, seeds, first] => Ok(Words {
            seeds: number(seeds)?,
            first: number(first)?,
            told: true,
        }),
        _ => Err(BadWords),
    }
}

fn number(word: &str) -> Result<u64, BadWords> {
    match word.parse::<u64>() {
        Ok(number) => Ok(number),
        Err(_) => Err(BadWords),
    }
}
