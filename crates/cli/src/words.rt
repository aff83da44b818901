// The arguments of the command line.
ghost use Rattle.std.specs.Prelude.{◌≡◌, ◌⊎◌, ℕ, List, Option, map, option_map, drop, slice_get, string_bytes, IfOk, IfErr, IfSome};
ghost use Rattle.cli.specs.declared.fault.Fault.TheVariants.{BadWords, NoMemory};

use crate::fault::Fault;
use std::alloc::Global;
use std::env::{self, Env, FillError};

/// A command line.
pub trait CommandLine {
    // Its words, the program's name first, if they are known.
    ghost words: { Self → Option (List (List ℕ)) };

    /// The word with this number; None after the last. The program's name is number 0.
    fn word(&self, number: usize, alloc: Global) -> Result<Option<String>, Fault>
        ensures word { IfOk result
            (λ word. IfSome (words self.now)
            (λ all. option_map string_bytes word ≡ slice_get all number)) }
        ensures fault { IfErr result (λ fault. (fault ≡ BadWords) ⊎ (fault ≡ NoMemory)) };
}

/// The words after the program's name. The name itself needn't be text.
pub fn read_words<L: CommandLine>(line: &L, alloc: Global) -> Result<Vec<String>, Fault>
    ensures words { IfOk result
        (λ words. IfSome (L.words line.now) (λ all. map string_bytes words.items ≡ drop 1 all)) }
    ensures fault { IfErr result (λ fault. (fault ≡ BadWords) ⊎ (fault ≡ NoMemory)) }
{
    let mut words = Vec::new(alloc);
    for behind in 0..usize::MAX {
        let Some(word) = line.word(behind + 1, alloc)? else {
            return Ok(words);
        };
        if words.push(word).is_err() {
            return Err(Fault::NoMemory);
        }
    }
    Err(Fault::NoMemory)
}

/// The command line of the process. Contracts know nothing of its words.
#[derive(Drop)]
pub struct OfProcess<'a, E> {
    env: &'a E,
}

impl<'a, E: Env> OfProcess<'a, E> {
    pub fn new(env: &'a E) -> OfProcess<'a, E> {
        OfProcess { env }
    }
}

impl<E: Env> CommandLine for OfProcess<'_, E> {
    ghost use Rattle.std.specs.Prelude.{None};

    ghost words = { λ line. None };

    fn word(&self, number: usize, alloc: Global) -> Result<Option<String>, Fault> {
        let env = self.env;
        match env::args(&(One { env, number }, alloc)) {
            Ok(mut words) => Ok(words.next()),
            Err(error) => Err(Fault::of_words(&error)),
        }
    }
}

// One word of the command line, and no variables.
#[derive(Drop)]
struct One<'a, E> {
    env: &'a E,
    number: usize,
}

impl<E: Env> Env for One<'_, E> {
    fn arg(&self, i: usize, buf: &mut [u8]) -> Result<usize, FillError> {
        match i {
            0 => self.env.arg(self.number, buf),
            _ => Err(FillError::NotPresent),
        }
    }

    fn var(&self, _name: &str, _buf: &mut [u8]) -> Result<usize, FillError> {
        Err(FillError::NotPresent)
    }

    fn var_at(&self, _i: usize, _buf: &mut [u8]) -> Result<usize, FillError> {
        Err(FillError::NotPresent)
    }
}
