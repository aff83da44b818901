//! The result of a thread's run of a script.
ghost use Rattle.std.specs.Prelude.{◌≡◌};

use crate::worker::Refused;
use bodies::Name;
use desk::Receipt;
use std::marker::Model;

/// How a thread's run ended.
#[derive(Clone, Copy, PartialEq, Eq, Debug, Drop)]
pub enum Ending {
    /// All marks of the trace are made.
    Finished,
    /// The next mark is a call for which the call stack of the script has no room.
    Overflow,
    /// A mark is left, but no fuel.
    OutOfFuel,
}

/// The report of a thread that has exited: its name, how its run ended or why a mark was refused, how many marks it made, and whether
/// some frame was compiled. It contains the receipt of the thread's Exit.
#[derive(Drop)]
pub struct Report<N: Name> {
    exited: Receipt<N>,
    name: u64,
    ending: Result<Ending, Refused>,
    made: u64,
    compiled: bool,
}

impl<N: Name> Model for Report<N> {
    ghost use Rattle.workers.specs.Ended.{Reported};

    ghost Value = { Reported };

    ghost view = { λ r. record {
      exited = r.exited.entry;
      name = r.name;
      ending = r.ending;
      made = r.made;
      compiled = r.compiled;
    } };
}

impl<N: Name> Report<N> {
    pub(crate) fn new(
        exited: Receipt<N>,
        name: u64,
        ending: Result<Ending, Refused>,
        made: u64,
        compiled: bool,
    ) -> Report<N>
        ensures { result
            ≡ record {
              exited = exited.entry;
              name = name;
              ending = ending;
              made = made;
              compiled = compiled;
            } }
    {
        Report {
            exited,
            name,
            ending,
            made,
            compiled,
        }
    }

    /// The thread's name.
    pub fn name(&self) -> u64
        ensures { result ≡ self.now.name }
    {
        self.name
    }

    /// How the run ended, or why a mark was refused.
    pub fn ending(&self) -> Result<Ending, Refused>
        ensures { result ≡ self.now.ending }
    {
        self.ending
    }

    /// How many marks were made.
    pub fn made(&self) -> u64
        ensures { result ≡ self.now.made }
    {
        self.made
    }

    /// Whether some frame was compiled.
    pub fn compiled(&self) -> bool
        ensures { result ≡ self.now.compiled }
    {
        self.compiled
    }
}
