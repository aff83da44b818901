ghost use Rattle.std.specs.Prelude.{◌≡◌, Some};
ghost use Rattle.script.specs.declared.fault.ScriptFault.TheVariants.{NoMemory};
ghost use Rattle.script.specs.Texts.{fault_name, script_fault_text};

use crate::place::Place;
use std::alloc::{AllocError, AllocFailed};
use std::error::Error;
use std::fmt;

/// What is wrong at one place of a script.
#[derive(Clone, Copy, Debug, PartialEq, Eq)]
pub enum Fault {
    /// The text is longer than [`crate::MAX_BYTES`].
    TooLong,
    /// The text isn't one JSON value.
    NotJson,
    /// The value spells no script, method or item.
    BadShape,
    /// There is no method.
    NoMethods,
    /// There are more than [`crate::MAX_METHODS`] methods.
    TooManyMethods,
    /// There are more than [`crate::MAX_ITEMS`] items.
    TooManyItems,
    /// A call of a method that isn't there.
    BadCall,
    /// A loop of no turn, or of more than [`crate::MAX_TURNS`].
    BadLoop,
    /// A loop inside [`crate::MAX_LEVELS`] loops.
    TooDeep,
}

/// Why a text is no script, or a script can't become code.
#[derive(Debug, Drop)]
pub enum ScriptFault {
    /// The first fault in the order of the document, and where it is.
    Refused { fault: Fault, place: Place },
    /// A growth was refused.
    NoMemory,
}

impl fmt::Display for Fault {
    ghost output = { λ fault. Some (fault_name fault) };

    fn fmt<W: fmt::Write>(&self, f: &mut fmt::Formatter<W>) -> fmt::Result {
        f.write_str(match self {
            Fault::TooLong => "TooLong",
            Fault::NotJson => "NotJson",
            Fault::BadShape => "BadShape",
            Fault::NoMethods => "NoMethods",
            Fault::TooManyMethods => "TooManyMethods",
            Fault::TooManyItems => "TooManyItems",
            Fault::BadCall => "BadCall",
            Fault::BadLoop => "BadLoop",
            Fault::TooDeep => "TooDeep",
        })
    }
}

impl fmt::Display for ScriptFault {
    ghost output = { λ fault. Some (script_fault_text fault) };

    fn fmt<W: fmt::Write>(&self, f: &mut fmt::Formatter<W>) -> fmt::Result {
        match self {
            ScriptFault::Refused { fault, place } => write!(f, "{fault} at {place}"),
            ScriptFault::NoMemory => f.write_str("no memory"),
        }
    }
}

impl Error for ScriptFault {}

impl From<AllocError> for ScriptFault {
    ghost from_gives = { λ _ e. e ≡ NoMemory };

    fn from(_error: AllocError) -> ScriptFault {
        ScriptFault::NoMemory
    }
}

impl<T: Drop> From<AllocFailed<T>> for ScriptFault {
    ghost from_gives = { λ _ e. e ≡ NoMemory };

    fn from(_error: AllocFailed<T>) -> ScriptFault {
        ScriptFault::NoMemory
    }
}
