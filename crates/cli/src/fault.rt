// Why the program ends with an exit status other than 0.
ghost use Rattle.std.specs.Prelude.{◌≡◌, Some};
ghost use Rattle.std.specs.IoError.{error_kind};
ghost use Rattle.cli.specs.declared.fault.Fault.TheVariants as faults;
ghost use Rattle.cli.specs.Faults.{fault_text, status_of, of_words, of_replay, of_script, of_run};

use replay::stream::ReplayFault;
use script::{Place, ScriptFault};
use std::alloc::AllocError;
use std::{fmt, io};
use workers::RunFault;

/// A fault. Faults are found in this order: arguments, file, script, and then those of the run as they occur. `{}` is the text on standard
/// error, after the program's name.
#[derive(Debug, Drop)]
pub enum Fault {
    BadWords,
    /// The file can't be opened, or a read of it failed.
    FileNotRead,
    /// A fault of the script, and its place.
    BadScript(script::Fault, Place),
    ReadFailed,
    WriteFailed,
    NoMemory,
    /// No thread could be made.
    NoThread,
    /// A call of a run was refused, although the calls before it make that impossible. No clause excludes it, since contracts don't know
    /// the state that a lock guards.
    Refused,
}

impl Fault {
    /// The exit status: 2 for bad arguments, 1 for all other faults.
    pub fn status(&self) -> u8
        ensures { result ≡ status_of self.now }
    {
        match self {
            Fault::BadWords => 2,
            Fault::FileNotRead
            | Fault::BadScript(..)
            | Fault::ReadFailed
            | Fault::WriteFailed
            | Fault::NoMemory
            | Fault::NoThread
            | Fault::Refused => 1,
        }
    }

    /// The fault if the arguments can't be read. They are bad if one isn't text.
    pub fn of_words(error: &io::Error) -> Fault
        ensures { result ≡ of_words (error_kind error.now) }
    {
        match error.kind() {
            io::ErrorKind::OutOfMemory => Fault::NoMemory,
            _ => Fault::BadWords,
        }
    }
}

impl fmt::Display for Fault {
    ghost output = { λ fault. Some (fault_text fault) };

    fn fmt<W: fmt::Write>(&self, f: &mut fmt::Formatter<W>) -> fmt::Result {
        let text = match self {
            Fault::BadScript(flaw, place) => return write!(f, "{flaw} at {place}"),
            Fault::BadWords => "bad words",
            Fault::FileNotRead => "file not read",
            Fault::ReadFailed => "read failed",
            Fault::WriteFailed => "write failed",
            Fault::NoMemory => "no memory",
            Fault::NoThread => "no thread",
            Fault::Refused => "refused",
        };
        f.write_str(text)
    }
}

impl From<ReplayFault> for Fault {
    ghost from_gives = { λ fault made. made ≡ of_replay fault };

    fn from(fault: ReplayFault) -> Fault {
        match fault {
            ReplayFault::ReadFailed => Fault::ReadFailed,
            ReplayFault::WriteFailed => Fault::WriteFailed,
            ReplayFault::NoMemory => Fault::NoMemory,
        }
    }
}

impl From<ScriptFault> for Fault {
    ghost from_gives = { λ fault made. made ≡ of_script fault };

    fn from(fault: ScriptFault) -> Fault {
        match fault {
            ScriptFault::Refused { fault, place } => Fault::BadScript(fault, place),
            ScriptFault::NoMemory => Fault::NoMemory,
        }
    }
}

impl From<RunFault> for Fault {
    ghost from_gives = { λ fault made. made ≡ of_run fault };

    fn from(fault: RunFault) -> Fault {
        match fault {
            RunFault::NoMemory => Fault::NoMemory,
            RunFault::NoThread => Fault::NoThread,
            RunFault::Refused => Fault::Refused,
        }
    }
}

impl From<AllocError> for Fault {
    ghost from_gives = { λ error made. made ≡ faults.NoMemory };

    fn from(_error: AllocError) -> Fault {
        Fault::NoMemory
    }
}
