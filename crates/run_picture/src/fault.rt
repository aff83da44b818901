// Why the program ends with a status other than 0.
ghost use Rattle.std.specs.Prelude.{◌≡◌, Some};
ghost use Rattle.run_picture.specs.declared.fault.Fault.TheVariants as faults;
ghost use Rattle.run_picture.specs.Faults.{fault_text, status_of};

use replay::stream::ReplayFault;
use std::fmt;

/// A fault. `{}` is the text on standard error after the program's name. The texts and the status are those of `monitor`.
#[derive(Clone, Copy, Drop)]
pub enum Fault {
    BadWords,
    /// Not all was read or written, or memory was refused.
    Failed(ReplayFault),
}

impl Fault {
    /// The exit status: 2 for bad words, 1 for all others.
    pub fn status(&self) -> u8
        ensures { result ≡ status_of self.now }
    {
        match self {
            Fault::BadWords => 2,
            Fault::Failed(_) => 1,
        }
    }
}

impl fmt::Display for Fault {
    ghost output = { λ fault. Some (fault_text fault) };

    fn fmt<W: fmt::Write>(&self, f: &mut fmt::Formatter<W>) -> fmt::Result {
        f.write_str(match self {
            Fault::BadWords => "bad words",
            Fault::Failed(ReplayFault::ReadFailed) => "read failed",
            Fault::Failed(ReplayFault::WriteFailed) => "write failed",
            Fault::Failed(ReplayFault::NoMemory) => "no memory",
        })
    }
}

impl From<ReplayFault> for Fault {
    ghost from_gives = { λ fault made. made ≡ faults.Failed fault };

    fn from(fault: ReplayFault) -> Fault {
        Fault::Failed(fault)
    }
}
