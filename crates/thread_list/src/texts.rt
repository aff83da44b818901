//! The texts of faults.

use crate::parts::PartsFault;
use std::error::Error;
use std::fmt;

impl fmt::Display for PartsFault {
    ghost use Rattle.std.specs.Prelude.{Some};
    ghost use Rattle.thread_list.specs.Texts.{parts_fault_text};

    ghost output = { λ fault. Some (parts_fault_text fault) };

    fn fmt<W: fmt::Write>(&self, f: &mut fmt::Formatter<W>) -> fmt::Result {
        match self {
            PartsFault::BadSize => write!(f, "a size is 0, or above its limit"),
            PartsFault::NoMemory => write!(f, "no memory"),
        }
    }
}

impl Error for PartsFault {}
