//! The texts of the table's faults.
use crate::table::{FreeFault, InstallFault, InvalidateFault, RetireFault};
use std::error::Error;
use std::fmt;

impl fmt::Display for InstallFault {
    fn fmt<W: fmt::Write>(&self, f: &mut fmt::Formatter<W>) -> fmt::Result {
        f.write_str(match self {
            InstallFault::NoSuchMethod => "there is no such method",
            InstallFault::TableFull => "no slot is free",
            InstallFault::SerialsSpent => "all serials are given out",
            InstallFault::NoMemory => "there is no memory",
        })
    }
}

impl Error for InstallFault {}

impl fmt::Display for InvalidateFault {
    fn fmt<W: fmt::Write>(&self, f: &mut fmt::Formatter<W>) -> fmt::Result {
        f.write_str(match self {
            InvalidateFault::Unknown => "the code is unknown",
            InvalidateFault::NotInUse => "the code is not in use",
        })
    }
}

impl Error for InvalidateFault {}

impl fmt::Display for RetireFault {
    fn fmt<W: fmt::Write>(&self, f: &mut fmt::Formatter<W>) -> fmt::Result {
        f.write_str(match self {
            RetireFault::Unknown => "the code is unknown",
            RetireFault::NotNotEntrant => "the code is in use, or reclaimed already",
        })
    }
}

impl Error for RetireFault {}

impl fmt::Display for FreeFault {
    fn fmt<W: fmt::Write>(&self, f: &mut fmt::Formatter<W>) -> fmt::Result {
        f.write_str(match self {
            FreeFault::Unknown => "the code is unknown",
            FreeFault::NotZombie => "an activation of the code may stand, or it was not weighed",
        })
    }
}

impl Error for FreeFault {}
