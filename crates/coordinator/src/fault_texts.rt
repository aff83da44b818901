//! The texts of the faults of driving.
use crate::faults::DriveFault;
use std::error::Error;
use std::fmt;

impl fmt::Display for DriveFault {
    fn fmt<W: fmt::Write>(&self, f: &mut fmt::Formatter<W>) -> fmt::Result {
        match self {
            DriveFault::QueueEmpty => write!(f, "no request is open or waits"),
            DriveFault::NoMemory => write!(f, "no memory"),
        }
    }
}

impl Error for DriveFault {}
