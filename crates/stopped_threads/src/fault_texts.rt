//! The texts of the faults of the coordinator's calls.
use crate::faults::{HoldFault, OperateFault, ReleaseFault, ServeFault, TellFault};
use std::error::Error;
use std::fmt;

impl fmt::Display for TellFault {
    fn fmt<W: fmt::Write>(&self, f: &mut fmt::Formatter<W>) -> fmt::Result {
        f.write_str(match self {
            TellFault::NothingOpen => "no request is open",
            TellFault::NotOf => "no open request is of the name",
            TellFault::AlreadyTold => "the thread was told all that is open",
        })
    }
}

impl Error for TellFault {}

impl fmt::Display for HoldFault {
    fn fmt<W: fmt::Write>(&self, f: &mut fmt::Formatter<W>) -> fmt::Result {
        f.write_str(match self {
            HoldFault::NoSuchPlace => "there is no such place",
            HoldFault::Vacant => "no live thread has the place",
            HoldFault::NothingOpen => "no request is open",
            HoldFault::NotOf => "no open request is of the thread",
            HoldFault::NotTold => "the thread was told no open request",
            HoldFault::AlreadyDone => "the thread is done with all that it was told",
            HoldFault::Held => "the thread is held",
            HoldFault::NotSafe => "the thread is not at a safe point",
        })
    }
}

impl Error for HoldFault {}

impl fmt::Display for ReleaseFault {
    fn fmt<W: fmt::Write>(&self, f: &mut fmt::Formatter<W>) -> fmt::Result {
        f.write_str(match self {
            ReleaseFault::NoSuchPlace => "there is no such place",
            ReleaseFault::Vacant => "no live thread has the place",
            ReleaseFault::NotHeld => "the thread is not held",
        })
    }
}

impl Error for ReleaseFault {}

impl fmt::Display for ServeFault {
    fn fmt<W: fmt::Write>(&self, f: &mut fmt::Formatter<W>) -> fmt::Result {
        f.write_str(match self {
            ServeFault::NoSuchPlace => "there is no such place",
            ServeFault::Vacant => "no live thread has the place",
            ServeFault::NotHeld => "the thread is not held",
            ServeFault::NothingOpen => "no request is open",
            ServeFault::NotOf => "no open handshake is of the thread",
            ServeFault::NotTold => "the thread was told no open handshake",
            ServeFault::AlreadyDone => "the thread is done with all that it was told",
        })
    }
}

impl Error for ServeFault {}

impl fmt::Display for OperateFault {
    fn fmt<W: fmt::Write>(&self, f: &mut fmt::Formatter<W>) -> fmt::Result {
        f.write_str(match self {
            OperateFault::Refused(desk::OperateFault::NothingOpen) => "no request is open",
            OperateFault::Refused(desk::OperateFault::NotOf) => "no census is open",
            OperateFault::Refused(desk::OperateFault::AlreadyDone) => "the census is operated",
            OperateFault::Refused(desk::OperateFault::NotAllHeld) =>
                "not all live threads are held",
            OperateFault::NoMemory => "no memory",
        })
    }
}

impl Error for OperateFault {}
