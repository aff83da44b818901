//! The texts of the faults of acts.
use crate::acts::Fault;
use std::error::Error;
use std::fmt;

impl fmt::Display for Fault {
    fn fmt<W: fmt::Write>(&self, f: &mut fmt::Formatter<W>) -> fmt::Result {
        match self {
            Fault::Again => f.write_str("what it needs is not there yet"),
            Fault::NoMemory => f.write_str("there is no memory"),
            Fault::NotThis => f.write_str("the party is not in this part"),
            Fault::Illegal => f.write_str("the thread is not in the state for this"),
            Fault::NoSuchMethod => f.write_str("there is no such method"),
            Fault::DepthFull => f.write_str("the stack is full"),
            Fault::EmptyStack => f.write_str("the stack is empty"),
            Fault::StackNotEmpty => f.write_str("the stack is not empty"),
            Fault::Pending => f.write_str("the operation isn't closed yet"),
            Fault::NotAnswered => f.write_str("no answer of the name is kept"),
            Fault::NotWeighed => f.write_str("the code is not one that can be weighed"),
            Fault::Late(place) => write!(f, "the thread at place {place} is late"),
            Fault::Runs => f.write_str("a held thread is served next"),
            Fault::AtSafepoint => f.write_str("all live threads are held at a safepoint"),
            Fault::Awaits => f.write_str("threads have still to come"),
            Fault::Start(fault) => write!(f, "{fault}"),
            Fault::Ask(fault) => write!(f, "{fault}"),
            Fault::Code(fault) => write!(f, "{fault}"),
            Fault::Invalidate(fault) => write!(f, "{fault}"),
            Fault::Open(fault) => write!(f, "{fault}"),
            Fault::Tell(fault) => write!(f, "{fault}"),
            Fault::Hold(fault) => write!(f, "{fault}"),
            Fault::Serve(fault) => write!(f, "{fault}"),
            Fault::Release(fault) => write!(f, "{fault}"),
            Fault::Operate(fault) => write!(f, "{fault}"),
            Fault::Close(fault) => write!(f, "{fault}"),
            Fault::Reclaim(fault) => write!(f, "{fault}"),
        }
    }
}

impl Error for Fault {}
