//! Why an order gets no verdict.
ghost use Rattle.std.specs.Prelude.{◌≡◌};
ghost use Rattle.confirm.specs.declared.fault.Fault.TheVariants as faults;

use call_log::faults::Fault as LineFault;
use call_log::reading::ReadFault;
use std::alloc::AllocError;
use std::fmt;

/// A fault. `{}` is the text on standard error after the program's name.
#[derive(Clone, Copy, Debug, PartialEq, Eq, Drop)]
pub enum Fault {
    BadWords,
    ReadFailed,
    /// The input has more than 268,435,456 bytes.
    TooLong,
    /// No line is `order`.
    NoOrder,
    /// The text before that line isn't a log.
    BadLog(ReadFault),
    /// The tickets of a stream don't rise, or a stream has a number above 1023.
    Tickets,
    /// The line of this number after the line `order`, counted from 1, isn't the line of an event.
    BadOrder(u64),
    WriteFailed,
    NoMemory,
}

fn line_fault_text(fault: LineFault) -> &'static str {
    match fault {
        LineFault::Cut => "no newline",
        LineFault::Long => "too long",
        LineFault::Stream => "stream",
        LineFault::Before => "ticket before",
        LineFault::After => "ticket after",
        LineFault::Call => "call",
        LineFault::Arguments => "arguments",
        LineFault::Colon => "colon",
        LineFault::Answer => "answer",
        LineFault::Values => "values",
        LineFault::Jobs => "jobs",
        LineFault::Spelling => "spelling",
    }
}

impl fmt::Display for Fault {
    fn fmt<W: fmt::Write>(&self, f: &mut fmt::Formatter<W>) -> fmt::Result {
        let text = match self {
            Fault::BadWords => "bad words",
            Fault::ReadFailed => "read failed",
            Fault::TooLong => "log too long",
            Fault::NoOrder => "bad order: no line `order`",
            Fault::BadLog(ReadFault::Header) => "bad log: header",
            Fault::BadLog(ReadFault::TooMany) => "bad log: too many calls",
            Fault::BadLog(ReadFault::Line(number, fault)) => {
                let what = line_fault_text(*fault);
                return write!(f, "bad log: line {number}: {what}");
            }
            Fault::Tickets => "bad log: tickets of a stream don't rise",
            Fault::BadOrder(number) => return write!(f, "bad order: line {number}"),
            Fault::WriteFailed => "write failed",
            Fault::NoMemory | Fault::BadLog(ReadFault::NoMemory) => "no memory",
        };
        f.write_str(text)
    }
}

impl From<AllocError> for Fault {
    ghost from_gives = { λ error made. made ≡ faults.NoMemory };

    fn from(_error: AllocError) -> Fault {
        Fault::NoMemory
    }
}
