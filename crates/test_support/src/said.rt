//! The answers of calls, as text.
use bodies::Called;
use std::alloc::{AllocError, Global};
use std::fmt::Debug;
use thread_list::Poll;

/// The text of an answer.
pub type Said = Result<String, AllocError>;

pub fn word(alloc: Global, text: &str) -> Said {
    String::from_str(alloc, text)
}

pub fn number(alloc: Global, number: u64) -> Said {
    format!(in alloc; "{number}")
}

/// A fault, a state or a list, as `{:?}` prints it.
pub fn shown<T: Debug + Drop>(alloc: Global, it: T) -> Said {
    format!(in alloc; "{it:?}")
}

/// The answer of a call that returns only a receipt, or nothing.
pub fn done<T: Drop, F: Debug + Drop>(alloc: Global, answer: Result<T, F>) -> Said {
    match answer {
        Ok(_receipt) => word(alloc, "ok"),
        Err(fault) => shown(alloc, fault),
    }
}

/// The answer of a call that polls.
pub fn polled<F: Debug + Drop>(alloc: Global, answer: Result<Poll, F>) -> Said {
    match answer {
        Ok(Poll::Go) => word(alloc, "go"),
        Ok(Poll::Stop(number)) => format!(in alloc; "stop {number}"),
        Err(fault) => shown(alloc, fault),
    }
}

/// The answer of a call of a method.
pub fn called<F: Debug + Drop>(alloc: Global, answer: Result<Called, F>) -> Said {
    match answer {
        Ok(Called::Compiled(serial)) => format!(in alloc; "compiled {serial}"),
        Ok(Called::Interpreted) => word(alloc, "interpreted"),
        Err(fault) => shown(alloc, fault),
    }
}

/// The answer of a call that returns a number and the receipt of its entry.
pub fn numbered<T: Drop, F: Debug + Drop>(alloc: Global, answer: Result<(u64, T), F>) -> Said {
    match answer {
        Ok((it, _receipt)) => number(alloc, it),
        Err(fault) => shown(alloc, fault),
    }
}
