//! Why there are no times.
use std::alloc::AllocError;
use std::io;

/// What went wrong.
#[derive(Clone, Copy, Drop)]
pub enum Wrong {
    NoMemory,
    /// The system gives no thread.
    NoThread,
    /// The clock can't be read.
    NoClock,
    /// A call was refused, or had an answer that isn't measured.
    Answer,
}

impl From<AllocError> for Wrong {
    fn from(_error: AllocError) -> Wrong {
        Wrong::NoMemory
    }
}

impl From<io::Error> for Wrong {
    fn from(_error: io::Error) -> Wrong {
        Wrong::NoClock
    }
}

impl Wrong {
    pub fn text(self) -> &'static str {
        match self {
            Wrong::NoMemory => "no memory",
            Wrong::NoThread => "no thread",
            Wrong::NoClock => "no clock",
            Wrong::Answer => "a wrong answer",
        }
    }
}
