//! Recorders of the calls of running threads. Each call has a ticket before it and one after it, its arguments and its answer.
//! A program whose runs are checked makes its calls through a `Stream` for each of its threads, and writes all streams at the end.
//! Read `src/stream.rt` first, then `src/threads.rt` and `specs/Streams.antt`. `call_log` defines the log.
#![tactic(auto)]

mod answers;
mod asking;
mod calls;
mod drives;
mod faults;
mod jobs;
mod ran;
mod recorder;
mod short;
mod starts;
mod steps;
mod stream;
mod threads;
mod writing;

pub use jobs::RecordedJob;
pub use ran::Runner;
pub use recorder::Recorder;
pub use stream::Stream;
pub use writing::{Unwritten, write};
