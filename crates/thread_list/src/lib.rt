//! The threads of a running system: their shared state, and each thread's own part. Threads of a runtime call this crate through
//! `meqzhuly`; `coordinator` and `parties` build on it. Read `src/mutator.rt` first, then `src/shared.rt`, `specs/Moves.antt` and
//! `docs/running/API.md`.
//!
//! A `RunningThread` is a thread without the shared state. Over words that are lent to it, it calls and polls
//! (`src/running_thread.rt`). Over a room or the desk, it crosses (`crossings.rt`), stops in steps (`stops.rt`), starts and ends
//! (`ends.rt`); each of these is one try. `parties` builds its calls from them, for a host that waits by itself. A `Mutator` has
//! a `RunningThread` and the `Shared` at whose locks it waits.
//!
//! A thread that owns itself has its body in hand. It calls methods, returns, polls, publishes and crosses into the VM and back
//! without a lock (`Mutator::call`, `ret`, `back_edge`, `publish`, `to_vm`, `from_vm`), and nobody can hold it. While it doesn't
//! own itself, its body is in its berth (`berths`), where another may take it, publish it and run jobs on it, and put it back.
//!
//! There is one lock for the desk and one for each berth. `Shared::submit`, `install`, `invalidate`, `live`, `replies`, `finish` and
//! `enter_exit` take the desk's, once in each try. `Mutator::to_native`, `from_native`, `block` and `unblock` take the lock of the
//! thread's berth. `Shared::start`, `Mutator::stop` and `exit` take both, one after the other. `Shared::hint` and `peek_counts` read
//! words and take none. No call holds two locks.
#![tactic(auto)]

mod body_state;
mod crossings;
mod ends;
mod faults;
mod forgotten;
mod hints;
mod mutator;
mod parts;
mod polls;
mod running_thread;
mod serving;
mod shared;
mod starts;
mod stops;
mod texts;
mod turns;
mod waits;

pub use ends::{Entered, VacateFault};
pub use faults::{CallFault, ExitFault, ReturnFault};
pub use forgotten::Forgotten;
pub use hints::Hints;
pub use mutator::Mutator;
pub use parts::{MOST_METHODS, MOST_PLACES, MOST_SLOTS, Parts, PartsFault, Pieces};
pub use polls::{Poll, poll_of};
pub use running_thread::RunningThread;
pub use serving::serve;
pub use shared::{Exited, Shared};
pub use turns::Turn;
