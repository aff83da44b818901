//! The common base of both coordinators: the bodies of held threads, serving them, arming places, and what the desk says about
//! names and places. `coordinator` uses it with locks, and `coordinator_core` over a room and a desk that are lent to it. Read
//! `src/held.rt` first, then `src/poll_armer.rt` and `specs/Serves.antt`.
//!
//! `HeldBodies` releases a body only into its berth. `PollArmer` arms a place only after the place's berth has what the thread is to find
//! there: a job, or a census's mark. Each call takes the lock of one berth or of the desk at a time, and none while it holds
//! another. `hold_from`, `release_into`, `serve_lent` and the calls of `PollArmer` take no lock.
#![tactic(auto)]

mod arms;
mod fault_texts;
mod faults;
mod finding;
mod held;
mod operating;
mod poll_armer;
mod served;
mod serving;
mod weighing;

pub use faults::{HoldFault, OperateFault, Reclaimed, ReleaseFault, ServeFault, TellFault, Told};
pub use finding::{Found, hold_fault_at, look_up, serve_fault_of, unserved};
pub use held::{HeldBodies, Returning};
pub use operating::operate_over;
pub use poll_armer::PollArmer;
pub use served::{BodyInService, ServeKey, ServeReceipt};
pub use serving::Unserved;
pub use weighing::weigh;
