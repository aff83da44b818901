//! The tie between the core and the state that running threads share: the core's world as words and as a desk, its events as steps and
//! entries.
//! Nobody calls this crate at run time: its functions are laws, stated by their contracts.
//! Read `crates/tie/README.md` first, then `specs/Steps.antt` and `specs/DeskOf.antt`.
//!
//! Read as words and views, a world of the core satisfies the rules by which the running tables are proved, and each accepted event
//! changes it by exactly the steps that those rules allow a seat. Read as the state of the desk, it is the state after a legal history,
//! and each accepted event appends exactly its entries.
#![tactic(auto)]

pub mod board_laws;
pub mod board_samples;
pub mod desk_laws;
pub mod desk_samples;
pub mod followed_runs;
pub mod poll_row;
pub mod poll_samples;
pub mod step_laws;
pub mod worked_runs;
