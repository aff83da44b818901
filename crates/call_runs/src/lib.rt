//! Which events of the core each call of the running layer may make, and with which answers.
//! `witness_check` asks for each event, by `next`.
//! Read `src/runs.rt` first, then the file of the kind of call.
#![tactic(auto)]

mod driving;
mod parts;
pub mod reclaiming;
mod requests;
pub mod runs;
pub mod says;
pub mod stage;
mod thread_calls;
