//! The steps of a running system for callers that wait by themselves. `safepoint` offers them to C.
//! Read `src/acts.rt` first, then `src/party.rt` and `specs/Acted.antt`.
//!
//! Each act is one try. If a lock that it needs is taken, or something that it needs isn't there, it returns `Again`.
#![tactic(auto)]

pub mod acts;
mod asking;
mod awaited;
mod coordinating;
mod crosses;
mod crossing;
mod driving;
mod fault_texts;
mod lock_rule;
mod next_targets;
mod pairs;
pub mod party;
mod party_asks;
mod party_coordinates;
mod party_drives;
mod party_runs;
pub mod system;
mod tried_lock;
mod weighed;
