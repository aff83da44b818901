//! The checker of an order: whether events of the core, each of one call, explain the recorded calls.
//! Whoever has an order for a log calls `check`.
//! Read `src/check.rt` first, then `specs/Walk.antt`.
#![tactic(auto)]

pub mod check;
pub mod owed;
pub mod seen;
pub mod streams;
pub mod walk;
