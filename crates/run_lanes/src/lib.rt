//! What the lanes of a run show: the states of threads, the operations and the codes, line by line.
//! `run_picture` draws these lanes.
//! Read `src/lanes.rt` first, then `specs/Lanes.antt`.
#![tactic(auto)]

mod codes;
pub mod lanes;
pub mod looks;
pub mod painted;
mod requests;
mod rows;
mod served;
pub mod subject;
mod threads;
mod widening;
