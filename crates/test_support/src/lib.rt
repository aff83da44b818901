//! What the tests of the running layer share.
//! `test_desk`, `test_calls`, `test_running`, `test_parties` and `test_workers` use it.
//! Read `src/rows.rt` first.
//!
//! It promises nothing: those tests compare what it answers. It is one crate, so a change of it proves each of them anew; it changes seldom.
#![tactic(auto)]

pub mod calls;
pub mod jobs;
pub mod rows;
pub mod said;
pub mod threads;
pub mod waits;

pub use jobs::{Asked, Scenario, each, pop_list, with_jobs};
