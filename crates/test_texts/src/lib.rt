//! What tests write as text: rows of steps, and texts whose parts repeat. And the devices that give and take such text.
//! `test_core`, `test_replay`, `test_run_picture`, `test_script` and `test_cli` use it.
//! Read `src/rows.rt` first.
//!
//! It promises nothing: those tests compare what comes of it.
#![tactic(auto)]

pub mod devices;
pub mod parts;
pub mod rows;
