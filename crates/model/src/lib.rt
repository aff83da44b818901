//! The model, stepped line by line, for programs in C, Rust and other languages that call C.
//! Programs link it, to step the core beside a runtime of their own in tests.
//! Read `include/model.h` first, then `src/face.rt`.
#![tactic(auto)]

pub mod face;
pub mod handle;
pub mod line_model;
mod raw_box;
pub(crate) mod writing;
