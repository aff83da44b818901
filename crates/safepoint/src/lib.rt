//! The functions of a running system for C. Runtimes in C, C++ and Rust link them, with the C files of `waits/`.
//! Read `crates/safepoint/README.md` and `include/safepoint.h` first, then `src/threads.rt`.
#![tactic(auto)]

pub mod asks;
mod codes;
pub mod coordinators;
pub mod handle;
mod raw_box;
pub mod systems;
pub mod threads;
