//! Texts of calls with their answers, and the runner that plays them.
mod calls;
mod counted;
mod lives;
mod reclaiming;
mod requests;
mod rows;
mod runner;
mod shared;
mod states;
mod steps;
mod system;
mod threads;
