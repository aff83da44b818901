//! Worked runs: events with the answers to them, computed on the definitions.
//! Nobody calls it at run time: its rows are proved, and `tie` follows some of them.
//! Read `specs/Rows.antt` first, then `specs/Traps.antt`.
#![tactic(auto)]

pub mod rows;
pub mod traps;
