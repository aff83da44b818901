//! What a thread owns (its name, the image of its stack, and its seats at the code board and at the poll row), and the census of
//! bodies.
//! `berths` keeps bodies, and `thread_list` and `stopped_threads` step them.
//! Read `src/body.rt` first, then `specs/Bodies.antt`.
//!
//! Only a body's own calls change it. The type keeps this: the image counts each code as often as the seat has counted it on the
//! board. No call waits, and only the census and [`Seats::new`] take memory, so a thread can make the other calls between two
//! polls. Whoever holds a body by value is the only one that changes its stack.
#![tactic(auto)]

mod body;
mod census;
mod name;

pub use body::{Body, Called, Seats, SpareSeat};
pub use census::census_of;
pub use name::Name;
