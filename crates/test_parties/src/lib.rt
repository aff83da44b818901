//! Tests of the acts of parties, written as text: a row is an act of a party and its answer. One runner plays the rows in one thread.
//! `rt ci` runs them. They are a crate of their own: a change of a test proves no other crate anew.
//! Read `src/tests/rows.rt` first, then `src/tests/acts.rt`.
#![tactic(auto)]

#[cfg(test)]
mod tests;
