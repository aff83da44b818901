//! Tests of a running system, written as text: a row is a call of the library and its answer. One runner plays the rows in one thread.
//! `rt ci` runs them. They are a crate of their own: a change of a test proves no other crate anew.
//! Read `test_support/src/rows.rt` first, then `src/tests/system.rt`.
#![tactic(auto)]

#[cfg(test)]
mod tests;
