//! Tests of the desk through its public calls.
//! `rt ci` runs them. They are a crate of their own: a change of a test doesn't prove `desk` anew.
//! Read `src/tests/calls.rt` first.
#![tactic(auto)]

#[cfg(test)]
mod tests;
