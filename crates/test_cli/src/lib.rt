//! Tests of the program's forms, through the public calls of `cli`.
//! `rt ci` runs them. They stand apart, so that a change of a test doesn't prove `cli` anew.
//! Read `src/tests.rt` first.
#![tactic(auto)]

#[cfg(test)]
mod tests;
