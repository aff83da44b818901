//! Tests of the pictures of runs, through the public calls of `run_picture`.
//! `rt ci` runs them. They stand apart, so that a change of a test doesn't prove `run_picture` anew.
//! Read `src/tests.rt` first.
#![tactic(auto)]

#[cfg(test)]
mod tests;
