//! Tests of a script's run on threads: its codes are replaced while the threads run, and the threads run beside each other.
//! `rt ci` runs them. They stand apart, so that a change of a test doesn't prove `workers` anew.
//! Read `src/tests/rows.rt` first, then `src/tests/runs.rt`.
#![tactic(auto)]

#[cfg(test)]
mod tests;
