//! Runs of lines through `replay`: whole, cut, over failing devices, and with memory refused.
//! `rt ci` runs them. They are a crate of their own, so that a changed test doesn't make `replay` be proved again.
//! Read `src/tests/trap_runs.rt` first.
#![tactic(auto)]

#[cfg(test)]
mod tests;
