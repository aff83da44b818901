//! Tests of `thread_state`, `activation_index`, `frames`, `method_table` and `operations` through their public calls.
//! `rt ci` runs them. They are a crate of their own, so that a changed test doesn't make those five be proved again.
//! Read `src/tests/stacks.rt` first.
#![tactic(auto)]

#[cfg(test)]
mod tests;
