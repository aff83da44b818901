//! Tests of `script` and `interp` through their public calls.
//! `rt ci` runs them. They are a crate of their own, so that a changed test doesn't make either crate be proved again.
//! Read `src/tests/scripts.rt` first.
#![tactic(auto)]

#[cfg(test)]
mod tests;
