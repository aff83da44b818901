//! Tests of `poll`, `board` and `bodies` through public calls, and comparisons of their words with the core.
//! `rt ci` runs them. They are a crate of their own: a change of a test proves none of these crates anew.
//! Read `src/tests/play.rt` first, then `src/tests/beside_core.rt`.
#![tactic(auto)]

#[cfg(test)]
mod tests;
