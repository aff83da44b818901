//! Tests of a running system through the public calls of `thread_list` and `coordinator`, with running threads.
//! `rt ci` runs them. They are a crate of their own: a change of a test proves neither crate anew.
//! Read `src/tests/beside.rt` first.
#![tactic(auto)]

#[cfg(test)]
mod tests;
