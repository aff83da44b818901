//! Runs of scripts on threads, and the replacing of codes step by step, as texts.
mod expected;
mod outcome;
mod replacing;
mod rows;
mod runs;
mod seen;
mod steps;
mod watch;
