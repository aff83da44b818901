//! Plain words, to compare with.
use crate::report::report;
use std::io;
use std::sync::atomic::{AtomicU64, Ordering};
use std::time::Instant;

/// Loads a word, and adds up what it finds.
fn loads(word: &AtomicU64, turns: u64) -> u64 {
    let mut sum = 0u64;
    for turn in 0..turns {
        sum = sum.wrapping_add(word.load(Ordering::SeqCst));
    }
    sum
}

/// Compares a word, which is 0, with 1, and counts how often it was 1.
fn exchanges(word: &AtomicU64, turns: u64) -> u64 {
    let mut hits = 0u64;
    for turn in 0..turns {
        if word
            .compare_exchange(1, 0, Ordering::SeqCst, Ordering::SeqCst)
            .is_ok()
        {
            hits = hits.wrapping_add(1);
        }
    }
    hits
}

/// Plain words, to compare with.
pub fn time_words(rt: &HostRuntime, shown: bool, turns: u64) -> io::Result<u64> {
    let word = AtomicU64::new(1);
    let start = Instant::now(rt);
    let sum = loads(&word, turns);
    report(rt, shown, "plain load", start, turns)?;
    let zero = AtomicU64::new(0);
    let start = Instant::now(rt);
    let exchanged = exchanges(&zero, turns);
    let told = "plain compare-exchange of another number";
    report(rt, shown, told, start, turns)?;
    Ok(sum.wrapping_add(exchanged))
}
