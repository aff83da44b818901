//! How long the steps of a thread take: on shared words, beside a plain atomic load and compare-exchange, and on an image of a stack, beside
//! a bare one.
//! `rt ci` runs a few turns; for times run `bench_steps times`.
//! Read `src/polls.rt` and `src/boards.rt` first, then `src/stacks.rt`.
//!
//! `bench_steps times` prints nanoseconds a turn. Without an argument it makes few turns and prints nothing, since times differ from run to run.
#![tactic(auto)]

ghost use Rattle.std.specs.Prelude.{◌<◌, ◌^◌};

mod boards;
mod images;
mod polls;
mod report;
mod stacks;
mod words;

use boards::{time_keeper, time_seat};
use images::{time_bare, time_image, time_rounds};
use polls::time_row;
use std::io;
use words::time_words;

/// How many turns are timed on words, how many on images, and how many climbs.
const MANY: u64 = 20000000;

const CALLS: u64 = 3000000;

const CLIMBS: u64 = 1000;

/// How many turns there are if no times are shown, on words and on images.
const FEW: u64 = 1000;

const FEWEST: u64 = 10;

fn main(rt: HostRuntime) -> anyhow::Result<()> {
    let shown = std::env::args(&rt)?.count() > 1;
    time_all_words(&rt, shown)?;
    time_all_images(&rt, shown)?;
    Ok(())
}

fn time_all_words(rt: &HostRuntime, shown: bool) -> io::Result<()> {
    let turns = if shown { MANY } else { FEW };
    let found = time_words(rt, shown, turns)?;
    let cleared = time_row(rt, shown, turns)?;
    let hits = time_seat(rt, shown, turns)?;
    let passed = time_keeper(rt, shown, turns)?;
    if shown {
        println!(rt; "{found} found, {cleared} cleared, {hits} in use, {passed} passed or clear")?;
    }
    Ok(())
}

fn time_all_images(rt: &HostRuntime, shown: bool) -> io::Result<()> {
    let turns = if shown { CALLS } else { FEWEST };
    for depth in [0, 15, 254] {
        say(rt, shown, "codes below", depth)?;
        let bare = time_bare(rt, shown, depth, turns)?;
        let kept = time_image(rt, shown, depth, turns)?;
        say(rt, shown, "calls", bare.wrapping_add(kept))?;
    }
    let climbs = if shown { CLIMBS } else { FEWEST };
    for codes in [1, 64, 256] {
        say(rt, shown, "codes", codes)?;
        let sum = time_rounds(rt, shown, codes, climbs)?;
        say(rt, shown, "counted", sum)?;
    }
    Ok(())
}

// Prints a number, if times are shown.
fn say(rt: &HostRuntime, shown: bool, name: &str, number: u64) -> io::Result<()> {
    if shown {
        println!(rt; "{name}: {number}")?;
    }
    Ok(())
}
