//! A row's calls.
ghost use Rattle.std.specs.Prelude.{◌≡◌, ◌<◌, ◌^◌, length, slice_index};

use crate::report::report;
use poll::{Armer, PollRow, Poller};
use std::io;
use std::time::Instant;

/// Loads the place's word, and counts how often it was armed.
fn polls(poller: &mut Poller, row: &PollRow, turns: u64) -> u64
    requires row { poller.old.table ≡ row.now }
    ensures row { poller.new.table ≡ poller.old.table }
{
    let mut armed = 0u64;
    for turn in 0..turns {
        if poller.poll(row) != 0 {
            armed = armed.wrapping_add(1);
        }
    }
    armed
}

/// Compares the place's word, which is 0, with a number, and counts how often it was that number: never.
fn misses(poller: &mut Poller, row: &PollRow, turns: u64) -> u64
    requires row { poller.old.table ≡ row.now }
    ensures row { poller.new.table ≡ poller.old.table }
{
    let mut cleared = 0u64;
    for turn in 0..turns {
        if poller.clear(row, 1) {
            cleared = cleared.wrapping_add(1);
        }
    }
    cleared
}

/// Arms place 0 with a number and clears it, and counts the numbers that were cleared.
fn arms(armer: &mut Armer, poller: &mut Poller, row: &PollRow, turns: u64) -> u64
    requires row { armer.old.table ≡ row.now }
    requires its_row { poller.old.table ≡ row.now }
    requires place { 0 < length armer.old.seen.armed }
    requires unarmed { slice_index armer.old.seen.armed 0 ≡ 0 }
    requires turns { turns < 2 ^ 32 }
{
    let mut cleared = 0u64;
    for turn in 0..turns {
        armer.arm(row, 0, turn + 1);
        if poller.clear(row, turn + 1) {
            cleared = cleared.wrapping_add(1);
        }
    }
    cleared
}

/// The calls on a row of poll words.
pub fn time_row(rt: &HostRuntime, shown: bool, turns: u64) -> io::Result<u64>
    requires { turns < 2 ^ 32 }
{
    let (row, mut armer, mut pollers) = PollRow::new(rt.alloc(), 4)?;
    let mut poller = pollers.swap_remove(0);
    let start = Instant::now(rt);
    let armed = polls(&mut poller, &row, turns);
    report(rt, shown, "poll", start, turns)?;
    let start = Instant::now(rt);
    let cleared = misses(&mut poller, &row, turns);
    report(rt, shown, "clear of another number", start, turns)?;
    let start = Instant::now(rt);
    let both = arms(&mut armer, &mut poller, &row, turns);
    report(rt, shown, "arm and clear, 2 steps", start, turns)?;
    Ok(armed.wrapping_add(cleared).wrapping_add(both))
}
