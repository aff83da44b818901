//! An image's calls, over few codes and many. Each function returns how much was done, so that the compiler keeps all of it.
use crate::report::report;
use crate::stacks::{Stack, calls, climb, publish, rounds};
use frames::image::{DEPTH, Image};
use std::io;
use std::time::Instant;

/// The least serial that is called, and the greatest.
const LEAST: u64 = 1;

const GREATEST: u64 = 1 << 30;

// Times calls of the code with their returns.
fn time_calls<S: Stack>(
    rt: &HostRuntime,
    shown: bool,
    name: &str,
    stack: &mut S,
    serial: u64,
    turns: u64,
) -> io::Result<u64> {
    let start = Instant::now(rt);
    let done = calls(stack, serial, turns);
    report(rt, shown, name, start, turns)?;
    Ok(done)
}

/// Times calls over so many codes on a bare stack, which keeps nothing besides its frames.
pub fn time_bare(rt: &HostRuntime, shown: bool, depth: u64, turns: u64) -> io::Result<u64> {
    let mut frames = Vec::with_capacity(rt.alloc(), DEPTH)?;
    climb(&mut frames, depth);
    let name = "call and return where nothing is kept";
    time_calls(rt, shown, name, &mut frames, LEAST, turns)
}

/// Times calls over so many other codes on an image, first before they are published, then after.
pub fn time_image(rt: &HostRuntime, shown: bool, depth: u64, turns: u64) -> io::Result<u64> {
    let mut image = Image::new(rt.alloc())?;
    climb(&mut image, depth);
    let name = "call and return over uncounted codes, the least";
    let least = time_calls(rt, shown, name, &mut image, LEAST, turns)?;
    let name = "call and return over uncounted codes, the greatest";
    let greatest = time_calls(rt, shown, name, &mut image, GREATEST, turns)?;
    publish(&mut image);
    let name = "call and return over counted codes";
    let counted = time_calls(rt, shown, name, &mut image, LEAST, turns)?;
    Ok(least.wrapping_add(greatest).wrapping_add(counted))
}

/// Times climbs of so many codes and returns from them, with a publication after each.
pub fn time_rounds(rt: &HostRuntime, shown: bool, codes: u64, turns: u64) -> io::Result<u64> {
    let mut image = Image::new(rt.alloc())?;
    let start = Instant::now(rt);
    let sum = rounds(&mut image, codes, turns);
    report(rt, shown, "climb, publish, fall, publish", start, turns)?;
    Ok(sum)
}
