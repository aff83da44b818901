//! How many frames of each code are on the stacks of some bodies.
ghost use Rattle.std.specs.Prelude.{◌≡◌, ℕ, ◌+◌, ◌*◌, ◌≤◌, [], ◌∷◌, length, IfOk};
ghost use Rattle.frames.specs.Stack.{serial_count};
ghost use Rattle.activation_index.specs.Counts.{count_in, IsRisingFrom};
ghost use Rattle.bodies.specs.Census.{total_count, IsCensus};

use crate::body::Body;
use crate::name::Name;
use activation_index::Index;
use frames::Frame;
use std::alloc::{AllocError, Global};

// Counts the frames of a stack.
fn count_frames(index: &mut Index, frames: &[Frame])
    requires rising { IsRisingFrom 0 index.old.entries }
    requires room { length index.old.entries + length frames.now ≤ index.old.slots }
    requires high { (serial : ℕ) → count_in index.old.entries serial + length frames.now ≤ 16384 }

    ensures slots { index.new.slots ≡ index.old.slots }
    ensures rising { IsRisingFrom 0 index.new.entries }
    ensures taken { length index.new.entries ≤ length index.old.entries + length frames.now }
    ensures counts { (serial : ℕ)
        → count_in index.new.entries serial
        ≡ count_in index.old.entries serial + serial_count serial frames.now }
{
    let mut rest = frames;
    while let Some((frame, others)) = rest.split_first() {
        count_frame(index, *frame);
        rest = others;
    }
}

// Counts a frame, if it has a code.
fn count_frame(index: &mut Index, frame: Frame)
    requires rising { IsRisingFrom 0 index.old.entries }
    requires room { length index.old.entries + 1 ≤ index.old.slots }
    requires high { (serial : ℕ) → count_in index.old.entries serial + 1 ≤ 16384 }

    ensures slots { index.new.slots ≡ index.old.slots }
    ensures rising { IsRisingFrom 0 index.new.entries }
    ensures taken { length index.new.entries ≤ length index.old.entries + 1 }
    ensures counts { (serial : ℕ)
        → count_in index.new.entries serial
        ≡ count_in index.old.entries serial + serial_count serial (frame ∷ []) }
{
    if let Some(code) = frame.code {
        index.add(code.serial, 1);
    }
}

// Counts the frames of the bodies.
fn count_bodies<N: Name>(index: &mut Index, bodies: &[Body<N>])
    requires rising { IsRisingFrom 0 index.old.entries }
    requires room { length index.old.entries + 256 * length bodies.now ≤ index.old.slots }
    requires high { (serial : ℕ)
        → count_in index.old.entries serial + 256 * length bodies.now ≤ 16384 }
    ensures rising { IsRisingFrom 0 index.new.entries }
    ensures counts { (serial : ℕ)
        → count_in index.new.entries serial
        ≡ count_in index.old.entries serial + total_count serial bodies.now }
{
    let mut rest = bodies;
    while let Some((body, others)) = rest.split_first() {
        count_frames(index, body.frames());
        rest = others;
    }
}

/// Makes the census of at most 64 bodies: each serial with its number of frames on all these stacks, serials rising, without zeros.
/// The error is that memory was refused.
pub fn census_of<N: Name>(alloc: Global, bodies: &[Body<N>]) -> Result<Vec<(u64, u32)>, AllocError>
    requires { length bodies.now ≤ 64 }
    ensures { IfOk result (λ list. IsCensus bodies.now list.items) }
{
    let mut index = Index::new(alloc, 256 * bodies.len())?;
    count_bodies(&mut index, bodies);
    let list = index.census(alloc)?;
    Ok(list)
}
