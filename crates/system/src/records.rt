// Records of codes that aren't entrant, by slot.
ghost use Rattle.std.specs.Prelude.{◌≡◌, ◌<◌, ◌≤◌, ℕ, true, false, IfOk, IfSome, IfNone, slice_set, slice_index_or, replicate, length};
ghost use Rattle.system.specs.Kept.Records.{new_record, with_look};

use std::alloc::{AllocError, Global};

/// The moment of a code's invalidation, and the places with a `Clear` look.
#[derive(Clone, Copy, Debug, PartialEq, Eq, Drop)]
pub struct Record {
    pub left: u64,
    pub looked: [bool; 64],
}

impl Record {
    /// Makes a record of an invalidation at this moment, without looks.
    pub fn of(left: u64) -> Record
        ensures { result ≡ new_record left }
    {
        Record {
            left,
            looked: [false; 64],
        }
    }

    /// Records a `Clear` look at the place.
    pub fn look(&mut self, place: usize)
        requires { place < 64 }
        ensures { self.new ≡ with_look self.old place }
    {
        self.looked[place] = true;
    }

    /// Returns the least of the first `places` places without a `Clear` look.
    pub fn unlooked(&self, places: usize) -> Option<usize>
        requires { places ≤ 64 }
        ensures some { IfSome result (λ place. (place < places)
            × (slice_index_or self.now.looked place true ≡ false)
            × ((other : ℕ) → other < place → slice_index_or self.now.looked other true ≡ true)) }
        ensures none { IfNone result ((place : ℕ) → place < places
            → slice_index_or self.now.looked place true ≡ true) }
    {
        for place in 0..places {
            if !self.looked[place] {
                return Some(place);
            }
        }
        None
    }
}

/// Makes blank records for this many slots.
pub fn blank_records(alloc: Global, slots: usize) -> Result<Vec<Record>, AllocError>
    ensures { IfOk result (λ records. records.items ≡ replicate slots (new_record 0)) }
{
    let mut records = Vec::with_capacity(alloc, slots)?;
    for _made in 0..slots {
        records.push(Record::of(0))?;
    }
    Ok(records)
}
