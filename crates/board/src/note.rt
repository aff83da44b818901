//! What the keeper notes of a slot.
ghost use Rattle.std.specs.Prelude.{◌≡◌, ◌<◌, ◌≤◌, ℕ, true, false};
ghost use Rattle.frames.specs.BoardStep.{is_past};
ghost use Rattle.board.specs.Notes.{note_at, is_noted, IsNotedAfter};

/// The moment in which the slot's code was made not entrant, and the places that were looked at since: one bit for each.
#[derive(Clone, Copy)]
pub struct Note {
    pub left: u64,
    pub looked: u64,
}

/// Whether the moment found at a place shows that the place is covered: the place is vacant, or its stack was published in a moment
/// after the invalidation.
fn is_past(left: u64, found: u64) -> bool
    ensures { result ≡ Rattle.frames.specs.BoardStep.is_past left found }
{
    found == 0 || left < found
}

impl Note {
    /// A note of an invalidation in this moment: no place was looked at yet.
    pub fn at(left: u64) -> Note
        ensures { result ≡ note_at left }
    {
        Note { left, looked: 0 }
    }

    /// The least place that wasn't looked at, 64 if all were.
    pub fn least_unlooked(&self) -> usize
        ensures bound { result ≤ 64 }
        ensures below { (p : ℕ) → p < result → is_noted self.now p ≡ true }
        ensures there { result < 64 → is_noted self.now result ≡ false }
    {
        self.looked.trailing_ones() as usize
    }

    /// Notes the moment found by a load of the place's word. Returns whether the place is covered. The place is below 64.
    pub fn look(&mut self, place: usize, found: u64) -> bool
        requires { place < 64 }
        ensures answer { result ≡ is_past self.old.left found }
        ensures note { IsNotedAfter self.old self.new place found }
    {
        let past = is_past(self.left, found);
        if past {
            self.looked |= 1 << place;
        }
        past
    }
}
