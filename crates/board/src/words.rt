//! The index of each word. Words that different threads write often are a cache line apart.
ghost use Rattle.std.specs.Prelude.{◌≡◌, ◌<◌, ◌≤◌};
ghost use Rattle.frames.specs.BoardWords.{entry_of, count_of, place_of};
ghost use Rattle.board.specs.Boards.{index_of, words_at};

/// The index of the word with the board's moment.
pub const MOMENT: usize = 8;

/// The index of the word with the slot's entry.
pub fn entry_at(slot: u32) -> usize
    ensures { result ≡ index_of 0 (entry_of slot) }
{
    16 + slot as usize
}

/// The index of the word with the slot's count. At most 1024 slots.
pub fn count_at(slots: usize, slot: u32) -> usize
    requires { slots ≤ 1024 }
    ensures { result ≡ index_of slots (count_of slot) }
{
    24 + slots + 8 * slot as usize
}

/// The index of the word with the place's moment. At most 1024 slots, and the place at most 64.
pub fn place_at(slots: usize, place: usize) -> usize
    requires { (slots ≤ 1024) × (place ≤ 64) }
    ensures { result ≡ index_of slots (place_of place) }
{
    24 + 9 * slots + 8 * place
}

/// How many words a board of so many slots (at most 1024) and places (at most 64) has.
pub fn word_count(slots: usize, places: usize) -> usize
    requires { (slots ≤ 1024) × (places ≤ 64) }
    ensures { result ≡ words_at slots places }
{
    place_at(slots, places)
}
