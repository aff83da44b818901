//! The index of each place's word. The words of two places are a cache line of 64 bytes apart, so that polling threads don't
//! disturb one another. The first and the last share no cache line with other memory beside the row.
ghost use Rattle.std.specs.Prelude.{◌≡◌, ◌<◌, ◌≤◌};
ghost use Rattle.poll.specs.Rows as rows;

/// The index of a place's word. The place is below 64.
pub fn word_at(place: usize) -> usize
    requires { place < 64 }
    ensures { result ≡ rows.word_at place }
{
    8 * place + 8
}

/// How many words a row of so many places has. At most 64 places.
pub fn words_of(places: usize) -> usize
    requires { places ≤ 64 }
    ensures { result ≡ rows.words_of places }
{
    8 * places + 8
}
