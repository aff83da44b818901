//! Texts whose parts repeat, as a row can spell them.
use std::alloc::{AllocError, Global};

/// The text of parts, which have bars between them: `3*vm` is `vm` three times. A part without a number before its star stands for itself.
pub fn text_of(alloc: Global, parts: &str) -> Result<Vec<u8>, AllocError> {
    let mut text = Vec::new(alloc);
    for part in parts.split('|') {
        let (times, piece) = times_of(part);
        for _ in 0..times {
            text.extend_from_slice(piece.as_bytes())?;
        }
    }
    Ok(text)
}

// How often a part has its piece.
fn times_of(part: &str) -> (u64, &str) {
    if let Some((times, piece)) = part.split_once('*')
        && let Ok(times) = times.parse::<u64>()
    {
        return (times, piece);
    }
    (1, part)
}
