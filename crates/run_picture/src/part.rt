// Which lines of a run are drawn.
ghost use Rattle.std.specs.Prelude.{◌≡◌};
ghost use Rattle.run_picture.specs.Told.{is_before, is_drawn};

/// The drawn lines, counted from 1: from one line to the one before another, or to the last.
#[derive(Clone, Copy, Drop)]
pub struct Part {
    pub from: u64,
    /// The first line that is no longer drawn; None if all lines from the first on are drawn.
    pub end: Option<u64>,
}

/// All lines.
pub const WHOLE: Part = Part { from: 1, end: None };

/// Whether the line of this number is before the end of the part.
pub fn is_before(line: u64, end: Option<u64>) -> bool
    ensures { result ≡ is_before line end }
{
    match end {
        None => true,
        Some(end) => line < end,
    }
}

/// Whether the line of this number is drawn.
pub fn is_drawn(part: Part, line: u64) -> bool
    ensures { result ≡ is_drawn part line }
{
    part.from <= line && is_before(line, part.end)
}

/// The first line after the drawn ones, in a run with this many lines.
pub fn behind(part: Part, lines: u64) -> u64 {
    let next = lines.saturating_add(1);
    match part.end {
        None => next,
        Some(end) => end.min(next),
    }
}
