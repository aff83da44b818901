// The text of each line with its answer, below the lanes; and the stack depths below the bars of threads.
use crate::canvas::Canvas;
use crate::marks::Mark;
use run_lanes::looks::Group;
use std::alloc::{AllocError, Global};

/// The greatest number of letters that is written of a line, and likewise of an answer.
const LETTERS: u64 = 26;

/// The distance between the beginnings of two texts.
const APART: u64 = 10;

// The line and its answer in the title of a mark: the text before the first newline, and the text between that and the second.
fn parts_of(title: &[u8]) -> (&[u8], &[u8]) {
    let Some(end) = title.iter().position(|byte| *byte == b'\n') else {
        return (title, b"");
    };
    match (title.get(..end), title.get(end.saturating_add(1)..)) {
        (Some(line), Some(answer)) => (line, before_newline(answer)),
        _ => (title, b""),
    }
}

fn before_newline(text: &[u8]) -> &[u8] {
    match text.split_last() {
        Some((last, before)) => { if *last == b'\n' { before } else { text } }
        None => text,
    }
}

// The number of letters of an XML text, at most as many as are written, and the position after the last of them.
fn measured(text: &[u8]) -> (u64, usize) {
    let mut letters = 0u64;
    let mut is_named = false;
    for (i, byte) in text.iter().enumerate() {
        if is_named {
            is_named = *byte != b';';
        } else if letters >= LETTERS {
            return (letters, i);
        } else {
            letters = letters.saturating_add(1);
            is_named = *byte == b'&';
        }
    }
    (letters, text.len())
}

fn put_cut(canvas: &mut Canvas, piece: &[u8]) -> Result<(), AllocError> {
    let (_, end) = measured(piece);
    match piece.get(..end) {
        Some(shown) => canvas.text.extend_from_slice(shown)?,
        None => canvas.text.extend_from_slice(piece)?,
    }
    if end < piece.len() {
        canvas.put("..")?;
    }
    Ok(())
}

/// The number of letters of the longest text of a line.
pub fn longest(marks: &[Mark]) -> u64 {
    let mut most = 0u64;
    for mark in marks {
        let (line, answer) = parts_of(&mark.title);
        let (said, _) = measured(line);
        let (answered, _) = measured(answer);
        most = most.max(said.saturating_add(answered).saturating_add(4));
    }
    most
}

fn put_text(canvas: &mut Canvas, mark: &Mark, x: u64, y: u64) -> Result<(), AllocError> {
    let outcome = mark.outcome.class();
    canvas.put_made(format!(in canvas.alloc;
        "<text class='line {outcome}' transform='translate({x} {y}) rotate(60)'>"
    )?)?;
    let (line, answer) = parts_of(&mark.title);
    put_cut(canvas, line)?;
    canvas.put(" <tspan class='answer'>")?;
    put_cut(canvas, answer)?;
    canvas.put("</tspan></text>\n")
}

/// Writes the lines with their answers below their marks, where the text before leaves room.
pub fn put_texts(canvas: &mut Canvas, marks: &[Mark]) -> Result<(), AllocError> {
    let y = canvas.layout.bottom().saturating_add(8);
    let mut free = 0u64;
    for mark in marks {
        let x = canvas.layout.x(mark.line).saturating_sub(3);
        if free <= x {
            put_text(canvas, mark, x, y)?;
            free = x.saturating_add(APART);
        }
    }
    Ok(())
}

// The width of a number.
fn width(number: u32) -> u64 {
    if number < 10 {
        7
    } else if number < 100 {
        12
    } else {
        17
    }
}

/// For each place the position from which the next depth has room.
#[derive(Drop)]
struct Free {
    places: Vec<u64>,
}

impl Free {
    fn new(alloc: Global, places: u64) -> Result<Free, AllocError> {
        let mut all = Vec::new(alloc);
        for _ in 0..places {
            all.push(0u64)?;
        }
        Ok(Free { places: all })
    }

    // Whether there is room for this width from this position on. If so, takes it.
    fn take(&mut self, place: usize, x: u64, width: u64) -> bool {
        match self.places.get_mut(place) {
            Some(free) if *free <= x => {
                *free = x.saturating_add(width);
                true
            }
            _ => false,
        }
    }
}

fn put_depth(canvas: &mut Canvas, mark: &Mark, depth: u32) -> Result<(), AllocError> {
    let x = canvas.layout.x(mark.line).saturating_add(3);
    let y = canvas.layout.y(mark.spot.lane).saturating_add(46);
    canvas.put_made(format!(in canvas.alloc;
        "<text class='depth' x='{x}' y='{y}'>{depth}</text>\n"
    )?)
}

/// Writes the number of frames below the bar of a thread, where a line changes it and there is room.
pub fn put_depths(canvas: &mut Canvas, marks: &[Mark]) -> Result<(), AllocError> {
    let mut free = Free::new(canvas.alloc, canvas.layout.extent.lanes(Group::Places))?;
    for mark in marks {
        if let Some(depth) = mark.spot.depth {
            let x = canvas.layout.x(mark.line);
            if free.take(mark.spot.lane.row, x, width(depth)) {
                put_depth(canvas, mark, depth)?;
            }
        }
    }
    Ok(())
}
