// A run as a picture: the text of SVG.
ghost use Rattle.std.specs.Prelude.{◌≡◌, ◌++◌, ◌∷◌, [], codes, decimal, map, IfOk, OnOk, string_bytes};
ghost use Rattle.run_picture.specs.Drawn.{mark_head, mark_tail, AddsMark, AddsMarks, IsPicture};
ghost use Rattle.run_picture.specs.Runs.{shown_of, shown_by};

use crate::answers::{longest, put_depths, put_texts};
use crate::canvas::Canvas;
use crate::layout::Layout;
use crate::legend::put_head;
use crate::marks::Mark;
use crate::names::put_lives;
use crate::painting::{put_names, put_spans, put_ties};
use crate::run::Run;
use crate::shapes::{Outcome, Shape};
use std::alloc::{AllocError, Global};

// The text before the title of a line's mark.
fn head_of(alloc: Global, line: u64, outcome: Outcome, shape: Shape) -> Result<String, AllocError>
    ensures { IfOk result (λ head. string_bytes head ≡ mark_head line outcome shape) }
{
    let class = outcome.class();
    let name = shape.name();
    format!(in alloc; "<g id='line{line}' class='{class} {name}'><title>")
}

// The text after it.
fn tail_of(alloc: Global, shape: Shape, x: u64, y: u64) -> Result<String, AllocError>
    ensures { IfOk result (λ tail. string_bytes tail ≡ mark_tail shape x y) }
{
    let name = shape.name();
    format!(in alloc; "</title><use href='#{name}' x='{x}' y='{y}'/></g>\n")
}

// The vertical position of a mark. The mark of a Change is on the bar of the publication.
fn height_of(layout: &Layout, mark: &Mark) -> u64 {
    let middle = layout.mark(mark.spot.lane);
    match mark.shape {
        Shape::Change | Shape::NoChange => middle.saturating_add(12),
        _ => middle,
    }
}

// The mark of a line.
fn put_mark(canvas: &mut Canvas, mark: &Mark) -> Result<(), AllocError>
    ensures { OnOk result
        (AddsMark (shown_of mark.now) canvas.old.text.items canvas.new.text.items) }
{
    let head = head_of(canvas.alloc, mark.line, mark.outcome, mark.shape)?;
    let x = canvas.layout.x(mark.line);
    let y = height_of(&canvas.layout, mark);
    let tail = tail_of(canvas.alloc, mark.shape, x, y)?;
    canvas.text.extend_from_slice(head.as_bytes())?;
    canvas.text.extend_from_slice(&mark.title)?;
    canvas.text.extend_from_slice(tail.as_bytes())?;
    Ok(())
}

/// The marks, each with the number of its line.
fn put_marks(canvas: &mut Canvas, marks: &[Mark]) -> Result<(), AllocError>
    ensures { OnOk result
        (AddsMarks (shown_by marks.now) canvas.old.text.items canvas.new.text.items) }
{
    for mark in marks {
        put_mark(canvas, mark)?;
    }
    Ok(())
}

// Everything that is drawn before the marks and lies behind them.
fn put_behind(canvas: &mut Canvas, run: &Run) -> Result<(), AllocError> {
    put_head(canvas, run)?;
    put_spans(canvas, &run.lanes.painted.spans)?;
    put_names(canvas)?;
    put_ties(canvas, &run.marks)?;
    put_lives(canvas, &run.lanes.painted.lives)?;
    put_depths(canvas, &run.marks)?;
    put_texts(canvas, &run.marks)
}

/// The picture of a run.
pub fn draw(alloc: Global, run: &Run) -> Result<Vec<u8>, AllocError>
    ensures { IfOk result (λ text. IsPicture (shown_by run.now.marks.items) text.items) }
{
    let mut canvas = Canvas::new(alloc, Layout::of(run, longest(&run.marks)));
    put_behind(&mut canvas, run)?;
    put_marks(&mut canvas, &run.marks)?;
    canvas.put("</svg>\n")?;
    Ok(canvas.text)
}
