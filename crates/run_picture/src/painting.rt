// The spans, the names of lanes and the thin lines between lanes, as SVG text.
use crate::canvas::Canvas;
use crate::layout::{LEFT, PANEL, TOP, lane};
use crate::marks::Mark;
use run_lanes::looks::{Group, Lane, Paint};
use run_lanes::painted::Span;
use std::alloc::AllocError;

// The distance of a span from the top of its lane, and its height.
fn band(group: Group, paint: Paint) -> (u64, u64) {
    match (group, paint) {
        (_, Paint::Held) => (11, 4),
        (_, Paint::Publishing) => (31, 6),
        (Group::Places, _) => (15, 15),
        _ => (12, 12),
    }
}

// A bar from the mark of a line to the line that ends it.
fn put_span(canvas: &mut Canvas, span: &Span) -> Result<(), AllocError> {
    if span.to <= span.from {
        return Ok(());
    }
    let layout = canvas.layout;
    let (down, height) = band(span.lane.group, span.paint);
    let x = layout.x(span.from);
    let y = layout.y(span.lane).saturating_add(down);
    let width = layout.end(span.to).saturating_sub(x);
    let class = span.paint.class();
    canvas.put_made(format!(in canvas.alloc;
        "<rect class='{class}' x='{x}' y='{y}' width='{width}' height='{height}'/>\n"
    )?)
}

/// Draws the spans of the lanes in their colours.
pub fn put_spans(canvas: &mut Canvas, spans: &[Span]) -> Result<(), AllocError> {
    for span in spans {
        put_span(canvas, span)?;
    }
    Ok(())
}

// A thin line from a mark to another lane.
fn put_tie(canvas: &mut Canvas, mark: &Mark, to: Lane) -> Result<(), AllocError> {
    let x = canvas.layout.x(mark.line);
    let y = canvas.layout.mark(mark.spot.lane);
    let end = canvas.layout.mark(to);
    canvas.put_made(format!(in canvas.alloc; "<path class='tie' d='M{x} {y}V{end}'/>\n")?)
}

/// Draws the thin lines from marks to other lanes.
pub fn put_ties(canvas: &mut Canvas, marks: &[Mark]) -> Result<(), AllocError> {
    for mark in marks {
        if let Some(to) = mark.spot.tie {
            put_tie(canvas, mark, to)?;
        }
    }
    Ok(())
}

// Writes the name of a lane at the left of a panel. Operations and codes have their names on their lanes, and the name of their group here
// once.
fn put_name(canvas: &mut Canvas, lane: Lane, left: u64) -> Result<(), AllocError> {
    let row = lane.row;
    let x = left.saturating_add(8);
    let y = canvas.layout.mark(lane).saturating_add(4);
    let name = match (lane.group, row) {
        (Group::Places, _) => format!(in canvas.alloc; "place {row}")?,
        (Group::Lines, _) => format!(in canvas.alloc; "lines")?,
        (Group::Operations, 0) => format!(in canvas.alloc; "operations")?,
        (Group::Codes, 0) => format!(in canvas.alloc; "codes")?,
        _ => return Ok(()),
    };
    let name = name.as_str();
    canvas.put_made(format!(in canvas.alloc; "<text class='name' x='{x}' y='{y}'>{name}</text>\n")?)
}

const GROUPS: [Group; 4] = [Group::Lines, Group::Operations, Group::Places, Group::Codes];

fn put_names_of(canvas: &mut Canvas, group: Group, left: u64) -> Result<(), AllocError> {
    for row in 0..canvas.layout.extent.lanes(group) {
        put_name(canvas, lane(group, row), left)?;
    }
    Ok(())
}

/// Draws the left margin of each panel: it covers the bars, and has the names of the lanes.
pub fn put_names(canvas: &mut Canvas) -> Result<(), AllocError> {
    let top = TOP.saturating_sub(2);
    let height = canvas.layout.bottom().saturating_sub(top);
    let width = LEFT.saturating_sub(8);
    for panel in 0..canvas.layout.panels() {
        let left = panel.saturating_mul(PANEL);
        canvas.put_made(format!(in canvas.alloc;
            "<rect class='left' x='{left}' y='{top}' width='{width}' height='{height}'/>\n"
        )?)?;
        for group in GROUPS {
            put_names_of(canvas, group, left)?;
        }
    }
    Ok(())
}
