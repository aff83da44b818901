// The head of a picture: its title, the legend of colours and shapes, and the numbers of the lines.
use crate::canvas::Canvas;
use crate::layout::{PANEL, TOP};
use crate::marks::Mark;
use crate::run::Run;
use crate::shapes::Outcome;
use crate::style::put_style;
use run_lanes::lanes::Sizes;
use std::alloc::AllocError;

/// The classes of spans with their meanings, one row of the legend each.
const STATES: [(&str, &str); 10] = [
    ("new", "new"),
    ("java", "in Java"),
    ("vm", "in the VM"),
    ("native", "native"),
    ("blocked", "blocked"),
    ("transition", "transition"),
    ("atpoll", "at a poll"),
    ("serving", "serving"),
    ("held", "held"),
    ("publishing", "publication"),
];

const OTHERS: [(&str, &str); 6] = [
    ("waiting", "waiting"),
    ("handshake", "handshake"),
    ("census", "census"),
    ("inuse", "code in use"),
    ("notentrant", "not entrant"),
    ("zombie", "zombie"),
];

/// The shapes of marks with the answers that they stand for, in three rows of the legend.
const SHAPES: [[(&str, &str); 10]; 3] = [
    [
        ("step", "done"),
        ("cleared", "cleared"),
        ("started", "thread starts"),
        ("exited", "exits"),
        ("change", "change"),
        ("nochange", "change none"),
        ("go", "go"),
        ("left", "leave, go"),
        ("stop", "stop"),
        ("entered", "entered"),
    ],
    [
        ("wrongmethod", "wrong method"),
        ("callback", "reply (callback)"),
        ("stack", "stack"),
        ("code", "code"),
        ("nocode", "no code"),
        ("covered", "look: clear"),
        ("late", "look: late"),
        ("notlooked", "not looked"),
        ("used", "used"),
        ("retired", "retired"),
    ],
    [
        ("asked", "asked"),
        ("opened", "opened"),
        ("closed", "closed"),
        ("told", "told"),
        ("gone", "gone"),
        ("counted", "census"),
        ("count", "count"),
        ("state", "state of code"),
        ("refusal", "refused"),
        ("badline", "bad line"),
    ],
];

const APART: u64 = 114;

/// What a row of the legend shows.
#[derive(Clone, Copy, Drop)]
enum Sample {
    Colour,
    Shape,
}

// A colour or a shape, and right of it its meaning.
fn put_sample(
    canvas: &mut Canvas,
    sample: Sample,
    (class, name): (&str, &str),
    x: u64,
    y: u64,
) -> Result<(), AllocError> {
    let (shown, right, down) = match sample {
        Sample::Colour => {
            let shown = format!(in canvas.alloc;
                "<rect class='{class}' x='{x}' y='{y}' width='14' height='12'/>"
            )?;
            (shown, 18, 10)
        }
        Sample::Shape => {
            let shown = format!(in canvas.alloc; "<use href='#{class}' x='{x}' y='{y}'/>")?;
            (shown, 11, 4)
        }
    };
    canvas.put_made(shown)?;
    let x = x.saturating_add(right);
    let y = y.saturating_add(down);
    canvas.put_made(format!(in canvas.alloc; "<text x='{x}' y='{y}'>{name}</text>\n")?)
}

fn put_row(
    canvas: &mut Canvas,
    sample: Sample,
    row: &[(&str, &str)],
    y: u64,
) -> Result<(), AllocError> {
    let mut x = match sample {
        Sample::Colour => 8u64,
        Sample::Shape => 15,
    };
    for named in row {
        put_sample(canvas, sample, *named, x, y)?;
        x = x.saturating_add(APART);
    }
    Ok(())
}

// The legend of colours and shapes, which is shown above each panel.
fn put_legend(canvas: &mut Canvas) -> Result<(), AllocError> {
    canvas.put("<symbol id='legend' overflow='visible'>\n")?;
    put_row(canvas, Sample::Colour, &STATES, 38)?;
    put_row(canvas, Sample::Colour, &OTHERS, 58)?;
    let mut y = 85u64;
    for shapes in &SHAPES {
        put_row(canvas, Sample::Shape, shapes, y)?;
        y = y.saturating_add(18);
    }
    canvas.put("</symbol>\n</defs>\n")
}

// The number of marks with this outcome.
fn count(marks: &[Mark], outcome: Outcome) -> usize {
    marks.iter().filter(|mark| mark.outcome == outcome).count()
}

// Which lines are drawn, and of how many.
fn put_lines(canvas: &mut Canvas, run: &Run) -> Result<(), AllocError> {
    let lines = run.lines;
    let told = match (run.marks.first(), run.marks.last()) {
        (Some(first), Some(last)) if run.marks.len() as u64 != lines => {
            let first = first.line;
            let last = last.line;
            format!(in canvas.alloc; "lines {first} to {last} of {lines}")?
        }
        (None, _) if lines > 0 => format!(in canvas.alloc; "no line of {lines}")?,
        _ => format!(in canvas.alloc; "{lines} lines")?,
    };
    canvas.put_made(told)
}

fn put_title(canvas: &mut Canvas, run: &Run) -> Result<(), AllocError> {
    let refused = count(&run.marks, Outcome::Refused);
    let bad = count(&run.marks, Outcome::Bad);
    canvas.put("<text class='title' x='8' y='24'>")?;
    put_lines(canvas, run)?;
    canvas.put_made(format!(in canvas.alloc; ", {refused} refused, {bad} bad")?)?;
    if let Some(sizes) = run.lanes.sizes {
        let Sizes {
            places,
            slots,
            methods,
        } = sizes;
        canvas.put_made(format!(in canvas.alloc;
            "; places {places}, slots {slots}, methods {methods}"
        )?)?;
    }
    canvas.put("</text>\n")
}

fn put_number(canvas: &mut Canvas, line: u64) -> Result<(), AllocError> {
    let x = canvas.layout.x(line);
    let top = TOP;
    let y = top.saturating_sub(6);
    let bottom = canvas.layout.bottom();
    canvas.put_made(format!(in canvas.alloc;
        "<path class='grid' d='M{x} {top}V{bottom}'/><text class='number' x='{x}' y='{y}'>{line}</text>\n"
    )?)
}

fn put_numbers(canvas: &mut Canvas, marks: &[Mark]) -> Result<(), AllocError> {
    let layout = canvas.layout;
    for mark in marks {
        if mark.line == layout.first || mark.line % layout.numbered() == 0 {
            put_number(canvas, mark.line)?;
        }
    }
    Ok(())
}

// The legend above each panel.
fn put_legends(canvas: &mut Canvas) -> Result<(), AllocError> {
    for panel in 0..canvas.layout.panels() {
        let x = panel.saturating_mul(PANEL);
        canvas.put_made(format!(in canvas.alloc; "<use href='#legend' x='{x}'/>\n")?)?;
    }
    Ok(())
}

/// Everything above the lanes, and the background of the lanes.
pub fn put_head(canvas: &mut Canvas, run: &Run) -> Result<(), AllocError> {
    let width = canvas.layout.width();
    let height = canvas.layout.height();
    canvas.put_made(format!(in canvas.alloc;
        "<svg xmlns='http://www.w3.org/2000/svg' width='{width}' height='{height}' viewBox='0 0 {width} {height}'>\n"
    )?)?;
    put_style(canvas)?;
    put_legend(canvas)?;
    canvas.put("<rect width='100%' height='100%' fill='#fff'/>\n")?;
    put_title(canvas, run)?;
    put_legends(canvas)?;
    put_numbers(canvas, &run.marks)
}
