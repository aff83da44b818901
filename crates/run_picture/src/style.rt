// What a picture defines before it draws: the style sheet, the shapes of marks, and the fills of bars.
use self::Drawn::{Dash, Fill, Line, Open};
use crate::canvas::Canvas;
use std::alloc::AllocError;

/// The colours, by the classes of spans. The greys of the groups differ, and no two colours differ only in red and green.
const STYLE: &str = "<style>
text { font: 11px sans-serif; fill: #222 }
.title { font-size: 16px; font-weight: bold }
.label { font-size: 9px; fill: #222; stroke: #fff; stroke-width: 2.5px; paint-order: stroke }
.name { font-size: 11px; fill: #444 }
text.line { font-size: 9px; font-family: monospace }
.number { font-size: 9px; fill: #555; text-anchor: middle }
.depth { font-size: 9px; fill: #444; stroke: #fff; stroke-width: 2.5px; paint-order: stroke }
.left { fill: #fff }
.grid { stroke: #e4e4e4 }
.tie { stroke: #777; stroke-width: .8; fill: none; marker-end: url(#end) }
path.fill { fill: #111; stroke: #fff; stroke-width: .8 }
path.open { fill: #fff; stroke: #111; stroke-width: 1.2 }
path.dash { fill: #fff; stroke: #111; stroke-width: 1.2; stroke-dasharray: 2 1.2 }
path.line { fill: none; stroke: #111; stroke-width: 1.5 }
path.halo { fill: none; stroke: #fff; stroke-width: 3.6 }
rect.new { fill: #f4f4ee; stroke: #bbb; stroke-width: .6 } rect.native { fill: #f0da84 } rect.java { fill: #a4c7ec } rect.vm { fill: #cea738 }
rect.blocked { fill: #959595 } rect.transition { fill: #4a80c4 } rect.atpoll { fill: #856414 } rect.serving { fill: #2b5190 }
rect.publishing { fill: #2a1a5e } rect.held { fill: #000 }
rect.waiting { fill: url(#waiting-fill) } rect.handshake { fill: url(#handshake-fill) } rect.census { fill: url(#census-fill) }
rect.inuse { fill: url(#inuse-fill) } rect.notentrant { fill: url(#notentrant-fill) } rect.zombie { fill: url(#zombie-fill) }
text.bad .answer, text.refused .answer { font-weight: bold; fill: #000 } .answer { fill: #335 }
</style>
";

/// What stands before the shapes: the end of a thin line.
const DEFS: &str = "<defs>
<marker id='end' viewBox='-3 -3 6 6' markerWidth='6' markerHeight='6'><circle r='2.4' fill='#777'/></marker>
";

/// How a shape is drawn: as an area of a class, or as a line with a halo.
#[derive(Clone, Copy, Drop)]
enum Drawn {
    Fill,
    Open,
    Dash,
    Line,
}

/// The shapes, each with the name of its mark and its path.
const SHAPES: [(Drawn, &str, &str); 30] = [
    (Fill, "step", "M-1-5h2v10h-2z"),
    (Open, "cleared", "M-4 4h8l-4-8z"),
    (Fill, "started", "M-3-5l7 5l-7 5z"),
    (Open, "exited", "M3-5l-7 5l7 5z"),
    (Open, "change", "M0-4l3 4l-3 4l-3-4z"),
    (Fill, "nochange", "M-4-1h8v2h-8z"),
    (Line, "go", "M-2-4l4 4l-4 4"),
    (Line, "left", "M-4 2l4-4l4 4"),
    (Fill, "stop", "M-2-5h4l3 3v4l-3 3h-4l-3-3v-4z"),
    (Line, "entered", "M-4-2l4 4l4-4"),
    (Line, "wrongmethod", "M-4-2l4 4l4-4M-4-5l8 8"),
    (Fill, "callback", "M0-6l4.5 6l-4.5 6l-4.5-6z"),
    (Line, "stack", "M-4-4h8M-4 0h8M-4 4h8"),
    (Fill, "code", "M-4-4h8v8h-8z"),
    (Dash, "nocode", "M-4-4h8v8h-8z"),
    (Fill, "covered", "M-4 0a4 4 0 1 0 8 0a4 4 0 1 0-8 0z"),
    (Open, "late", "M-4 0a4 4 0 1 0 8 0a4 4 0 1 0-8 0z"),
    (
        Open,
        "notlooked",
        "M-4 0a4 4 0 1 0 8 0a4 4 0 1 0-8 0zM-3-3l6 6",
    ),
    (Open, "used", "M-4-4h8v8h-8zM-1-1h2v2h-2z"),
    (Open, "retired", "M-4-4h8v8h-8zM-4-4l8 8"),
    (Line, "asked", "M-4 0h8M0-4v8"),
    (Line, "opened", "M3-5h-5v10h5"),
    (Line, "closed", "M-3-5h5v10h-5"),
    (Fill, "told", "M-4-4h8l-4 8z"),
    (Open, "gone", "M-4-4h8l-4 8z"),
    (Line, "counted", "M4-4h-8l4 4l-4 4h8"),
    (Line, "count", "M-1-5l-1 10M3-5l-1 10M-5-2h10M-5 2h10"),
    (Line, "state", "M-4-2h8M-4 2h8"),
    (Line, "refusal", "M-4-4l8 8M-4 4l8-8"),
    (Open, "badline", "M-4-4h8v8h-8zM-4-4l8 8M-4 4l8-8"),
];

/// The fills for the bars of operations and codes: the class, the ground, and a line on it with its colour and its width.
const FILLS: [(&str, &str, &str, &str, &str); 6] = [
    ("waiting", "#ffffff", "M0 6L6 0", "#9a9a9a", ".8"),
    ("handshake", "#c4dfe2", "M0 3H6", "#2c7c86", "1.2"),
    ("census", "#6f9fb0", "M0 3H6M3 0V6", "#173c42", "1"),
    ("inuse", "#fbe6d2", "M3 0V6", "#c98a4b", "1.2"),
    ("notentrant", "#c9a27e", "M3 0V6M0 6L6 0", "#7a4a1c", "1"),
    ("zombie", "#6b5848", "M0 0L6 6M0 6L6 0", "#e8dccf", ".9"),
];

fn put_area(canvas: &mut Canvas, class: &str, name: &str, path: &str) -> Result<(), AllocError> {
    canvas.put_made(format!(in canvas.alloc; "<path id='{name}' class='{class}' d='{path}'/>\n")?)
}

fn put_line(canvas: &mut Canvas, name: &str, path: &str) -> Result<(), AllocError> {
    canvas.put_made(format!(in canvas.alloc;
        "<symbol id='{name}' overflow='visible'><path class='halo' d='{path}'/><path class='line' d='{path}'/></symbol>\n"
    )?)
}

fn put_shape(canvas: &mut Canvas, drawn: Drawn, name: &str, path: &str) -> Result<(), AllocError> {
    match drawn {
        Fill => put_area(canvas, "fill", name, path),
        Open => put_area(canvas, "open", name, path),
        Dash => put_area(canvas, "dash", name, path),
        Line => put_line(canvas, name, path),
    }
}

fn put_shapes(canvas: &mut Canvas) -> Result<(), AllocError> {
    for (drawn, name, path) in &SHAPES {
        put_shape(canvas, *drawn, name, path)?;
    }
    Ok(())
}

fn put_fills(canvas: &mut Canvas) -> Result<(), AllocError> {
    for (class, ground, path, colour, width) in &FILLS {
        canvas.put_made(format!(in canvas.alloc;
            "<pattern id='{class}-fill' width='6' height='6' patternUnits='userSpaceOnUse'><rect width='6' height='6' fill='{ground}'/><path d='{path}' stroke='{colour}' stroke-width='{width}' fill='none'/></pattern>\n"
        )?)?;
    }
    Ok(())
}

/// Writes the style sheet, the shapes and the fills. The list of definitions stays open.
pub fn put_style(canvas: &mut Canvas) -> Result<(), AllocError> {
    canvas.put(STYLE)?;
    canvas.put(DEFS)?;
    put_shapes(canvas)?;
    put_fills(canvas)
}
