// The names of threads, operations and codes, written on their lanes where there is room.
use crate::canvas::Canvas;
use crate::layout::Layout;
use operations::Request;
use run_lanes::looks::{Group, Lane};
use run_lanes::painted::{Life, Name};
use std::alloc::{AllocError, Global};

/// The width of a letter in a name, at most on average.
const LETTER: u64 = 5;

/// How many targets of a handshake are named.
const TARGETS: usize = 4;

/// A name in three lengths.
#[derive(Drop)]
struct Label {
    long: String,
    short: String,
    number: String,
}

// The targets of a handshake, the first few of them by name.
fn targets_of(alloc: Global, names: &[u64]) -> Result<String, AllocError> {
    let mut text = String::new(alloc);
    for (i, name) in names.iter().enumerate() {
        if i >= TARGETS {
            let all = names.len();
            let more = format!(in alloc; " .. ({all})")?;
            text.push_str(more.as_str())?;
            return Ok(text);
        }
        let between = if i == 0 { "" } else { ", " };
        let piece = format!(in alloc; "{between}{name}")?;
        text.push_str(piece.as_str())?;
    }
    Ok(text)
}

fn of_operation(alloc: Global, number: u64, request: &Request) -> Result<Label, AllocError> {
    let long = match request {
        Request::Census => format!(in alloc; "operation {number}: census")?,
        Request::Handshake { targets, .. } => {
            let names = targets_of(alloc, targets.as_slice())?;
            let names = names.as_str();
            format!(in alloc; "operation {number}: handshake of {names}")?
        }
    };
    Ok(Label {
        long,
        short: format!(in alloc; "operation {number}")?,
        number: format!(in alloc; "{number}")?,
    })
}

fn of_code(
    alloc: Global,
    serial: u64,
    method: u64,
    replaced: Option<u64>,
) -> Result<Label, AllocError> {
    let long = match replaced {
        None => format!(in alloc; "code {serial} of method {method}")?,
        Some(old) => format!(in alloc; "code {serial} of method {method}, for {old}")?,
    };
    Ok(Label {
        long,
        short: format!(in alloc; "code {serial}")?,
        number: format!(in alloc; "{serial}")?,
    })
}

fn label_of(alloc: Global, name: &Name) -> Result<Label, AllocError> {
    match name {
        Name::Thread(number) => Ok(Label {
            long: format!(in alloc; "thread {number}")?,
            short: format!(in alloc; "thread {number}")?,
            number: format!(in alloc; "{number}")?,
        }),
        Name::Operation(number, request) => of_operation(alloc, *number, request),
        Name::Code {
            serial,
            method,
            replaced,
        } => of_code(alloc, *serial, *method, *replaced),
    }
}

fn fits(text: &String, room: u64) -> bool {
    (text.len() as u64).saturating_mul(LETTER) <= room
}

// The longest form of the name that fits.
fn chosen(label: &Label, room: u64) -> &str {
    if fits(&label.long, room) {
        label.long.as_str()
    } else if fits(&label.short, room) {
        label.short.as_str()
    } else if fits(&label.number, room) {
        label.number.as_str()
    } else {
        ""
    }
}

fn put_label(canvas: &mut Canvas, lane: Lane, line: u64, name: &str) -> Result<(), AllocError> {
    if name.is_empty() {
        return Ok(());
    }
    let x = canvas.layout.x(line);
    let y = canvas.layout.y(lane).saturating_add(9);
    canvas.put_made(format!(in canvas.alloc;
        "<text class='label' x='{x}' y='{y}'>{name}</text>\n"
    )?)
}

/// For each lane of a group the first line at which another name begins, while lives are visited from the last to the first.
#[derive(Drop)]
struct Next {
    operations: Vec<u64>,
    places: Vec<u64>,
    codes: Vec<u64>,
}

fn never(alloc: Global, lanes: u64) -> Result<Vec<u64>, AllocError> {
    let mut all = Vec::new(alloc);
    for _ in 0..lanes {
        all.push(u64::MAX)?;
    }
    Ok(all)
}

impl Next {
    fn new(alloc: Global, layout: &Layout) -> Result<Next, AllocError> {
        Ok(Next {
            operations: never(alloc, layout.extent.operations)?,
            places: never(alloc, layout.extent.places)?,
            codes: never(alloc, layout.extent.codes)?,
        })
    }

    // The next line at which another name begins on the lane. From now on that is this line.
    fn replace(&mut self, lane: Lane, line: u64) -> u64 {
        match lane.group {
            Group::Lines => u64::MAX,
            Group::Operations => replaced(&mut self.operations, lane.row, line),
            Group::Places => replaced(&mut self.places, lane.row, line),
            Group::Codes => replaced(&mut self.codes, lane.row, line),
        }
    }
}

// The line recorded for the row, which is replaced by this line.
fn replaced(lines: &mut Vec<u64>, row: usize, line: u64) -> u64 {
    match lines.get_mut(row) {
        None => u64::MAX,
        Some(kept) => {
            let next = *kept;
            *kept = line;
            next
        }
    }
}

// The room for a name that begins at a line: up to the next name on the lane, or to the end of the panel.
fn room(layout: &Layout, line: u64, next: u64) -> u64 {
    let panel = layout.panel(line);
    let end = if layout.panel(next) == panel {
        layout.x(next).saturating_sub(4)
    } else {
        layout.right(panel)
    };
    end.saturating_sub(layout.x(line))
}

// Writes the name of a life where it begins, and again in each later panel.
fn put_life(canvas: &mut Canvas, life: &Life, next: u64) -> Result<(), AllocError> {
    let layout = canvas.layout;
    let label = label_of(canvas.alloc, &life.name)?;
    let last = layout.panel(life.to.saturating_sub(1));
    for panel in layout.panel(life.from)..last.saturating_add(1) {
        let line = life.from.max(layout.first_of(panel));
        let name = chosen(&label, room(&layout, line, next));
        put_label(canvas, life.lane, line, name)?;
    }
    Ok(())
}

/// Writes the names of threads, operations and codes where they begin, and again in each later panel.
pub fn put_lives(canvas: &mut Canvas, lives: &[Life]) -> Result<(), AllocError> {
    let mut next = Next::new(canvas.alloc, &canvas.layout)?;
    for life in lives.iter().rev() {
        let line = next.replace(life.lane, life.from);
        put_life(canvas, life, line)?;
    }
    Ok(())
}
