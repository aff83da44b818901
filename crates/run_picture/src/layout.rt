// The positions of all parts of a picture, in pixels. It has panels side by side, each with the names of lanes at its left.
ghost use Rattle.std.specs.Prelude.{◌<◌};

use crate::run::Run;
use run_lanes::looks::{Group, LINES, Lane};
use run_lanes::painted::Painted;

/// The width of a panel.
pub const PANEL: u64 = 1200;

/// The top of the first lane, below the title, the legend and the numbers of the lines.
pub const TOP: u64 = 156;

/// The room for the names of lanes.
pub const LEFT: u64 = 104;

/// The room right of the last line of a panel.
const RIGHT: u64 = 8;

/// Up to this many lines, the marks are far enough apart for all texts.
const FEW: u64 = 200;

/// Up to this many lines, the marks are far enough apart to see their shapes without zooming in.
const SOME: u64 = 600;

const GAP: u64 = 10;

/// The height of one lane of a group.
pub fn pitch(group: Group) -> u64 {
    match group {
        Group::Lines => 26,
        Group::Places => 52,
        Group::Operations | Group::Codes => 28,
    }
}

/// The number of lanes in each group.
#[derive(Clone, Copy, Drop)]
pub struct Extent {
    pub operations: u64,
    pub places: u64,
    pub codes: u64,
}

impl Extent {
    // Extends the group so that this lane exists.
    fn cover(&mut self, lane: Lane) {
        let lanes = (lane.row as u64).saturating_add(1);
        match lane.group {
            Group::Lines => {}
            Group::Operations => self.operations = self.operations.max(lanes),
            Group::Places => self.places = self.places.max(lanes),
            Group::Codes => self.codes = self.codes.max(lanes),
        }
    }

    fn of(run: &Run) -> Extent {
        let mut extent = Extent {
            operations: 0,
            places: 0,
            codes: 0,
        };
        extent.cover_painted(&run.lanes.painted);
        for mark in &run.marks {
            extent.cover(mark.spot.lane);
            if let Some(lane) = mark.spot.tie {
                extent.cover(lane);
            }
        }
        extent
    }

    fn cover_painted(&mut self, painted: &Painted) {
        for span in &painted.spans {
            self.cover(span.lane);
        }
        for life in &painted.lives {
            self.cover(life.lane);
        }
    }

    /// The number of lanes in a group.
    pub fn lanes(&self, group: Group) -> u64 {
        match group {
            Group::Lines => 1,
            Group::Operations => self.operations,
            Group::Places => self.places,
            Group::Codes => self.codes,
        }
    }
}

/// The sizes that determine all positions.
#[derive(Clone, Copy, Drop)]
pub struct Layout {
    /// The number of the first line that is drawn.
    pub first: u64,
    /// The number of drawn lines.
    pub lines: u64,
    pub extent: Extent,
    /// The room for the texts of the lines.
    texts: u64,
}

impl Layout {
    /// The layout of a run whose longest text of a line has this many letters.
    pub fn of(run: &Run, letters: u64) -> Layout {
        let first = match run.marks.first() {
            Some(mark) => mark.line,
            None => run.part.from,
        };
        Layout {
            first,
            lines: run.marks.len() as u64,
            extent: Extent::of(run),
            texts: letters.saturating_mul(5).saturating_add(20),
        }
    }

    /// The distance between the marks of two successive lines.
    pub fn step(&self) -> u64
        ensures { 0 < result }
    {
        if self.lines <= FEW {
            22
        } else if self.lines <= SOME {
            12
        } else {
            7
        }
    }

    /// The distance, in lines, between two numbers of lines.
    pub fn numbered(&self) -> u64
        ensures { 0 < result }
    {
        if self.lines <= SOME { 10 } else { 20 }
    }

    /// The number of lines in a panel.
    pub fn columns(&self) -> u64
        ensures { 0 < result }
    {
        if self.lines <= FEW {
            49
        } else if self.lines <= SOME {
            90
        } else {
            155
        }
    }

    // The number of drawn lines before this one.
    fn before(&self, line: u64) -> u64 {
        line.saturating_sub(self.first)
    }

    /// The panel of a line, counted from 0.
    pub fn panel(&self, line: u64) -> u64 {
        self.before(line) / self.columns()
    }

    /// The number of panels.
    pub fn panels(&self) -> u64 {
        let last = self.lines.saturating_sub(1);
        (last / self.columns()).saturating_add(1)
    }

    /// The first line of a panel.
    pub fn first_of(&self, panel: u64) -> u64 {
        panel
            .saturating_mul(self.columns())
            .saturating_add(self.first)
    }

    /// The horizontal position of a line's mark.
    pub fn x(&self, line: u64) -> u64 {
        let column = self.before(line) % self.columns();
        let left = self.panel(line).saturating_mul(PANEL);
        column
            .saturating_mul(self.step())
            .saturating_add(left)
            .saturating_add(LEFT)
    }

    /// The right end of a bar that ends at this line: one step after the mark of the line before.
    pub fn end(&self, line: u64) -> u64 {
        self.x(line.saturating_sub(1)).saturating_add(self.step())
    }

    /// The right end of the lines of a panel.
    pub fn right(&self, panel: u64) -> u64 {
        panel
            .saturating_add(1)
            .saturating_mul(PANEL)
            .saturating_sub(RIGHT)
    }

    /// The top of a lane.
    pub fn y(&self, lane: Lane) -> u64 {
        let row = lane.row as u64;
        self.top(lane.group)
            .saturating_add(row.saturating_mul(pitch(lane.group)))
    }

    /// The vertical position of a mark on a lane.
    pub fn mark(&self, lane: Lane) -> u64 {
        let down = match lane.group {
            Group::Lines => 12,
            Group::Places => 22,
            Group::Operations | Group::Codes => 18,
        };
        self.y(lane).saturating_add(down)
    }

    // The top of a group: below the groups before it.
    fn top(&self, group: Group) -> u64 {
        let operations = below(TOP, 1, Group::Lines);
        let places = below(operations, self.extent.operations, Group::Operations);
        match group {
            Group::Lines => TOP,
            Group::Operations => operations,
            Group::Places => places,
            Group::Codes => below(places, self.extent.places, Group::Places),
        }
    }

    /// The bottom of the last lane.
    pub fn bottom(&self) -> u64 {
        below(self.top(Group::Codes), self.extent.codes, Group::Codes)
    }

    pub fn height(&self) -> u64 {
        self.bottom().saturating_add(self.texts)
    }

    pub fn width(&self) -> u64 {
        self.panels().saturating_mul(PANEL)
    }
}

/// The lane with this number in a group.
pub fn lane(group: Group, row: u64) -> Lane {
    match usize::try_from(row) {
        Ok(row) => Lane { group, row },
        Err(_) => LINES,
    }
}

// The top of the next group, below a group with this many lanes.
fn below(top: u64, lanes: u64, group: Group) -> u64 {
    if lanes == 0 {
        return top;
    }
    lanes
        .saturating_mul(pitch(group))
        .saturating_add(top)
        .saturating_add(GAP)
}
