// The rows of one group of lanes.
ghost use Rattle.std.specs.Prelude.{◌≡◌, ◌≢◌, ◌++◌, [], length, OnOk, Some, option_map, option_and_then, unwrap_or, slice_get, slice_set};
ghost use Rattle.std.specs.List.{flat_map, position};
ghost use Rattle.run_lanes.specs.declared.rows.Row.{Row as RowOf};
ghost use Rattle.run_lanes.specs.Painted.{drawn_span};
ghost use Rattle.run_lanes.specs.Rows.{shows, is_vacant, vacant_row, wide, bar_in, number_in};

use crate::looks::{Group, Lane, Paint};
use crate::painted::{Painted, Span};
use crate::widening::widen;
use std::alloc::{AllocError, Global};

/// The least distance, in lines, between the beginnings of two names on one row, so that names have room.
const APART: u64 = 8;

/// The current content of a row: the number of a thread, operation or code, its colour, and the line at which the colour began.
#[derive(Clone, Copy, Drop)]
struct Row {
    number: u64,
    paint: Option<Paint>,
    since: u64,
    /// The line at which the row began to show the number.
    begun: u64,
}

const BLANK: Row = Row {
    number: 0,
    paint: None,
    since: 0,
    begun: 0,
};

impl Row {
    // Whether the row shows nothing and has room for a name that begins at this line.
    fn is_vacant(&self, at: u64) -> bool
        ensures { result ≡ is_vacant at self.now }
    {
        self.paint.is_none() && at.saturating_sub(self.begun) >= APART
    }
}

/// The rows of a group.
#[derive(Drop)]
pub(crate) struct Rows {
    group: Group,
    rows: Vec<Row>,
}

impl Rows {
    pub(crate) fn new(alloc: Global, group: Group) -> Rows
        ensures group { result.group ≡ group }
        ensures rows { result.rows.items ≡ [] }
    {
        Rows {
            group,
            rows: Vec::new(alloc),
        }
    }

    /// The number of rows that were ever used.
    pub(crate) fn len(&self) -> usize
        ensures { result ≡ length self.now.rows.items }
    {
        self.rows.len()
    }

    pub(crate) fn lane(&self, row: usize) -> Lane
        ensures { result ≡ record { group = self.now.group; row = row } }
    {
        Lane {
            group: self.group,
            row,
        }
    }

    /// The row that shows the thread, operation or code of this number.
    pub(crate) fn find(&self, number: u64) -> Option<usize>
        ensures { result ≡ position (λ row. shows row number) self.now.rows.items }
    {
        self.rows
            .iter()
            .position(|row| row.paint.is_some() && row.number == number)
    }

    fn first_vacant(&self, at: u64) -> Option<usize>
        ensures { result ≡ position (is_vacant at) self.now.rows.items }
    {
        self.rows.iter().position(|row| row.is_vacant(at))
    }

    /// The first row that shows nothing and has room for a name that begins at this line.
    pub(crate) fn vacant(&self, at: u64) -> usize
        ensures { result ≡ vacant_row at self.now.rows.items }
    {
        match self.first_vacant(at) {
            Some(row) => row,
            None => self.rows.len(),
        }
    }

    /// The number that a row shows, if any.
    pub(crate) fn number(&self, row: usize) -> Option<u64>
        ensures { result
            ≡ option_and_then
            (λ row. number_in row.number row.paint) (slice_get self.now.rows.items row) }
    {
        let row = self.rows.get(row)?;
        row.paint?;
        Some(row.number)
    }

    /// The line at which the row began to show its current number.
    pub(crate) fn begun(&self, row: usize) -> u64
        ensures { result
            ≡ unwrap_or (option_map (λ row. row.begun) (slice_get self.now.rows.items row)) 0 }
    {
        match self.rows.get(row) {
            Some(row) => row.begun,
            None => 0,
        }
    }

    /// From this line on the row shows this. Its bar before the line becomes a span.
    pub(crate) fn begin(
        &mut self,
        painted: &mut Painted,
        row: usize,
        number: u64,
        paint: Paint,
        at: u64,
    ) -> Result<(), AllocError>
        ensures group { self.new.group ≡ self.old.group }
        ensures first { painted.new.first ≡ painted.old.first }
        ensures lives { painted.new.lives.items ≡ painted.old.lives.items }
        ensures begun { OnOk result ((kept : RowOf)
            → slice_get (wide row self.old.rows.items) row ≡ Some kept
            → self.new.rows.items
            ≡ slice_set (wide row self.old.rows.items) row
            (record { number = number; paint = Some paint; since = at; begun = at })) }
        ensures bar { OnOk result ((kept : RowOf)
            → slice_get (wide row self.old.rows.items) row ≡ Some kept
            → painted.new.spans.items ≡ painted.old.spans.items
            ++ flat_map (drawn_span painted.old.first) (bar_in
            (record { group = self.old.group; row = row }) kept.since at kept.paint)) }
    {
        widen(&mut self.rows, row, BLANK)?;
        let shown = Row {
            number,
            paint: Some(paint),
            since: at,
            begun: at,
        };
        self.replace(painted, row, shown, at)
    }

    /// From this line on the row has this colour, or shows nothing. Its bar before the line becomes a span.
    pub(crate) fn turn(
        &mut self,
        painted: &mut Painted,
        row: usize,
        paint: Option<Paint>,
        at: u64,
    ) -> Result<(), AllocError>
        ensures group { self.new.group ≡ self.old.group }
        ensures lives { painted.new.lives.items ≡ painted.old.lives.items }
        ensures first { painted.new.first ≡ painted.old.first }

        ensures same { OnOk result ((kept : RowOf)
            → slice_get (wide row self.old.rows.items) row ≡ Some kept → kept.paint ≡ paint
            → (self.new.rows.items ≡ wide row self.old.rows.items)
            × (painted.new.spans.items ≡ painted.old.spans.items)) }
        ensures turned { OnOk result ((kept : RowOf)
            → slice_get (wide row self.old.rows.items) row ≡ Some kept → kept.paint ≢ paint
            → self.new.rows.items
            ≡ slice_set (wide row self.old.rows.items) row
            (record kept { paint = paint; since = at })) }
        ensures bar { OnOk result ((kept : RowOf)
            → slice_get (wide row self.old.rows.items) row ≡ Some kept → kept.paint ≢ paint
            → painted.new.spans.items ≡ painted.old.spans.items
            ++ flat_map (drawn_span painted.old.first) (bar_in
            (record { group = self.old.group; row = row }) kept.since at kept.paint)) }
    {
        widen(&mut self.rows, row, BLANK)?;
        let Some(kept) = self.rows.get(row) else {
            return Ok(());
        };
        if kept.paint == paint {
            return Ok(());
        }
        let shown = Row {
            paint,
            since: at,
            ..*kept
        };
        self.replace(painted, row, shown, at)
    }

    // Shows this in an existing row from this line on. The bar of what the row showed before becomes a span.
    fn replace(
        &mut self,
        painted: &mut Painted,
        row: usize,
        shown: Row,
        at: u64,
    ) -> Result<(), AllocError>
        ensures group { self.new.group ≡ self.old.group }
        ensures first { painted.new.first ≡ painted.old.first }
        ensures lives { painted.new.lives.items ≡ painted.old.lives.items }
        ensures shown { OnOk result ((kept : RowOf)
            → slice_get self.old.rows.items row ≡ Some kept
            → self.new.rows.items ≡ slice_set self.old.rows.items row shown) }
        ensures bar { OnOk result ((kept : RowOf)
            → slice_get self.old.rows.items row ≡ Some kept
            → painted.new.spans.items ≡ painted.old.spans.items
            ++ flat_map (drawn_span painted.old.first) (bar_in
            (record { group = self.old.group; row = row }) kept.since at kept.paint)) }
    {
        let lane = self.lane(row);
        let Some(kept) = self.rows.get_mut(row) else {
            return Ok(());
        };
        let before = *kept;
        *kept = shown;
        end_bar(painted, lane, before, at)
    }

    /// Ends all bars after the last line: they become spans.
    pub(crate) fn finish(&mut self, painted: &mut Painted, at: u64) -> Result<(), AllocError>
        ensures lives { painted.new.lives.items ≡ painted.old.lives.items }
    {
        for row in 0..self.rows.len() {
            self.turn(painted, row, None, at)?;
        }
        Ok(())
    }
}

// Ends the bar of the row before this line.
fn end_bar(painted: &mut Painted, lane: Lane, row: Row, at: u64) -> Result<(), AllocError>
    ensures first { painted.new.first ≡ painted.old.first }
    ensures lives { painted.new.lives.items ≡ painted.old.lives.items }
    ensures spans { OnOk result (painted.new.spans.items ≡ painted.old.spans.items
        ++ flat_map (drawn_span painted.old.first) (bar_in lane row.since at row.paint)) }
{
    match row.paint {
        None => Ok(()),
        Some(paint) => painted.add_span(Span {
            lane,
            paint,
            from: row.since,
            to: at,
        }),
    }
}
