// The painted parts of the drawn lines: coloured spans, and the lives of threads, operations and codes on lanes.
ghost use Rattle.std.specs.Prelude.{◌≡◌, ◌++◌, [], OnOk};
ghost use Rattle.run_lanes.specs.Painted.{drawn_span, drawn_life};

use crate::looks::{Lane, Paint};
use operations::Request;
use std::alloc::{AllocError, Global};

/// A part of a lane in one colour, from a line to a later one.
#[derive(Clone, Copy, Drop)]
pub struct Span {
    pub lane: Lane,
    pub paint: Paint,
    pub from: u64,
    pub to: u64,
}

/// The thread, operation or code that a lane shows for a while.
#[derive(Drop)]
pub enum Name {
    Thread(u64),
    Operation(u64, Request),
    Code {
        serial: u64,
        method: u64,
        /// The serial of the code that it replaced.
        replaced: Option<u64>,
    },
}

/// A thread, an operation or a code on its lane, from a line to a later one.
#[derive(Drop)]
pub struct Life {
    pub lane: Lane,
    pub name: Name,
    pub from: u64,
    pub to: u64,
}

/// The parts painted so far, from the first drawn line on.
#[derive(Drop)]
pub struct Painted {
    pub first: u64,
    pub spans: Vec<Span>,
    pub lives: Vec<Life>,
}

impl Painted {
    pub fn new(alloc: Global, first: u64) -> Painted
        ensures first { result.first ≡ first }
        ensures spans { result.spans.items ≡ [] }
        ensures lives { result.lives.items ≡ [] }
    {
        Painted {
            first,
            spans: Vec::new(alloc),
            lives: Vec::new(alloc),
        }
    }

    /// Adds a span, cut to the drawn lines.
    pub fn add_span(&mut self, span: Span) -> Result<(), AllocError>
        ensures first { self.new.first ≡ self.old.first }
        ensures spans { OnOk result (self.new.spans.items ≡ self.old.spans.items
            ++ drawn_span self.old.first span) }
        ensures lives { self.new.lives.items ≡ self.old.lives.items }
    {
        if span.to <= self.first {
            return Ok(());
        }
        let from = span.from.max(self.first);
        self.spans.push(Span { from, ..span })?;
        Ok(())
    }

    /// Adds a life with its name, cut to the drawn lines.
    pub fn add_life(&mut self, lane: Lane, name: Name, from: u64, to: u64) -> Result<(), AllocError>
        ensures first { self.new.first ≡ self.old.first }
        ensures spans { self.new.spans.items ≡ self.old.spans.items }
        ensures lives { OnOk result (self.new.lives.items ≡ self.old.lives.items
            ++ drawn_life self.old.first
            (record { lane = lane; name = name; from = from; to = to })) }
    {
        if to <= self.first {
            return Ok(());
        }
        let from = from.max(self.first);
        self.lives.push(Life {
            lane,
            name,
            from,
            to,
        })?;
        Ok(())
    }
}
