// A run, line by line: the marks of the drawn lines, and the lanes.
ghost use Rattle.std.specs.Prelude.{◌≡◌, ◌++◌, ◌∷◌, ◌+◌, ◌<◌, ◌^◌, [], OnOk};
ghost use Rattle.run_picture.specs.Told.{grown};
ghost use Rattle.run_picture.specs.Marks.{told_by};
ghost use Rattle.run_picture.specs.Runs.{shown_by};

use crate::marks::{Mark, title_of};
use crate::part::{Part, behind, is_before, is_drawn};
use crate::shapes::{Deed, outcome_of, shape_of};
use replay::engine::Reply;
use run_lanes::lanes::{Lanes, Spot};
use run_lanes::subject::Subject;
use std::alloc::{AllocError, Global};

/// The lines of a run so far, with a mark for each drawn line.
#[derive(Drop)]
pub struct Run {
    pub part: Part,
    pub lines: u64,
    pub marks: Vec<Mark>,
    pub lanes: Lanes,
}

impl Run {
    pub fn new(alloc: Global, part: Part) -> Run
        ensures part { result.part ≡ part }
        ensures lines { result.lines ≡ 0 }
        ensures marks { result.marks.items ≡ [] }
    {
        Run {
            part,
            lines: 0,
            marks: Vec::new(alloc),
            lanes: Lanes::new(alloc, part.from),
        }
    }

    /// Takes one more line, with its reply.
    pub fn note(
        &mut self,
        alloc: Global,
        line: &[u8],
        deed: Deed,
        subject: Subject,
        reply: &Reply,
    ) -> Result<(), AllocError>
        requires few { self.old.lines < 2 ^ 63 }
        ensures part { OnOk result (self.new.part ≡ self.old.part) }
        ensures lines { OnOk result (self.new.lines ≡ self.old.lines + 1) }
        ensures shown { OnOk result (shown_by self.new.marks.items
            ≡ grown self.old.part (self.old.lines + 1) (told_by line.now deed reply.now)
            (shown_by self.old.marks.items)) }
    {
        self.lines += 1;
        if !is_before(self.lines, self.part.end) {
            return Ok(());
        }
        let spot = self.lanes.follow(subject, reply, self.lines)?;
        if is_drawn(self.part, self.lines) {
            self.mark(alloc, line, deed, reply, spot)?;
        }
        Ok(())
    }

    // Adds the mark of the last line.
    fn mark(
        &mut self,
        alloc: Global,
        line: &[u8],
        deed: Deed,
        reply: &Reply,
        spot: Spot,
    ) -> Result<(), AllocError>
        ensures part { OnOk result (self.new.part ≡ self.old.part) }
        ensures lines { OnOk result (self.new.lines ≡ self.old.lines) }
        ensures shown { OnOk result (shown_by self.new.marks.items ≡ shown_by self.old.marks.items
            ++ record { line = self.old.lines; told = told_by line.now deed reply.now } ∷ []) }
    {
        let title = title_of(alloc, line, reply)?;
        self.marks.push(Mark {
            line: self.lines,
            outcome: outcome_of(reply),
            shape: shape_of(deed, reply),
            title,
            spot,
        })?;
        Ok(())
    }

    /// Ends the run after its last line.
    pub fn finish(&mut self) -> Result<(), AllocError>
        ensures { self.new.marks.items ≡ self.old.marks.items }
    {
        self.lanes.finish(behind(self.part, self.lines))
    }
}
