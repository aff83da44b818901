// What the lanes of the codes show.
ghost use Rattle.std.specs.Prelude.{◌≡◌, [], IfSome, Some, option_map, slice_get};
ghost use Rattle.run_lanes.specs.Codes.{in_use_for};

use crate::looks::{Group, Lane, Paint};
use crate::painted::{Name, Painted};
use crate::rows::Rows;
use crate::subject::Touch;
use std::alloc::{AllocError, Global};
use system::answers::Answer;

/// A code that isn't freed.
#[derive(Clone, Copy, Drop)]
struct Kept {
    serial: u64,
    method: u64,
    replaced: Option<u64>,
    row: usize,
    is_in_use: bool,
}

/// The codes that aren't freed, by rising serial. Each is on the first lane that was vacant at its Install.
#[derive(Drop)]
pub(crate) struct Codes {
    rows: Rows,
    kept: Vec<Kept>,
}

impl Codes {
    pub(crate) fn new(alloc: Global) -> Codes
        ensures { result.kept.items ≡ [] }
    {
        Codes {
            rows: Rows::new(alloc, Group::Codes),
            kept: Vec::new(alloc),
        }
    }

    // The position in the list of the code with this serial.
    fn find(&self, serial: u64) -> Option<usize>
        ensures { IfSome result
            (λ at. option_map (λ code. code.serial) (slice_get self.now.kept.items at)
            ≡ Some serial) }
    {
        let at = self.kept.partition_point(|code| code.serial < serial);
        if self.kept.get(at)?.serial == serial {
            Some(at)
        } else {
            None
        }
    }

    /// The lane of the code with this serial, if it isn't freed.
    pub(crate) fn lane(&self, serial: u64) -> Option<Lane> {
        let code = self.kept.get(self.find(serial)?)?;
        Some(self.rows.lane(code.row))
    }

    // The code in use for a method.
    fn current(&self, method: u64) -> Option<u64>
        ensures { result ≡ in_use_for method self.now.kept.items }
    {
        let found = self
            .kept
            .iter()
            .find(|code| code.is_in_use && code.method == method)?;
        Some(found.serial)
    }

    /// The lane of the code in use for a method, if there is one.
    pub(crate) fn lane_of(&self, method: u64) -> Option<Lane> {
        self.lane(self.current(method)?)
    }

    /// Installs this code for the method. The code that was in use for it becomes not entrant.
    pub(crate) fn install(
        &mut self,
        painted: &mut Painted,
        method: u64,
        serial: u64,
        at: u64,
    ) -> Result<Lane, AllocError> {
        let replaced = self.current(method);
        if let Some(old) = replaced {
            self.leave(painted, old, at)?;
        }
        let row = self.rows.vacant(at);
        self.rows.begin(painted, row, serial, Paint::InUse, at)?;
        self.kept.push(Kept {
            serial,
            method,
            replaced,
            row,
            is_in_use: true,
        })?;
        Ok(self.rows.lane(row))
    }

    // The code is no longer in use.
    fn leave(&mut self, painted: &mut Painted, serial: u64, at: u64) -> Result<(), AllocError> {
        let Some(place) = self.find(serial) else {
            return Ok(());
        };
        let Some(code) = self.kept.get_mut(place) else {
            return Ok(());
        };
        code.is_in_use = false;
        let row = code.row;
        self.rows.turn(painted, row, Some(Paint::NotEntrant), at)
    }

    // Frees the lane of the code at this position of the list.
    fn end(&mut self, painted: &mut Painted, place: usize, at: u64) -> Result<(), AllocError> {
        if place >= self.kept.len() {
            return Ok(());
        }
        let code = self.kept.remove(place);
        let name = Name::Code {
            serial: code.serial,
            method: code.method,
            replaced: code.replaced,
        };
        painted.add_life(
            self.rows.lane(code.row),
            name,
            self.rows.begun(code.row),
            at,
        )?;
        self.rows.turn(painted, code.row, None, at)
    }

    /// Shows what the event did to the code, by its answer.
    pub(crate) fn follow(
        &mut self,
        painted: &mut Painted,
        serial: u64,
        touch: Touch,
        answer: &Answer,
        at: u64,
    ) -> Result<(), AllocError> {
        let Some(place) = self.find(serial) else {
            return Ok(());
        };
        match (touch, answer) {
            (Touch::Invalidate, _) => self.leave(painted, serial, at),
            (Touch::Weigh, Answer::Retired) => self.retire(painted, place, at),
            (Touch::Free, _) => self.end(painted, place, at),
            _ => Ok(()),
        }
    }

    fn retire(&mut self, painted: &mut Painted, place: usize, at: u64) -> Result<(), AllocError> {
        match self.kept.get(place) {
            None => Ok(()),
            Some(code) => {
                let row = code.row;
                self.rows.turn(painted, row, Some(Paint::Zombie), at)
            }
        }
    }

    /// Ends the bars and names after the last line.
    pub(crate) fn finish(&mut self, painted: &mut Painted, at: u64) -> Result<(), AllocError> {
        for _ in 0..self.kept.len() {
            self.end(painted, 0, at)?;
        }
        Ok(())
    }
}
