//! The state of a coordinator, and the Close of a request.
ghost use Rattle.std.specs.Prelude.{◌≡◌, false, IfOk, IfErr, OnOk};
ghost use Rattle.poll.specs.Rows.{full_armer};
ghost use Rattle.desk.specs.declared.entries.Entry.{Entry};
ghost use Rattle.desk.specs.Fields.{Enters, at};
ghost use Rattle.desk.specs.JobsFit.{jobs_closed};
ghost use Rattle.desk.specs.Refusals.{close_refused};
ghost use Rattle.stopped_threads.specs.Holding.{held_nothing};
ghost use Rattle.stopped_threads.specs.Refused.{MayCloseIn};

use bodies::Name;
use desk::{CloseFault, Closing, Desk};
use operations::job::HandshakeOp;
use poll::{Armer, PollRow};
use std::alloc::{AllocError, Global};
use std::marker::Model;
use stopped_threads::{HeldBodies, PollArmer};

/// The state of a coordinator: the held bodies, the armer of places, and whether the open census is operated.
#[derive(Drop)]
pub struct CoordinatorCore<N: Name> {
    pub(crate) armer: PollArmer,
    pub(crate) places: usize,
    pub(crate) bodies: HeldBodies<N>,
    pub(crate) operated: bool,
}

impl<N: Name> Model for CoordinatorCore<N> {
    ghost use Rattle.std.specs.Prelude.{◌≡◌, ◌≤◌, length};
    ghost use Rattle.stopped_threads.specs.Holding.{Holding};

    ghost Value = { Holding };

    ghost view = { λ c. record { held = c.bodies; armer = c.armer.seen; operated = c.operated } };

    ghost invariant = { λ c. (c.armer.table ≡ N.poll_row) × (c.places ≡ length c.armer.seen.armed)
        × (c.places ≡ N.board.places) × (c.places ≤ 64) };
}

impl<N: Name> CoordinatorCore<N> {
    /// Makes a coordinator that holds no body.
    ///
    /// # Errors
    /// Memory is refused.
    pub fn new(alloc: Global, armer: Armer, row: &PollRow) -> Result<CoordinatorCore<N>, AllocError>
        requires armer { armer ≡ full_armer N.poll_row N.board.places }
        requires row { row.now ≡ N.poll_row }
        ensures made { IfOk result (λ c. c ≡ held_nothing N.poll_row N.board.places) }
    {
        let places = armer.places(row);
        let Ok((bodies, teller)) = HeldBodies::with_armer(alloc, places, armer) else {
            return Err(AllocError);
        };
        Ok(CoordinatorCore {
            armer: teller,
            places,
            bodies,
            operated: false,
        })
    }

    /// Returns the number of places.
    pub fn places(&self) -> usize
        ensures { result ≡ N.board.places }
    {
        let _ = &self.bodies;
        self.places
    }

    /// Closes the open request of this number, or without a number the oldest, and drops the jobs of targets that are
    /// gone. Returns the request's number and the receipt of the Close. Refusals in the order of `CloseFault`.
    pub fn close<J: HandshakeOp>(
        &mut self,
        desk: &mut Desk<N, J>,
        number: Option<u64>,
    ) -> Result<(u64, Closing<N>), CloseFault>
        ensures closed { IfOk result
            (λ r. Enters desk.old desk.new (Entry.Close r.0) r.1.stands
            × MayCloseIn (at desk.old) self.old number r.0) }
        ensures same { OnOk result (self.new ≡ record self.old { operated = false }) }
        ensures jobs { IfOk result
            (λ r. (desk.new.jobs ≡ jobs_closed r.0 desk.old.jobs)
            × (desk.new.keeper ≡ desk.old.keeper)) }
        ensures refused { IfErr result
            (λ e. close_refused (at desk.old) number self.old.held e × (desk.new ≡ desk.old)
            × (self.new ≡ self.old)) }
    {
        match desk.close(number, self.bodies.as_slice()) {
            Ok((op, jobs, receipt)) => {
                drop(jobs);
                self.operated = false;
                Ok((op, receipt))
            }
            Err(fault) => Err(fault),
        }
    }
}
