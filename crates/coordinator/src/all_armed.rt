//! The evidence that all targets are armed. Serving takes it, so that all targets are armed before any is served.
ghost use Rattle.std.specs.Prelude.{◌≡◌};
ghost use Rattle.desk.specs.Fields.{at};
ghost use Rattle.coordinator_core.specs.Telling.{IsAllTold};

use bodies::Name;
use desk::Desk;
use operations::job::HandshakeOp;
use std::marker::Model;
use std::snapshot::Snapshot;
use stopped_threads::{PollArmer, ServeKey};

/// Evidence that each thread that was due for an open request was armed for all that was open then. It can be made only
/// if that holds. Contracts see the desk at that time.
#[derive(Drop)]
pub struct AllArmed<N: Name, J: HandshakeOp> {
    seen: Snapshot<Desk<N, J>>,
    armer: Snapshot<PollArmer>,
}

impl<N: Name, J: HandshakeOp> Model for AllArmed<N, J> {
    ghost use Rattle.desk.specs.Fields.{DeskSeen, at};
    ghost use Rattle.coordinator_core.specs.Telling.{IsAllTold};

    ghost Value = { DeskSeen };

    ghost view = { λ a. a.seen.value };

    ghost invariant = { λ a. IsAllTold (at a.seen.value) a.armer.value.seen };
}

impl<N: Name, J: HandshakeOp> ServeKey for AllArmed<N, J> {}

impl<N: Name, J: HandshakeOp> AllArmed<N, J> {
    /// Makes the evidence of the desk at the look and the armer after it.
    #[inline(always)]
    pub fn of(seen: Snapshot<Desk<N, J>>, armer: &PollArmer) -> AllArmed<N, J>
        requires told { IsAllTold (at seen.value) armer.now.seen }
        ensures { result ≡ seen.value }
    {
        AllArmed {
            seen,
            armer: Snapshot::of(armer),
        }
    }
}
