//! The evidence of a weighing.
ghost use Rattle.std.specs.Prelude.{◌≡◌};

use crate::log::Length;
use board::Weighed;
use bodies::Name;
use std::marker::Model;
use std::snapshot::Snapshot;

/// Evidence that N's desk weighed a code: its serial, the result, and the length of the history then. Only the desk
/// makes it, when it weighs. It can't be copied.
#[derive(Drop)]
pub struct Weighing<N: Name> {
    serial: Snapshot<u64>,
    said: Snapshot<Weighed>,
    length: Length<N>,
}

impl<N: Name> Model for Weighing<N> {
    ghost use Rattle.desk.specs.Weighings.{WeighingSeen};

    ghost Value = { WeighingSeen };

    ghost view = { λ w. record {
      serial = w.serial.value;
      said = w.said.value;
      length = w.length;
    } };
}

impl<N: Name> Weighing<N> {
    pub(crate) fn of(serial: u64, said: &Weighed, length: Length<N>) -> Weighing<N>
        ensures { result ≡ record { serial = serial; said = said.now; length = length } }
    {
        Weighing {
            serial: Snapshot::of(&serial),
            said: Snapshot::of(said),
            length,
        }
    }
}
