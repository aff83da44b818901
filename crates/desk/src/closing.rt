//! The evidence of a Close.
ghost use Rattle.std.specs.Prelude.{◌≡◌};

use crate::log::Receipt;
use bodies::Name;
use operations::Kind;
use std::marker::Model;
use std::snapshot::Snapshot;

/// Evidence of a Close in the history of N's desk, with the kind of the closed request and the number of the oldest
/// request open then, which may be the closed one. Only the desk makes it, when it enters the Close. It can't be
/// copied.
#[derive(Drop)]
pub struct Closing<N: Name> {
    receipt: Receipt<N>,
    kind: Snapshot<Kind>,
    oldest: Snapshot<u64>,
}

impl<N: Name> Model for Closing<N> {
    ghost use Rattle.desk.specs.Closings.{ClosingSeen};

    ghost Value = { ClosingSeen };

    ghost view = { λ c. record {
      stands = c.receipt;
      kind = c.kind.value;
      oldest = c.oldest.value;
    } };
}

impl<N: Name> Closing<N> {
    pub(crate) fn of(receipt: Receipt<N>, kind: Kind, oldest: u64) -> Closing<N>
        ensures { result ≡ record { stands = receipt; kind = kind; oldest = oldest } }
    {
        Closing {
            receipt,
            kind: Snapshot::of(&kind),
            oldest: Snapshot::of(&oldest),
        }
    }

    /// Returns the receipt of the entry.
    pub fn receipt(self) -> Receipt<N>
        ensures { result ≡ self.stands }
    {
        self.receipt
    }
}
