//! The evidence of a Finish.
ghost use Rattle.std.specs.Prelude.{◌≡◌};

use crate::log::Receipt;
use bodies::{Body, Name};
use operations::Ask;
use std::marker::Model;
use std::snapshot::Snapshot;

/// Evidence of a Finish in the history of N's desk, with the operation's ask and the body on which the job ran, as the
/// body was at the entry, before the operation is cleared for it. Only the desk makes it, when it enters the Finish. It
/// can't be copied.
#[derive(Drop)]
pub struct Finished<N: Name> {
    receipt: Receipt<N>,
    ask: Snapshot<Ask>,
    body: Snapshot<Body<N>>,
}

impl<N: Name> Model for Finished<N> {
    ghost use Rattle.desk.specs.Finishing.{FinishSeen};

    ghost Value = { FinishSeen };

    ghost view = { λ f. record { stands = f.receipt; ask = f.ask.value; body = f.body.value } };
}

impl<N: Name> Finished<N> {
    #[inline(always)]
    pub(crate) fn of(receipt: Receipt<N>, ask: Ask, body: &Body<N>) -> Finished<N>
        ensures stands { result.stands ≡ receipt }
        ensures seen { (result.ask ≡ ask) × (result.body ≡ body.now) }
    {
        Finished {
            receipt,
            ask: Snapshot::of(&ask),
            body: Snapshot::of(body),
        }
    }

    /// Returns the receipt of the entry.
    pub fn receipt(self) -> Receipt<N>
        ensures { result ≡ self.stands }
    {
        self.receipt
    }
}
