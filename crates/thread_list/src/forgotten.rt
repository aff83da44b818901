//! What a desk forgot under its lock.
ghost use Rattle.std.specs.Prelude.{◌≡◌};

use bodies::Name;
use desk::Desk;
use operations::job::HandshakeOp;
use std::marker::Model;
use std::snapshot::Snapshot;

/// The receipt that a desk forgot all earlier entries. Contracts see the desk before and after.
#[derive(Drop)]
pub struct Forgotten<N: Name, J: HandshakeOp> {
    before: Snapshot<Desk<N, J>>,
    after: Snapshot<Desk<N, J>>,
}

impl<N: Name, J: HandshakeOp> Model for Forgotten<N, J> {
    ghost use Rattle.thread_list.specs.Forgets.{Forgetting, Forgets};

    ghost Value = { Forgetting };

    ghost view = { λ f. record { before = f.before.value; after = f.after.value } };

    ghost invariant = { λ f. Forgets (record { before = f.before.value; after = f.after.value }) };
}

impl<N: Name, J: HandshakeOp> Forgotten<N, J> {
    /// Makes the desk forget, and keeps the receipt.
    pub(crate) fn of(desk: &mut Desk<N, J>) -> Forgotten<N, J>
        ensures { (result.before ≡ desk.old) × (result.after ≡ desk.new) }
    {
        let before = Snapshot::of(desk);
        desk.forget();
        let after = Snapshot::of(desk);
        Forgotten { before, after }
    }
}
