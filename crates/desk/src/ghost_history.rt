//! The entries of a history. They exist only in proofs and take no memory.
ghost use Rattle.std.specs.Prelude.{◌≡◌, ◌++◌, ◌∷◌, [], List};
ghost use Rattle.desk.specs.declared.entries.Entry.{Entry as EntryOf};
ghost use Rattle.desk.specs.Stored.{entries_code};
ghost use base.Fml.{ftrue};

use crate::entries::Entry;
use std::marker::Model;
use std::snapshot::Snapshot;

/// The entries so far, in their order.
#[derive(Drop)]
pub struct Past {
    pub ghost entries: { List EntryOf } by { entries_code },
}

impl Model for Past {
    ghost also_owns = { λ _. ftrue };
}

impl Past {
    pub fn new() -> Past
        ensures { result.entries ≡ [] }
    {
        Past {}
    }

    /// Returns the history with this entry appended.
    pub fn then(&self, _entry: &Snapshot<Entry>) -> Past
        ensures { result.entries ≡ self.now.entries ++ _entry.now.value ∷ [] }
    {
        Past {}
    }
}
