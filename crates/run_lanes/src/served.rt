// The progress of each thread with the open operations. For each thread, Tells, Finishes and Clears come in the order of the operations'
// numbers.
ghost use Rattle.std.specs.Prelude.{◌≡◌, ℕ, [], Some, OnOk, slice_get, slice_set};
ghost use Rattle.run_lanes.specs.declared.served.Served.{Served as ServedOf};
ghost use Rattle.run_lanes.specs.Served.{fresh, served_at, wide};

use crate::widening::widen;
use std::alloc::{AllocError, Global};

/// For one thread the greatest numbers of the operations that were told to it (a Tell armed its poll), whose callback ran, and that were
/// cleared for it; 0 before the first.
#[derive(Clone, Copy, Drop)]
pub(crate) struct Served {
    pub(crate) told: u64,
    pub(crate) done: u64,
    pub(crate) cleared: u64,
}

const FRESH: Served = Served {
    told: 0,
    done: 0,
    cleared: 0,
};

/// The progress of the threads at all places.
#[derive(Drop)]
pub(crate) struct AllServed {
    places: Vec<Served>,
}

impl AllServed {
    pub(crate) fn new(alloc: Global) -> AllServed
        ensures { result.places.items ≡ [] }
    {
        AllServed {
            places: Vec::new(alloc),
        }
    }

    /// The progress of the thread at a place.
    pub(crate) fn at(&self, place: usize) -> Served
        ensures { result ≡ served_at self.now.places.items place }
    {
        match self.places.get(place) {
            Some(served) => *served,
            None => FRESH,
        }
    }

    /// A thread starts at the place: its progress is fresh.
    pub(crate) fn start(&mut self, place: usize) -> Result<(), AllocError>
        ensures { OnOk result ((kept : ServedOf)
            → slice_get (wide place self.old.places.items) place ≡ Some kept
            → self.new.places.items ≡ slice_set (wide place self.old.places.items) place fresh) }
    {
        widen(&mut self.places, place, FRESH)?;
        self.set(place, FRESH);
        Ok(())
    }

    /// Sets the progress of the thread at the place.
    pub(crate) fn set(&mut self, place: usize, served: Served)
        ensures { (kept : ServedOf) → slice_get self.old.places.items place ≡ Some kept
            → self.new.places.items ≡ slice_set self.old.places.items place served }
    {
        if let Some(kept) = self.places.get_mut(place) {
            *kept = served;
        }
    }
}
