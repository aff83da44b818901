ghost use Rattle.std.specs.Prelude.{◌≡◌, []};

use crate::fault::{Fault, ScriptFault};
use crate::place::Place;
use std::alloc::Global;
use std::mem;

/// The place of a reader in the document, and how many items it has read.
#[derive(Drop)]
pub struct Walk {
    pub alloc: Global,
    pub place: Place,
    pub items: usize,
}

impl Walk {
    ghost use Rattle.script.specs.declared.fault.ScriptFault.TheVariants.{Refused};

    pub fn new(alloc: Global) -> Walk
        ensures place { result.place ≡ [] }
        ensures items { result.items ≡ 0 }
    {
        Walk {
            alloc,
            place: Place::document(alloc),
            items: 0,
        }
    }

    /// That fault at this place. It takes no memory.
    pub fn refuse(&mut self, fault: Fault) -> ScriptFault
        ensures fault { result ≡ Refused fault self.old.place }
        ensures items { self.new.items ≡ self.old.items }
    {
        let place = mem::replace(&mut self.place, Place::document(self.alloc));
        ScriptFault::Refused { fault, place }
    }
}
