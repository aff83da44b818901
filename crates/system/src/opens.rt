// The open operations, in a list that never grows its memory.
ghost use Rattle.std.specs.Prelude.{◌≡◌, ◌==◌, [], ◌∷◌, ◌++◌, ◌<◌, length, IfOk, remove, slice_get, option_copied};
ghost use Rattle.std.specs.List.{position};
ghost use Rattle.system.specs.Kept.Censuses.{operated};
ghost use Rattle.system.specs.Kept.Opening.{place_of};

use crate::requests::Open;
use std::alloc::{AllocError, Global};
use std::marker::Model;

/// How many operations can be open.
pub const OPEN: usize = 4;

/// The open operations, the oldest first. Memory for four is reserved at the start.
#[derive(Drop)]
pub struct Opens {
    items: Vec<Open>,
}

impl Model for Opens {
    ghost use Rattle.std.specs.Prelude.{List, ◌≤◌, vec_len, vec_capacity};
    ghost use Rattle.system.specs.declared.requests.Open.{Open};

    ghost Value = { List Open };

    ghost view = { λ o. o.items.items };

    ghost invariant = { λ o. (vec_len o.items ≤ 4) × (4 ≤ vec_capacity o.items) };
}

impl Opens {
    pub fn new(alloc: Global) -> Result<Opens, AllocError>
        ensures { IfOk result (λ opens. opens ≡ []) }
    {
        Ok(Opens {
            items: Vec::with_capacity(alloc, OPEN)?,
        })
    }

    pub fn as_slice(&self) -> &[Open]
        ensures { result.now ≡ self.now }
    {
        &self.items
    }

    /// Returns the operation that was opened first.
    pub fn oldest(&self) -> Option<&Open>
        ensures { option_copied result ≡ slice_get self.now 0 }
    {
        self.items.first()
    }

    /// Returns the index of the operation of this number, or without a number the index of the oldest.
    pub fn place_of(&self, number: Option<u64>) -> Option<usize>
        ensures { result ≡ place_of number self.now }
    {
        match number {
            None => Some(0),
            Some(number) => self.position(number),
        }
    }

    fn position(&self, number: u64) -> Option<usize>
        ensures { result ≡ position (λ o. o.number == number) self.now }
    {
        self.items.iter().position(|open| open.number == number)
    }

    /// Adds an operation. Doesn't allocate.
    pub fn push(&mut self, open: Open)
        requires { length self.old < 4 }
        ensures { self.new ≡ self.old ++ «open» ∷ [] }
    {
        self.items.push_reserved(open);
    }

    /// Removes the operation at this index.
    pub fn take(&mut self, at: usize)
        requires { at < length self.old }
        ensures { self.new ≡ remove self.old at }
    {
        let _closed = self.items.remove(at);
    }

    /// Marks the oldest operation, which is a census, as operated.
    pub fn set_operated(&mut self)
        ensures { self.new ≡ operated self.old }
    {
        if !self.items.is_empty() {
            self.items[0].operated = true;
        }
    }
}
