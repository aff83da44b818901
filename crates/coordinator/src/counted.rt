//! The counts of a census.
ghost use Rattle.std.specs.Prelude.{◌≡◌, ℕ, IfSome};

use bodies::Name;
use desk::Operating;
use std::marker::Model;

/// The list of a census, with its number and the receipt of its Operate, unless the caller had operated it.
#[derive(Drop)]
pub struct Counted<N: Name> {
    pub(crate) list: Vec<(u64, u32)>,
    pub(crate) operated: Option<(u64, Operating<N>)>,
}

impl<N: Name> Model for Counted<N> {
    ghost use Rattle.coordinator.specs.Driving.{CountedSeen};

    ghost Value = { CountedSeen };

    ghost view = { λ c. record { list = c.list.items; operated = c.operated } };
}

impl<N: Name> Counted<N> {
    /// Returns the number of the census if it was operated for this list.
    pub fn number(&self) -> Option<u64>
        ensures { (m : ℕ) → IfSome result (λ n. m ≡ n) → IfSome self.now.operated (λ o. o.0 ≡ m) }
    {
        match &self.operated {
            Some((number, _)) => Some(*number),
            None => None,
        }
    }
}
