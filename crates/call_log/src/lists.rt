//! The lists in an entry.
ghost use Rattle.std.specs.Prelude.{◌≡◌};

use std::marker::Model;

/// Items in their order.
#[derive(Debug, Drop)]
pub struct Items<T> {
    items: Vec<T>,
}

impl<T> Model for Items<T> {
    ghost use Rattle.std.specs.Prelude.{List};

    ghost Value = { List T };

    ghost view = { λ l. l.items.items };
}

impl<T> Items<T> {
    pub fn from_vec(items: Vec<T>) -> Items<T>
        ensures { result ≡ items.items }
    {
        Items { items }
    }

    pub fn as_slice(&self) -> &[T]
        ensures { result.now ≡ self.now }
    {
        self.items.as_slice()
    }
}

/// Numbers in their order.
pub type Numbers = Items<u64>;

/// A job that ran during a call: its operation, its thread, its reply, and a ticket that was drawn when it ran.
#[derive(Clone, Copy, Debug, PartialEq, Eq, Drop)]
pub struct Job {
    pub op: u64,
    pub name: u64,
    pub reply: u64,
    pub ticket: u64,
}

/// Jobs in the order in which they ran.
pub type Jobs = Items<Job>;
