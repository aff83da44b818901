//! The rule of a lock: while its word is 0, its value is in its slot.
ghost use Rattle.parties.specs.Locked.{IsLock, Tried};

use atomic_table::{Play, TableRule};

// The lock's word is in the middle of a block of words, so that its cache line has nothing else.
pub(crate) const WORDS: usize = 15;

pub(crate) const WORD: usize = 7;

pub(crate) const FREE: u64 = 0;

pub(crate) const TAKEN: u64 = 1;

pub(crate) struct LockLaw;

impl<T> TableRule<Option<T>, (), ()> for LockLaw {
    ghost holds = { λ _ s. IsLock s };

    ghost first = { λ _. tt };
}

// A thread that finds the lock free has its value.
pub(crate) struct Tries;

impl<T> Play<Option<T>, ()> for Tries {
    ghost then = { λ _ _ found after. Tried found after.1 };
}

// The value is in its slot again.
pub(crate) struct PutsBack;

impl<T> Play<Option<T>, ()> for PutsBack {
    ghost then = { λ _ _ _ _. Unit {0} };
}
