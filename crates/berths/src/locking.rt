//! Inlined locking, and a lock that shows which value was put under it.
ghost use Rattle.std.specs.Prelude.{◌≡◌};

use std::marker::Model;
use std::snapshot::Snapshot;
use std::sync::{Mutex, MutexGuard, Wait};

/// Takes a lock, inline if it is free. It nearly always is, and a call costs as much again as the step itself. This is a macro because the
/// program looks at a word in memory after each call of a function that may wait, even if that call is inlined.
#[macro_export]
macro_rules! locked {
    ($mutex:expr, $rt:expr) => {
        match $mutex.try_lock() {
            Some(guard) => guard,
            None => $mutex.lock($rt),
        }
    };
}

/// A value under a lock. Only code that may wait takes the lock, so the code that made the lock can't change the value any more.
#[derive(Drop)]
pub struct Guarded<T> {
    mutex: Mutex<T>,
}

/// The value as it was when it went under its lock. Only `Guarded::new` makes one. Contracts see the value.
#[derive(Drop)]
pub struct Laid<T> {
    value: Snapshot<T>,
}

impl<T> Model for Laid<T> {
    ghost Value = { T };

    ghost view = { λ l. l.value.value };
}

impl<T> Guarded<T> {
    /// Puts the value under a lock of its own. Also returns what the value was.
    pub fn new(value: T) -> (Guarded<T>, Laid<T>)
        ensures { result.1 ≡ value }
    {
        let laid = Laid {
            value: Snapshot::of(&value),
        };
        let guarded = Guarded {
            mutex: Mutex::new(value),
        };
        (guarded, laid)
    }

    /// Takes the lock.
    pub fn lock<R: Wait>(&self, rt: &R) -> MutexGuard<'_, T> {
        self.mutex.lock(rt)
    }

    /// Takes the lock if it is free.
    #[inline(always)]
    pub fn try_lock(&self) -> Option<MutexGuard<'_, T>> {
        self.mutex.try_lock()
    }
}
