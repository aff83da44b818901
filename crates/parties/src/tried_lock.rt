//! A value under a lock that is only tried: a thread that finds it taken is refused at once. Nothing waits.
ghost use Rattle.std.specs.Prelude.{◌≡◌, ◌<◌, ◌∷◌, [], Some, None};

use crate::lock_rule::{FREE, LockLaw, PutsBack, TAKEN, Tries, WORD, WORDS};
use atomic_table::{Seat, Table};
use std::alloc::{AllocError, Global};
use std::marker::Model;

/// A value for one thread at a time. Contracts see which lock it is.
#[derive(Drop)]
pub struct TriedLock<T: Drop> {
    table: Table<Option<T>, (), (), LockLaw, Global>,
}

impl<T: Drop> Model for TriedLock<T> {
    ghost use Rattle.std.specs.Prelude.{◌≡◌};
    ghost use Rattle.atomic_table.specs.Seated.{TableId};

    ghost Value = { TableId };

    ghost view = { λ l. l.table.shared.table_id };

    ghost invariant = { λ l. (l.table.shared.table_id.words ≡ 15)
        × (l.table.shared.table_id.slots ≡ 1) };
}

/// Has the value of a lock, and puts it back when it is dropped.
pub struct Guard<'m, T: Drop> {
    lock: &'m TriedLock<T>,
    key: Key<T>,
    pub value: T,
    ghost is_of: { key ≡ lock.now },
}

// The right to put a value into the empty slot of its lock.
struct Key<T> {
    seat: Seat<Option<T>, ()>,
}

impl<T> Model for Key<T> {
    ghost use Rattle.std.specs.Prelude.{◌≡◌, ◌∷◌, [], None};
    ghost use Rattle.atomic_table.specs.Seated.{TableId};

    ghost Value = { TableId };

    ghost view = { λ k. k.seat.table_id };

    ghost invariant = { λ k. k.seat.me.1 ≡ (0, None) ∷ [] };
}

impl<T: Drop> TriedLock<T> {
    /// Makes a free lock. Refused only if memory is refused. Nothing else allocates.
    pub fn new(alloc: Global, value: T) -> Result<TriedLock<T>, AllocError> {
        let words = vec![in alloc; FREE; WORDS]?;
        let mut slots = Vec::with_capacity(alloc, 1)?;
        slots.push_reserved(Some(value));
        match Table::new(alloc, words.as_slice(), slots, &()) {
            Ok((table, _)) => Ok(TriedLock { table }),
            Err(_) => Err(AllocError),
        }
    }

    /// Returns the value, unless another thread has it. Costs one swap, and one store when the value is put back.
    #[inline(always)]
    pub fn try_lock(&self) -> Option<Guard<'_, T>> {
        let (found, seat) = self.table.shared.swap_new_seat::<Tries>(WORD, TAKEN);
        if found != FREE {
            return None;
        }
        let mut seat = seat;
        let Some(value) = self.table.shared.exchange(&mut seat, 0, None) else {
            unreachable!()
        };
        Some(Guard {
            lock: self,
            key: Key { seat },
            value,
        })
    }

    #[inline(always)]
    fn put(&self, key: Key<T>, value: T)
        requires { key ≡ self.now }
    {
        let Key { mut seat } = key;
        let None = self.table.shared.exchange(&mut seat, 0, Some(value)) else {
            unreachable!()
        };
        self.table.shared.store::<PutsBack>(&mut seat, WORD, FREE);
    }
}

impl<'m, T: Drop> Drop for Guard<'m, T> {
    fn drop(self) {
        let Guard { lock, key, value } = self;
        lock.put(key, value);
    }
}
