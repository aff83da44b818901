//! Checks that parties may move between threads, and that threads may share a lock.
ghost use Rattle.std.specs.Prelude.{◌≡◌};

use crate::party::Party;
use crate::tried_lock::TriedLock;
use bodies::Name;

// Compiles only for values that may move to another thread.
fn crosses<T: Send>(value: T) -> T
    ensures { result ≡ value }
{
    value
}

/// Returns the party. It may move to another thread while others share its system.
pub fn party_crosses<N: Name + Send + Sync>(party: Party<N>) -> Party<N>
    ensures { result ≡ party }
{
    crosses(party)
}

// Compiles only for locks that threads may share.
fn shares<L: Sync>(lock: &L) -> &L
    ensures { result.now ≡ lock.now }
{
    lock
}

/// Returns the lock. Threads may share it if its value may move between them, even if they may not share the value.
pub fn lock_is_shared<T: Drop + Send>(lock: &TriedLock<T>) -> &TriedLock<T>
    ensures { result.now ≡ lock.now }
{
    shares(lock)
}
