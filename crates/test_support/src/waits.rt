//! How tests with running threads wait for one another.
use std::sync::Wait;
use std::sync::atomic::{AtomicBool, AtomicU64, Ordering};
use std::thread;

// The most looks of one wait.
const LOOKS: u32 = 1_000_000;

/// Looks until a look says how the wait ended, at most `LOOKS` times. Returns whether it ended well.
pub fn wait_until<F: FnMut() -> Option<bool>>(look: F) -> bool
    requires { F.IsAlwaysCallable look }
{
    let mut look = look;
    for _ in 0..LOOKS {
        if let Some(went_well) = look() {
            return went_well;
        }
        thread::yield_now();
    }
    false
}

/// Waits until other threads have advanced `turn` to `far`. Returns whether they have.
pub fn wait_for(far: u64, turn: &AtomicU64) -> bool {
    wait_until(|| if turn.load(Ordering::SeqCst) >= far {
        Some(true)
    } else {
        None
    })
}

/// Takes turns until all is done, at least one. Returns whether each turn went well; a turn that fails is the last.
pub fn take_turns<R: Wait, F: FnMut() -> bool>(rt: &R, done: &AtomicBool, turn: F) -> bool
    requires { F.IsAlwaysCallable turn }
{
    let mut turn = turn;
    for _ in rt.forever() {
        if !turn() {
            return false;
        }
        if done.load(Ordering::SeqCst) {
            return true;
        }
        thread::yield_now();
    }
    unreachable!()
}
