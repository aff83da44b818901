//! Why a run fails.
ghost use Rattle.std.specs.Prelude.{◌≡◌};
ghost use Rattle.workers.specs.declared.fault.RunFault.TheVariants as faults;

use std::alloc::AllocError;

/// Why a run failed. None of its threads runs any more.
#[derive(Clone, Copy, PartialEq, Eq, Debug, Drop)]
pub enum RunFault {
    NoMemory,
    /// No thread could be made.
    NoThread,
    /// A call was refused, although the calls before it make that impossible. No clause excludes it, since contracts don't know the
    /// state that a lock guards.
    Refused,
}

impl From<AllocError> for RunFault {
    ghost from_gives = { λ error made. made ≡ faults.NoMemory };

    fn from(_error: AllocError) -> RunFault {
        RunFault::NoMemory
    }
}
