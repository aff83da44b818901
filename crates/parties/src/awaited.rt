//! Finds a thread that the coordinator's work waits for.
ghost use Rattle.std.specs.Prelude.{◌≡◌};
ghost use Rattle.parties.specs.Acted.{awaited_after};

use bodies::Name;
use coordinator_core::CoordinatorCore;
use desk::Live;

/// Returns the first due thread with a greater name that isn't held.
pub(crate) fn awaited_after<N: Name>(
    due: &[Live],
    keeps: &CoordinatorCore<N>,
    name: u64,
) -> Option<Live>
    ensures { result ≡ awaited_after keeps.now.held name due.now }
{
    let mut rest = due;
    while let Some((one, others)) = rest.split_first() {
        if name < one.name && !keeps.holds(one.place) {
            return Some(*one);
        }
        rest = others;
    }
    None
}
