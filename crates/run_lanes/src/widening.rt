// Lists that grow so that a position exists.
ghost use Rattle.std.specs.Prelude.{◌≡◌, OnOk};
ghost use Rattle.run_lanes.specs.Widening.{widened};

use std::alloc::AllocError;

/// Extends the list with blanks so that this position exists.
pub(crate) fn widen<T: Copy>(list: &mut Vec<T>, at: usize, blank: T) -> Result<(), AllocError>
    ensures { OnOk result (list.new.items ≡ widened blank at list.old.items) }
{
    if at < list.len() {
        return Ok(());
    }
    match at.checked_add(1) {
        Some(all) => list.resize(all, blank),
        None => Err(AllocError),
    }
}
