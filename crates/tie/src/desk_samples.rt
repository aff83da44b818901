//! The entries of worked runs, computed on the definitions.
ghost use Rattle.tie.specs.DeskSamples.{FourHandshakes, FirstIsDone, DoneStandsForCleared, Safepoint, InstallOver, StartedAfterOpen, ReclaimedAfterUse, OwnLiveTargets};

/// Four handshakes, closed out of order, with the replies to each.
pub fn entries_of_four_handshakes()
    ensures { FourHandshakes }
{}

/// The desk in the middle of this run: where the core waits for a Clear, the desk only needs the Finish.
pub fn desk_of_four_handshakes()
    ensures { FirstIsDone }
{}

/// A census makes an Operate entry, and no thread's Finish.
pub fn entries_of_a_safepoint()
    ensures { Safepoint }
{}

/// An Install over code in use makes an Invalidate and an Install.
pub fn entries_of_installs_over()
    ensures { InstallOver }
{}

/// An operation doesn't wait for a thread that starts after its Open.
pub fn entries_with_a_late_target()
    ensures { StartedAfterOpen }
{}

/// The whole life of a code.
pub fn entries_of_a_reclaimed_code()
    ensures { ReclaimedAfterUse }
{}

/// Each open operation has its own live targets.
pub fn entries_of_own_live_targets()
    ensures { OwnLiveTargets }
{}

/// After a Finish and before its Clear, the desk may close the operation and the core may not.
pub fn done_stands_for_cleared()
    ensures { DoneStandsForCleared }
{}
