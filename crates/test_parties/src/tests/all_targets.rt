//! Requests of all that live.
use crate::tests::rows::play;
use std::test::*;

const ALL: &str = "
    a start = 1; b start = 2; a to_native, b to_native = 0

    # All that live when the request is submitted are its targets, and no names are.
    k target 7, k target_all, k target 7 = 0; k submit depth = 1
    c advance = Runs; c called_place = 0
    c advance = Runs; c called_place = 1
    c advance = 1
    k reply 1 1, k reply 1 2 = 0

    # A further request has no targets.
    k submit depth = Ask(NoTargets)

    # A thread that is gone is no target.
    b from_native, b exit, k target_all = 0; k submit depth = 2
    c advance = Runs; c called_place = 0
    c advance = 2
    k reply 2 2 = NotAnswered

    # They stay where the request is made again.
    k target_all = 0
    while desk: k submit depth = Again
    k submit top = 3
    c advance = Runs; c advance = 3
";

#[test]
fn all_that_live_are_targets(rt: HostRuntime) -> Result<(), Fail> {
    play(&rt, rt.alloc(), [2, 1, 1], ALL)
}

const RECLAIMED: &str = "
    a start = 1; a to_native = 0
    k install 0 = 1; k invalidate 1, k target_all = 0; k reclaim 1 = 1
    c advance = Runs; c advance = 1
    c weigh 1 = 0

    # Where nobody lives, nobody is asked.
    a from_native, a exit = 0
    k install 0 = 2; k invalidate 2, k target_all, k reclaim 2, c weigh 2 = 0
    k target_all = 0; k submit depth = Ask(NoTargets)
";

#[test]
fn a_reclaiming_asks_all_that_live(rt: HostRuntime) -> Result<(), Fail> {
    play(&rt, rt.alloc(), [1, 2, 1], RECLAIMED)
}

const PENDING: &str = "
    a start = 1; k pending = 0
    k submit depth of 1, k pending = 1; k submit depth of 1 = 2
    k pending, c open, k pending, c open_kind = 1
    k reply 1 1, k reply 2 1, k reply 3 1 = Pending
    a to_native = 0; c advance = Runs; c advance = 1
    k pending = 2; k reply 1 1 = 0; k reply 1 2 = NotAnswered
    c advance = Runs; c advance = 2
    k pending = 0
    while desk: k pending = Again
";

#[test]
fn what_is_pending_is_told(rt: HostRuntime) -> Result<(), Fail> {
    play(&rt, rt.alloc(), [1, 1, 1], PENDING)
}
