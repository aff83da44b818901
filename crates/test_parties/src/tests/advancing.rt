//! The work on the open requests, advanced.
use crate::tests::rows::play;
use std::test::*;

const NATIVE: &str = "
    c advance = Open(QueueEmpty); k advance = NotThis
    a start = 1; b start = 2; a to_native, b to_native = 0
    k submit depth of 1 2 = 1
    c called_operation, c called_place, c awaited, k called_operation, k awaited = 0

    # Each target is served in its place, one after the other, and is held until then.
    c advance = Runs; c called_operation = 1; c called_place = 0
    k reply 1 1 = Pending; a from_native = Again
    c advance = Runs; k reply 1 1 = 0
    c called_operation, c called_place = 1
    a from_native = 0
    c advance = 1
    k reply 1 2, b from_native = 0
    c called_operation, c called_place, c open_kind = 0
    c advance = Open(QueueEmpty)
";

#[test]
fn targets_in_native_code_are_served(rt: HostRuntime) -> Result<(), Fail> {
    play(&rt, rt.alloc(), [2, 1, 1], NATIVE)
}

const BUSY: &str = "
    a start = 1; b start = 2; k submit depth of 1 2 = 1
    c advance = Awaits; c awaited = 2

    # One serves itself. It is waited for until its Finish.
    a back_edge, a stop_next = 1
    c advance = Awaits; c awaited = 2
    a stop_serve = 0
    c advance = Awaits; c awaited = 1

    # The other goes into native code, and is served there.
    b to_native = 0
    c advance = Runs; c called_operation, c called_place = 1
    c advance = 1
    k reply 1 1, k reply 1 2 = 0
";

#[test]
fn targets_that_run_are_awaited(rt: HostRuntime) -> Result<(), Fail> {
    play(&rt, rt.alloc(), [2, 1, 1], BUSY)
}

const CENSUS: &str = "
    k install 0 = 1; a start = 1; a call 0 = 1; a to_native = 0; b start = 2
    k census = 1
    c advance = Awaits; c awaited = 1
    a from_native = Again
    b back_edge = 1; b stop_next = Again

    # All are held until the host has run its VM operation.
    c advance = AtSafepoint
    c called_operation = 1; c called_place = 0; c counted 1 = 1
    a from_native, b stop_next = Again; c pending = 1
    c advance = 1
    c called_operation, c pending = 0
    c open_kind, a from_native, b stop_next = 0

    # A thread that exits is waited for no more.
    k census = 2
    c advance = Awaits; c awaited = 2
    b exit = 2; b stop_next = Again; a to_native = 0
    c advance = AtSafepoint; c called_operation, c advance = 2
    b stop_next, b exit = 0
    k census = 3; c advance = AtSafepoint; c advance = 3
";

#[test]
fn all_are_held_for_a_census(rt: HostRuntime) -> Result<(), Fail> {
    play(&rt, rt.alloc(), [2, 2, 2], CENSUS)
}

const GONE: &str = "
    a start = 1; b start = 2; k submit depth of 1 2 = 1

    # A target that exits before it is armed is gone.
    while room 0: c advance = Again
    c open_kind = 1; a exit = 0
    c advance = Awaits; c awaited = 1
    b to_native = 0
    c advance = Runs; c called_place = 1
    c advance = 1
    k reply 1 1 = NotAnswered; k reply 1 2 = 0
";

#[test]
fn a_target_that_exits_is_gone(rt: HostRuntime) -> Result<(), Fail> {
    play(&rt, rt.alloc(), [2, 1, 1], GONE)
}

const MIXED: &str = "
    a start = 1; a to_native = 0; k submit depth of 1 = 1

    # A thread that the host lets go is called again.
    c advance = Runs; c release 0 = 0
    c advance = Runs; c called_operation = 1

    # One that the host serves isn't.
    c serve 0, c advance = 1
    k reply 1 1, a from_native = 0

    # A request that the host closes is over.
    a to_native = 0; k submit top of 1 = 2
    c advance = Runs; c serve 0 = 2; c release 0 = 0
    c close = 2
    k census = 3; c advance = Again
    c advance = AtSafepoint; c advance = 3
    a from_native = 0

    # A census that the host operates has no VM operation. A thread that the host holds is let go before targets are served.
    a to_native = 0
    k census, c open, c tell 1, c hold 0, c operate, c advance = 4
    a from_native = 0
    k submit depth of 1, c open, c tell 1 = 5
    a to_native = 0; c hold 0 = 5
    c advance = Runs; c called_operation = 5
    c advance = 5
    a from_native = 0
";

#[test]
fn the_host_takes_steps_itself(rt: HostRuntime) -> Result<(), Fail> {
    play(&rt, rt.alloc(), [1, 1, 1], MIXED)
}

const FOUR: &str = "
    a start = 1; a to_native = 0; b start = 2
    k submit depth of 1 = 1; k submit depth of 1 2 = 2; k submit top of 1 = 3
    1..3: c open = *

    # Each thread is armed for one request after the other.
    c advance, c advance = Again
    c advance = Runs; c called_operation = 1

    # The thread is held until it has no job.
    c advance = Runs; c called_operation = 2
    a from_native = Again
    c advance = Runs; c called_operation = 3
    c advance = 1
    a from_native = 0
    c advance = Awaits; c awaited = 1
    b back_edge, b stop_next = 2; b stop_serve = 0
    2..3: c advance = *
    c advance = Open(QueueEmpty)
";

#[test]
fn several_are_open(rt: HostRuntime) -> Result<(), Fail> {
    play(&rt, rt.alloc(), [2, 1, 1], FOUR)
}

const LOCKED: &str = "
    a start = 1; a to_native = 0; k submit depth of 1 = 1
    while desk: c advance = Again
    c open_kind = 0
    while room 0: c advance = Again
    c open_kind = 1
    c advance = Runs
    while desk: c advance = Again
    while room 0: c advance = Again
    c called_operation, c advance = 1
    a from_native = 0
    k census = 2; a to_native = 0
    while room 0: c advance, c advance = Again
    c advance = AtSafepoint; c advance = 2
";

#[test]
fn a_taken_lock_is_tried_again(rt: HostRuntime) -> Result<(), Fail> {
    play(&rt, rt.alloc(), [1, 1, 1], LOCKED)
}
