//! The acts that a party may make by its kind: a client, a thread, a thread that has exited, or the coordinator.
use crate::tests::rows::play;
use std::test::*;

const ROLES: &str = "
    # Any party makes another.
    c fork d = 0; d fork e = 0

    # A client is no thread.
    k call 0, k ret, k back_edge, k publish, k to_vm, k from_vm, k to_native, k from_native = NotThis
    k block, k unblock, k stop_next, k stop_serve, k exit, k name, k place, k state = NotThis

    # Nor is the coordinator, and it doesn't start.
    c start, c call 0, c ret, c back_edge, c publish, c to_vm, c from_vm, c to_native, c from_native = NotThis
    c block, c unblock, c stop_next, c stop_serve, c exit, c name, c place, c state = NotThis

    # A client doesn't coordinate.
    k open, k tell 1, k hold 0, k serve 0, k release 0, k operate, k close, k close_of 1, k weigh 1 = NotThis

    # A thread doesn't start again, and doesn't coordinate.
    a start = 1; a start = NotThis
    a open, a tell 1, a hold 0, a serve 0, a release 0, a operate, a close, a close_of 1, a weigh 1 = NotThis

    # No census of theirs counted anything.
    c counted 1, k counted 1, a counted 1 = 0

    # A thread asks as any party does, and so does the coordinator.
    a install 0 = 1
    a invalidate 1 = 0
    a reclaim 1 = 0
    a submit depth of 1 = 1
    a reply 1 1 = Pending
    a live_after 0 = 1
    a open_kind, a forget = 0
    c install 1 = 2
    c invalidate 2 = 0
    c submit depth of 1 = 2
    c reclaim 2 = Reclaim(AlreadyOpen)
    c reply 2 1 = Pending
    c live_after 0 = 1
    c open_kind, c forget = 0

    # A thread that has exited is a client, which asks, and starts again as another thread.
    a exit = 0
    a exit, a name, a place, a state, a call 0, a ret, a back_edge, a publish, a to_vm, a from_vm = NotThis
    a to_native, a from_native, a block, a unblock, a stop_next, a stop_serve, a open, a close, a hold 0 = NotThis
    a live_after 0, a open_kind = 0
    a census = 3
    a start = 2; a place, a exit = 0

    # The system stays until its last party goes.
    c free, k free, a free, b free, d free = 0
    e start = 3; e place, e exit = 0
";

#[test]
fn each_party_does_what_it_may(rt: HostRuntime) -> Result<(), Fail> {
    play(&rt, rt.alloc(), [2, 4, 2], ROLES)
}

const FREED: &str = "
    a start = 1; b start = 2

    # A thread that is let go without an exit leaves its place taken.
    a free = 0
    k live_after 0 = 1
    k start = Start(PlacesFull)

    # A coordinator that is let go leaves held whom it holds.
    b to_native = 0
    k submit depth of 2 = 1
    c open, c tell 2, c hold 1 = 1
    c free = 0
    b from_native, b from_native = Again; b state = 3
";

#[test]
fn what_a_party_leaves_behind_stays(rt: HostRuntime) -> Result<(), Fail> {
    play(&rt, rt.alloc(), [2, 4, 2], FREED)
}
