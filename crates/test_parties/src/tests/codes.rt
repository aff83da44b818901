//! Codes that are installed, replaced, invalidated and freed.
use crate::tests::rows::play;
use std::test::*;

const CODES: &str = "
    a start = 1; a call 0 = 0
    k install 2 = Code(Install(NoSuchMethod))
    k install 0 = 1; a call 0 = 1

    # A second code of the method takes the place of the first.
    k install 0 = 2; a call 0 = 2
    k invalidate 1 = Invalidate(NotInUse)
    k invalidate 3 = Invalidate(Unknown)
    k install 1 = 3; a call 1 = 3

    # All slots are taken, and the one in use stays. That there is no such method is told first.
    k install 0, k install 1 = Code(Install(TableFull))
    k install 2 = Code(Install(NoSuchMethod))
    a call 0 = 2; a call 1 = 3

    # What is out of use isn't entered.
    k invalidate 3 = 0
    k invalidate 3 = Invalidate(NotInUse)
    a call 1 = 0

    # Why a code can't be weighed, nor reclaimed.
    c weigh 2, c weigh 4 = NotWeighed
    k reclaim 4 = Reclaim(Code(Unknown))
    k reclaim 2 = Reclaim(Code(NotNotEntrant))
    k reclaim 1 of 1 1 = Reclaim(Ask(BadTargets))
    k census = 1
    k reclaim 4 = Reclaim(Code(Unknown))
    k reclaim 1 = Reclaim(AlreadyOpen)
    c open = 1
    k reclaim 1 = Reclaim(AlreadyOpen)
    c tell 1, a back_edge = 1
    a stop_next = Again
    c hold 0, c operate = 1
    c counted 1 = 1; c counted 2 = 2; c counted 3 = 2
    c release 0, a stop_next = 0
    c close = 1

    # The names of a reclaiming that was refused are gone.
    k reclaim 2 of 1 = Reclaim(Code(NotNotEntrant))
    k reclaim 1 = 0
    k reclaim 1 = 0
";

#[test]
fn a_code_is_replaced_where_there_is_a_slot(rt: HostRuntime) -> Result<(), Fail> {
    play(&rt, rt.alloc(), [1, 3, 2], CODES)
}

const FREED: &str = "
    k install 0 = 1; a start = 1; b start = 2; a call 0, b call 0 = 1
    k install 0 = 2

    # Each thread is late until it has published after a round, the one at the least place first.
    a publish, b publish = 0; c weigh 1 = Late(0)
    k reclaim 1 = 0; c weigh 1 = Late(0)
    a publish = 0; c weigh 1 = Late(1)
    b publish = 0

    # Their frames stand, as they were published last.
    c weigh 1 = 2
    a ret = 0; c weigh 1 = 2
    a publish = 0; c weigh 1 = 1

    # A handshake has the other publish, which answers how many frames it has.
    k reclaim 1 of 2, c open, c open_kind, c tell 2, b ret, b stop_next = 1
    b stop_serve = 0; c close = 1
    k reply 1 2, c weigh 1 = 0

    # It is freed, and isn't known.
    c weigh 1 = NotWeighed
    k reclaim 1 = Reclaim(Code(Unknown))
    k invalidate 1 = Invalidate(Unknown)

    # Its slot is used again. So is that of the next, whose method is interpreted then.
    k install 1 = 3
    a call 0 = 2; a call 1 = 3
    1..2: a ret = 0
    k invalidate 2, k reclaim 2, a publish, b publish, c weigh 2 = 0
    k install 1 = 4
    a call 0 = 0; a call 1 = 4
";

#[test]
fn a_code_is_freed_once_no_frame_stands(rt: HostRuntime) -> Result<(), Fail> {
    play(&rt, rt.alloc(), [2, 2, 2], FREED)
}

// A thread that starts after the invalidation of a code isn't late, nor is a vacant place. Serving a held thread publishes its stack too.
const HELD: &str = "
    k install 0 = 1; a start = 1; a call 0 = 1; a to_native, k invalidate 1 = 0
    k reclaim 1 of 1, c open, c tell 1, c hold 0, c serve 0 = 1
    c release 0 = 0
    c close, k reply 1 1, c weigh 1 = 1
    b start = 2; c weigh 1 = 1
    a from_native, a ret, a exit, c weigh 1 = 0
";

#[test]
fn a_held_thread_is_not_late(rt: HostRuntime) -> Result<(), Fail> {
    play(&rt, rt.alloc(), [2, 2, 2], HELD)
}
