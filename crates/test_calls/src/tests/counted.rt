//! One thread runs a census and a handshake, and reclaims the code once two threads have left it. A call that finds no memory changes
//! nothing, hands back its arguments, and succeeds at the next try.
use crate::tests::rows::play_noting;
use std::test::*;
use test_support::rows::print_refused;

// A `|` begins checks that hold after the call before it found no memory: both threads are live, nothing is open or waits, and only the
// closed handshake has replies. A census stays open, with its threads held, only if its list found no memory. The depths and the frames of
// the code differ, so that the replies show which jobs came back.
const COUNTED: &str = "
    install 0 = 1
    start = 1
    1..2: call 1 0 = compiled 1
    call 1 1 = interpreted
    to_native 1 = ok
    start = 2
    call 2 0 = compiled 1
    call 2 1 = interpreted
    to_native 2 = ok

    # A census counts three frames of the code.
    submit census = 1 | live = [1, 2] | drive = QueueEmpty | replies 1, replies 2, replies 3 = []
    drive = (1, [(1, 3)]) | open = AlreadyOpen | start = SafepointOpen | hold 0, hold 1 = Held
    peek_counts = 3

    # A handshake asks both threads for their frames of the code.
    submit count_of 1 of 1 2 = 2 | live = [1, 2] | drive = QueueEmpty | replies 1, replies 2, replies 3 = []
    drive = handshake 2
    replies 2 = [(1, 2), (2, 1)]

    # The code is in use, which a handshake finds that asks for the depth.
    invalidate 1 = ok
    reclaim 1 depth of 1 2 = used 3 | live = [1, 2] | drive = QueueEmpty | replies 1, replies 3 = [] | replies 2 = [(1, 2), (2, 1)]
    replies 3 = [(1, 3), (2, 2)]

    # No thread is on the code: it is freed, and isn't known any more.
    from_native 1, from_native 2 = go
    1..3: ret 1 = go
    1..2: ret 2 = go
    exit 1, exit 2 = exited
    reclaim 1 = freed
    reclaim 1 = Code(Unknown)
";

// Passes whichever growth of memory is refused.
#[test]
fn what_lacks_memory_is_tried_again(rt: HostRuntime) -> Result<(), Fail> {
    let played = play_noting(&rt, rt.alloc(), [2, 4, 2], COUNTED);
    print_refused(&rt, played, "no growth was refused")
}
