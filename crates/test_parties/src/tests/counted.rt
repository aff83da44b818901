//! Each act that takes memory, in one run: a census counts two threads, a handshake runs, and a code is freed. An act that finds no memory
//! changes nothing, and succeeds at the next try.
use crate::tests::rows::play_noting;
use std::test::*;
use test_support::rows::print_refused;

// A `|` begins checks that hold after the act before it found no memory: it started no thread, submitted nothing, replied to nothing, and
// kept the names of a request. The depths and the frames of the code differ, so that the replies show which jobs were made.
const COUNTED: &str = "
    c fork d = 0
    k install 0 = 1 | c open = Open(QueueEmpty) | k invalidate 1 = Invalidate(Unknown)
    a start = 1 | k live_after 0 = 0 | a name = NotThis
    1..2: a call 0 = 1
    a call 1 = 0
    b start = 2 | k live_after 1 = 0 | b name = NotThis
    b call 0 = 1
    b call 1, a to_native, b to_native = 0

    # A handshake asks both threads for their depths.
    k target 1 = 0 | c open = Open(QueueEmpty)
    k target 2 = 0
    k submit depth = 1 | c open = Open(QueueEmpty) | k live_after 1 = 2
    c open, c tell 1, c tell 2 = 1
    c hold 0, c hold 1, c serve 0, c serve 1 = 1
    c release 0, c release 1 = 0
    c close = 1
    k reply 1 1 = 3 | c open = Open(QueueEmpty)
    k reply 1 2 = 2

    # A census counts three frames of the code.
    k census = 2 | c open = Open(QueueEmpty) | c close = Close(NothingOpen)
    c open, c tell 1, c tell 2, c hold 0, c hold 1 = 2
    c operate = 2 | c counted 1 = 0 | c hold 0 = Hold(Held) | c close = Close(Held) | b from_native = Again
    c counted 1 = 3
    c release 0, c release 1 = 0
    c close = 2

    # The code is out of use, and a handshake asks for its frames.
    k invalidate 1 = 0
    k target 1, k target 2 = 0 | c open = Open(QueueEmpty)
    k reclaim 1 = 3 | c open = Open(QueueEmpty) | c close = Close(NothingOpen) | k invalidate 1 = Invalidate(NotInUse)
    c open, c tell 1, c tell 2, c hold 0, c hold 1, c serve 0, c serve 1 = 3
    c release 0, c release 1 = 0
    c close, c weigh 1 = 3
    k reply 3 1 = 2
    k reply 3 2 = 1

    # No thread is on the code, and it is freed.
    a from_native, b from_native = 0
    1..3: a ret = 0
    1..2: b ret = 0
    a exit, b exit, c weigh 1 = 0
    k reclaim 1 = Reclaim(Code(Unknown))
";

// Passes whichever growth of memory is refused.
#[test]
fn what_lacks_memory_is_tried_again(rt: HostRuntime) -> Result<(), Fail> {
    let played = play_noting(&rt, rt.alloc(), [2, 4, 2], COUNTED);
    print_refused(&rt, played, "no growth was refused")
}
