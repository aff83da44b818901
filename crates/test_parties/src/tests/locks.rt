//! Acts while a lock that they need is taken. They answer `Again`, and change nothing but what the rows show.
use crate::tests::rows::play;
use std::test::*;

const DESK: &str = "
    while desk: a start = Again
    a name = NotThis; k live_after 0 = 0
    a start = 1; b start = 2; k install 0 = 1

    # What takes no lock goes on.
    while desk: c fork d, a place, a state, a back_edge, a publish, a to_vm, a from_vm = 0
    while desk: a name, a call 0 = 1
    while desk: a ret, a to_native, a from_native, k counted 1 = 0

    # The names of a request stay where it is to be made again.
    while desk: k target 1, k target 2 = 0
    while desk: k submit depth, k census, k reclaim 1 = Again
    k submit depth = 1
    while desk: k install 0, k invalidate 1, k reply 1 1, k live_after 0, k open_kind, k forget = Again
    while desk: c open, c tell 1, c hold 0, c serve 0, c release 0, c operate, c close, c close_of 1, c weigh 1 = Again

    # That a party isn't in this part, and that there is no such place, is told first.
    while desk: k open, c start, k exit = NotThis
    while desk: c hold 2 = Hold(NoSuchPlace)
    while desk: c serve 2 = Serve(NoSuchPlace)
    while desk: c release 2 = Release(NoSuchPlace)

    # A handshake that meets the lock at each step.
    c open = 1
    while desk: c tell 1 = Again
    a back_edge = 0
    c tell 1, c tell 2, a back_edge = 1
    while desk: a stop_next = 1
    while desk: a stop_serve = Again
    a state = 5
    k reply 1 1 = Pending
    a stop_serve = 0
    b to_native = 0
    while desk: c hold 1 = Again
    c hold 1 = 1
    while desk: c serve 1 = Again
    c serve 1 = 1
    while desk: c release 1, b from_native = 0
    while desk: c close, c close_of 1 = Again
    c close = 1
    k reply 1 1, k reply 1 2 = 0

    # A census, and a code that is freed.
    k census, c open = 2
    c tell 1, c tell 2, a back_edge, b back_edge = 2
    a stop_next, b stop_next = Again
    c hold 0, c hold 1 = 2
    while desk: c operate = Again
    c operate = 2
    c release 0, c release 1, a stop_next, b stop_next = 0
    c close = 2
    k invalidate 1, k reclaim 1, a publish, b publish = 0
    while desk: c weigh 1 = Again
    c weigh 1 = 0
";

#[test]
fn an_act_tries_the_desk(rt: HostRuntime) -> Result<(), Fail> {
    play(&rt, rt.alloc(), [2, 4, 2], DESK)
}

const ROOM: &str = "
    a start = 1; k install 0 = 1

    # What takes no lock, or the desk's alone, goes on.
    while room 0: a place, a state, a back_edge, a publish, a to_vm, a from_vm, k live_after 1, k forget = 0
    while room 0: a name, a call 0, k live_after 0 = 1
    while room 0: a ret, k target 1 = 0
    while room 0: k submit depth, c open = 1
    while room 0: c hold 0 = Again

    # The locks of two rooms differ.
    while room 1: a to_native, a from_native = 0

    # Into native code and out of it, and told there.
    while room 0: a to_native = Again
    a state, a to_native = 0
    while room 0: c tell 1 = Again
    c tell 1 = 1
    while room 0: a from_native, c hold 0 = Again
    c hold 0 = 1
    while room 0: c serve 0, c release 0 = Again
    c serve 0 = 1
    while room 0: c release 0 = Again
    c release 0 = 0
    while room 0: a from_native = Again
    a from_native = 0
    while room 0: c close = 1
    while room 0: k reply 1 1 = 0

    # Into a wait and out of it.
    a to_vm = 0
    while room 0: a block = Again
    a state = 1
    a block = 0
    while room 0: a unblock = Again
    a state = 4
    a unblock, a from_vm = 0

    # At a poll, and at the exit.
    k submit depth of 1, c open, c tell 1, a back_edge = 2
    while room 0: a stop_next = Again
    a state, a stop_next = 2
    while room 0: a stop_serve, a state = 0
    c close = 2
    while room 0: a exit = Again
    a state, a exit = 0
    k live_after 0 = 0
";

#[test]
fn an_act_tries_the_room(rt: HostRuntime) -> Result<(), Fail> {
    play(&rt, rt.alloc(), [2, 4, 2], ROOM)
}

// A Start is entered before the thread has its place; an Exit is entered only after the thread has given its place up. Between the two
// steps the party is no thread, but its name is live.
const BETWEEN: &str = "
    # The name lives, and is no thread yet: it can't be told, and a census waits for it.
    while room 0: a start, a start = Again
    k live_after 0 = 1
    a name, a place, a state, a call 0, a back_edge, a stop_next, a exit = NotThis
    b start = Start(PlacesFull)
    k census, c open = 1
    c tell 1 = Again
    c hold 0 = Hold(NotTold)
    c operate = Operate(Refused(NotAllHeld))

    # It was entered before the census was opened, and goes on.
    a start = 1
    c tell 1, a back_edge = 1
    a stop_next = Again
    c hold 0, c operate = 1
    c release 0, a stop_next = 0
    c close = 1

    # It gave its place up, and is no thread. The name lives until the Exit is entered.
    k submit depth of 1, c open = 2
    while desk: a exit, a exit = Again
    a name, a place, a state, a call 0, a back_edge, a stop_next, a start = NotThis
    k live_after 0 = 1
    b start = Start(PlacesFull)
    c tell 1 = Again
    c close = Close(NotDone)
    a exit = 0; a exit = NotThis
    k live_after 0, c tell 1 = 0
    c close = 2
    k reply 2 1 = NotAnswered
    b start = 2; b place = 0
";

#[test]
fn a_start_and_an_exit_have_two_steps(rt: HostRuntime) -> Result<(), Fail> {
    play(&rt, rt.alloc(), [1, 4, 2], BETWEEN)
}
