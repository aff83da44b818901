//! Handshakes, step by step.
use crate::tests::rows::play;
use std::test::*;

// The stacks differ in all that a handshake can query, so that the replies tell the threads and the queries apart.
const SERVED: &str = "
    k install 0 = 1; k install 1 = 2
    a start = 1; 1..2: a call 0 = 1; a call 1 = 2
    b start = 2; b call 1 = 2

    # Two running threads are asked for their depths.
    k submit depth of 1 2 = 1
    c open = 1
    a back_edge = 0
    c close = Close(NotDone)
    c hold 0 = Hold(NotTold)
    c tell 1, c tell 2 = 1
    c tell 1, c tell 2 = Tell(AlreadyTold)
    c tell 3 = Tell(NotOf)
    c hold 0 = Hold(NotSafe)

    # The first returns, stops there, and answers once it has served.
    a ret = 1
    a state = 2
    c hold 0 = Hold(NotSafe)
    a stop_next = 1
    a state = 5
    k reply 1 1 = Pending
    a stop_serve = 0
    k reply 1 1 = 2
    a back_edge = 0
    c hold 0 = Hold(AlreadyDone)
    c close = Close(NotDone)

    # The second calls on, and stops at its next poll.
    b call 2 = 0
    b back_edge, b stop_next = 1
    b stop_serve = 0
    c close = 1
    k reply 1 2 = 2
    k reply 1 3 = NotAnswered; k reply 2 1 = Pending

    # The frames of a code, and the code of the top frame: it is interpreted at the second.
    k submit count_of 1 of 2 1 = 2
    k submit top of 1 2 = 3
    2..3: c open = *
    2..3: c tell 1, c tell 2 = *
    a back_edge, b back_edge = 3
    a stop_next, b stop_next = 2
    a stop_serve, b stop_serve = 3
    a stop_next, b stop_next = 3
    a stop_serve, b stop_serve = 0
    2..3: c close = *
    k reply 2 1 = 2; k reply 2 2 = 0
    k reply 3 1 = 1; k reply 3 2 = 0
";

#[test]
fn running_threads_serve_themselves(rt: HostRuntime) -> Result<(), Fail> {
    play(&rt, rt.alloc(), [2, 4, 3], SERVED)
}

const HELD: &str = "
    # One thread is in native code, and one is blocked.
    a start = 1; b start = 2; a call 0, a to_native, b to_vm, b block = 0
    k submit depth of 1 2, c open = 1
    c serve 0, c serve 1 = Serve(NotHeld)
    c release 0, c release 1 = Release(NotHeld)
    c hold 0, c hold 1 = Hold(NotTold)
    c tell 1, c tell 2 = 1
    c hold 2 = Hold(NoSuchPlace)
    c serve 2 = Serve(NoSuchPlace)
    c release 2 = Release(NoSuchPlace)

    # The first is held and served, and comes back once it is let go.
    c hold 0 = 1
    c hold 0 = Hold(Held)
    a from_native = Again
    a state = 3
    a call 0, a exit, a publish = Illegal
    k reply 1 1 = Pending
    c serve 0 = 1
    k reply 1 1 = 1
    c serve 0 = Serve(AlreadyDone)
    c hold 0 = Hold(AlreadyDone)
    a from_native = Again
    c close = Close(Held)
    c release 0 = 0
    c release 0 = Release(NotHeld)
    c serve 0 = Serve(NotHeld)
    c hold 0 = Hold(AlreadyDone)
    c close = Close(NotDone)
    a from_native, a state = 0

    # The second is held and let go, and so serves itself on its way back.
    c hold 1 = 1
    b unblock = Again
    b state = 4
    c release 1 = 0
    b unblock = 1
    b state = 2
    c hold 1 = Hold(NotSafe)
    b stop_next = 1
    b stop_serve = 0
    b state = 1
    c hold 1 = Hold(AlreadyDone)
    c close = 1
    k reply 1 2 = 0

    # Nothing is open, and nobody is held.
    c hold 0, c hold 1 = Hold(NothingOpen)
    c serve 0 = Serve(NotHeld)
    c release 1 = Release(NotHeld)
";

#[test]
fn held_threads_are_served_or_let_go(rt: HostRuntime) -> Result<(), Fail> {
    play(&rt, rt.alloc(), [2, 4, 2], HELD)
}

// Depth and frames of the two codes are 5, 1 and 3 for the first thread, and 7, 2 and 4 for the second.
const FOUR: &str = "
    k install 0 = 1; k install 1 = 2
    a start = 1; a call 0 = 1; 1..3: a call 1 = 2; a call 2, a to_native = 0
    b start = 2; 1..2: b call 0 = 1; 1..4: b call 1 = 2; b call 2 = 0

    k submit depth of 1 2 = 1; k submit count_of 1 of 1 = 2; k submit count_of 1 of 2 = 3
    k submit count_of 2 of 1 = 4; k submit top of 1 = 5
    1..4: c open = *
    c open_kind = 1
    c open = Open(AlreadyOpen)

    # The first thread is told its three in order, while the second is told nothing.
    c tell 1 = 1
    c tell 1 = 2
    c tell 1 = 4
    c tell 1 = Tell(AlreadyTold)
    c tell 3 = Tell(NotOf)
    c hold 1 = Hold(NotTold)

    # It is held and served, its oldest first.
    c hold 0 = 1
    c serve 0 = 1
    k reply 1 1 = 5
    k reply 2 1 = Pending
    c hold 0 = Hold(Held)
    c close, c close_of 2 = Close(Held)
    c close_of 3 = Close(NotDone)
    c close_of 5 = Close(NotOf)
    c serve 0 = 2
    k reply 2 1 = 1
    c release 0 = 0

    # It owes one that it was told.
    c close_of 2 = 2
    c close_of 4 = Close(NotDone)
    c hold 0, c serve 0 = 4
    c serve 0 = Serve(AlreadyDone)
    c release 0 = 0
    k reply 4 1 = 3

    # There is room for the fifth.
    c open = 5
    c open = Open(AlreadyOpen)
    c close_of 4 = 4
    c open = Open(QueueEmpty)

    # The second is told its two, and stops for the last of them.
    c tell 2 = 1
    c tell 2 = 3
    c tell 2 = Tell(AlreadyTold)
    b ret = 3
    b stop_next = 1; b stop_serve = 3
    b state = 2
    b stop_next = 3; b stop_serve = 0
    k reply 1 2 = 6
    k reply 3 2 = 2
    c close = 1
    c close = 3

    # The first comes back, and serves itself: its top frame is interpreted.
    c close = Close(NotDone)
    c tell 1, a from_native, a stop_next = 5
    a stop_serve = 0
    k reply 5 1 = 0
    c open_kind = 1
    c close = 5
    c open_kind = 0
    c close, c close_of 5 = Close(NothingOpen)
";

#[test]
fn four_are_open_at_once(rt: HostRuntime) -> Result<(), Fail> {
    play(&rt, rt.alloc(), [2, 4, 3], FOUR)
}

const REFUSED: &str = "
    # No thread has started, and nothing is open.
    c open = Open(QueueEmpty)
    c tell 1 = Tell(NothingOpen)
    c hold 0, c hold 1 = Hold(Vacant)
    c serve 0, c serve 1 = Serve(Vacant)
    c release 0, c release 1 = Release(Vacant)
    c hold 2 = Hold(NoSuchPlace)
    c operate = Operate(Refused(NothingOpen))
    c close, c close_of 1 = Close(NothingOpen)
    k live_after 0 = 0
    a start = 1
    c hold 0 = Hold(NothingOpen)
    c serve 0 = Serve(NotHeld)
    c release 0 = Release(NotHeld)
    k live_after 0 = 1
    k live_after 1, k live_after 9 = 0

    # The names of a request go with it, whatever it answers, and are those of its party alone.
    k submit depth = Ask(NoTargets)
    k submit depth of 1 1 = Ask(BadTargets)
    k submit depth = Ask(NoTargets)
    k target 1, k target 2 = 0
    a submit depth = Ask(NoTargets)
    a target 1 = 0
    a submit depth = 1
    k submit depth = 2
    k submit depth = Ask(NoTargets)

    # The second thread is a target of what is opened next, and not of what is open. A handshake is no census.
    c open = 1
    b start = 2
    c tell 2 = Tell(NotOf)
    c hold 1 = Hold(NotOf)
    c operate = Operate(Refused(NotOf))
    c close_of 2 = Close(NotOf)
    c open, c tell 2 = 2
    c hold 1 = Hold(NotSafe)
    c open = Open(QueueEmpty)
    c tell 3 = Tell(NotOf)
";

#[test]
fn each_act_is_refused_in_its_order(rt: HostRuntime) -> Result<(), Fail> {
    play(&rt, rt.alloc(), [2, 4, 2], REFUSED)
}

// Names of threads that are gone, that were never given out, and that start after the Open.
const GONE: &str = "
    c fork d = 0
    a start = 1; b start = 2; k submit depth of 1 2 = 1
    k submit depth of 1 2 3 4 = 2

    # A thread that was told something serves before it goes.
    c open, c tell 1, a exit = 1
    a state = 2
    a stop_next = 1
    a stop_serve, a exit = 0
    k reply 1 1 = 0

    # One that was told nothing goes, and there is nobody to tell.
    c close = Close(NotDone)
    b exit, c tell 2 = 0
    c close = 1
    k reply 1 2 = NotAnswered

    # The next has the place and not the name of the first. It is a target only of what is opened once it lives.
    c open = 2
    d start = 3; d place = 0
    1..4: c tell * = 0
    c tell 5 = Tell(NotOf)
    c hold 0 = Hold(NotTold)
    c hold 1 = Hold(Vacant)
    d back_edge = 0
    c close = 2
    1..4: k reply 2 * = NotAnswered
    k live_after 0 = 3
    k submit depth of 3, c open, c tell 3, d back_edge, d stop_next = 3
    d stop_serve = 0; c close = 3; k reply 3 3 = 0
";

#[test]
fn a_name_that_is_gone_is_waited_for_by_nobody(rt: HostRuntime) -> Result<(), Fail> {
    play(&rt, rt.alloc(), [2, 4, 2], GONE)
}

const QUEUE: &str = "
    1..64: k census = *
    k census = Ask(QueueFull)

    # That the queue is full is told first, and the names go.
    k submit depth = Ask(QueueFull)
    k submit depth of 1 = Ask(QueueFull)

    # One that is open doesn't wait.
    c open = 1
    k submit depth = Ask(NoTargets)
    k census = 65
    k census = Ask(QueueFull)
    c open = Open(AlreadyOpen)
    c operate, c close = 1
    2..65: c open, c operate, c close = *
    c open = Open(QueueEmpty)
";

#[test]
fn sixty_four_requests_wait(rt: HostRuntime) -> Result<(), Fail> {
    play(&rt, rt.alloc(), [1, 1, 1], QUEUE)
}

// As many targets as a handshake can have, each a thread, and one more.
const TARGETS: &str = "
    1..64: c fork * = 0
    c fork 65 = 0
    1..64: * start = *
    65 start = Start(PlacesFull)
    64 place = 63
    1..65: k target * = 0
    k submit depth = Ask(BadTargets)
    1..64: k target * = 0
    k submit depth, c open = 1
    1..64: c tell *, * back_edge, * stop_next = 1
    1..64: * stop_serve = 0
    c close = 1
    1..64: k reply 1 * = 0
    k live_after 63 = 64
    k live_after 64 = 0
    1..64: * exit = 0
    65 start = 65; 65 place = 0
";

#[test]
fn sixty_four_threads_answer(rt: HostRuntime) -> Result<(), Fail> {
    play(&rt, rt.alloc(), [64, 1024, 256], TARGETS)
}

// Closed operations are forgotten if nothing older is open. What is open or waits isn't forgotten, and is answered and closed as before.
const FORGOTTEN: &str = "
    a start = 1; a call 0 = 0
    1..4: k submit depth of 1 = *
    1..3: c open = *
    1..3: c tell 1 = *
    a back_edge = 3
    a stop_next = 1; a stop_serve = 3
    a stop_next = 2; a stop_serve = 3
    c close = 1
    1..2: k reply * 1 = 1
    k forget = 0
    k reply 1 1 = NotAnswered
    k reply 2 1 = 1

    # It serves and closes what was open.
    a stop_next = 3
    a stop_serve = 0
    c close_of 3 = 3
    a forget = 0
    k reply 2 1, k reply 3 1 = 1
    c close = 2
    c forget = 0
    2..3: k reply * 1 = NotAnswered

    # What waited is opened.
    c open, c tell 1, a back_edge, a stop_next = 4
    a stop_serve = 0
    c close = 4
    k reply 4 1 = 1
    k forget = 0
    k reply 4 1 = NotAnswered

    # Names and numbers rise, and who lives is known.
    k live_after 0 = 1
    b start = 2
    k census = 5
    k install 0 = 1
    k forget = 0
    a call 0 = 1
    k invalidate 1 = 0
";

#[test]
fn what_is_over_is_forgotten(rt: HostRuntime) -> Result<(), Fail> {
    play(&rt, rt.alloc(), [2, 4, 2], FORGOTTEN)
}
