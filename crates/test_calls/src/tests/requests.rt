//! Handshakes and a census, step by step.
use crate::tests::rows::play;
use std::test::*;

const EXITS: &str = "
    start = 1; start = 2
    submit depth of 1 2 = 1; submit depth of 3 = 2

    # A third thread starts in the place of the first.
    exit 1 = exited; start = 3; place 3 = 0

    # Of the names 1 and 2 the first is gone, and the name 3 isn't asked. The second thread, in native code, is held and served.
    open = 1
    tell 1 = gone; tell 3 = NotOf; tell 2 = told
    to_native 2, hold 1, serve 1, release 1 = ok
    close = 1

    # The third exits after it was told, and so serves before.
    open = 2
    tell 3 = told
    close = NotDone
    exit 3 = exited
    close = 2

    from_native 2 = go; exit 2 = exited
    replies 1 = [(2, 0)]; replies 2 = [(3, 0)]
";

#[test]
fn a_target_exits_before_and_after_it_is_told(rt: HostRuntime) -> Result<(), Fail> {
    play(&rt, rt.alloc(), [2, 4, 2], EXITS)
}

const REFUSALS: &str = "
    # No thread has started.
    hold 0, serve 0, release 0 = Vacant

    # Nothing is open.
    start = 1; start = 2
    open = QueueEmpty
    tell 1, close, operate = NothingOpen

    # Nothing is held, and there is no place 2.
    hold 2 = NoSuchPlace
    hold 0 = NothingOpen
    serve 2 = NoSuchPlace
    serve 0 = NotHeld
    release 2 = NoSuchPlace
    release 0 = NotHeld

    # The first thread, in native code, is told.
    to_native 1 = ok
    submit depth of 1 2 = 1
    open = 1; open = QueueEmpty
    hold 0 = NotTold; tell 3 = NotOf
    tell 1 = told; tell 1 = AlreadyTold

    # It is held and served.
    hold 0 = ok; hold 0 = Held
    operate = NotOf
    serve 0 = ok; serve 0 = AlreadyDone

    # It is released, and the handshake isn't closed before the second thread has answered.
    close = Held
    release 0 = ok
    hold 0 = AlreadyDone
    close = NotDone
    close_of 2 = NotOf

    # The second thread, in Java, isn't safe. It stops and serves itself.
    tell 2 = told
    hold 1 = NotSafe
    back_edge 2 = stop 1
    stop 2 = served

    # A census is told to both.
    submit census = 2
    close = 1
    open = 2
    tell 3 = NotOf
    tell 1, tell 2 = told

    # The first thread is held.
    hold 0 = ok
    serve 0 = NotOf
    operate = NotAllHeld
    start = SafepointOpen

    # The second goes into native code and is held too, and the census is operated.
    to_native 2 = ok
    hold 1 = ok
    close = Held
    operate = (2, [])
    operate = AlreadyDone

    # Both go.
    release 0, release 1 = ok
    close = 2
    from_native 1, from_native 2 = go
    exit 1, exit 2 = exited
";

#[test]
fn each_call_is_refused_in_its_order(rt: HostRuntime) -> Result<(), Fail> {
    play(&rt, rt.alloc(), [2, 4, 2], REFUSALS)
}

// Two threads are in native code. Depth and frames of the two codes are 5, 1 and 3 for the first, and 7, 2 and 4 for the second, so that
// the replies tell the handshakes apart.
const TWO_THREADS: &str = "
    install 0 = 1; install 1 = 2
    start = 1; call 1 0 = compiled 1; 1..3: call 1 1 = compiled 2
    call 1 0 none = interpreted; to_native 1 = ok
    start = 2; 1..2: call 2 0 = compiled 1; 1..4: call 2 1 = compiled 2
    call 2 0 none = interpreted; to_native 2 = ok
";

// The two threads come back, leave their frames and exit.
const TWO_EXITS: &str = "
    from_native 1, from_native 2 = go
    1..5: ret 1 = go
    1..7: ret 2 = go
    ret 1, ret 2 = EmptyStack
    exit 1, exit 2 = exited
";

const FOUR: &str = "
    submit depth of 1 2 = 1
    submit count_of 1 of 1 = 2
    submit count_of 1 of 2 = 3
    submit count_of 2 of 1 = 4
    1..4: open = *
    open = AlreadyOpen

    # The first thread is told its three in order, while the second is told nothing.
    1..3: tell 1 = told
    tell 1 = AlreadyTold
    tell 3 = NotOf
    hold 1 = NotTold

    # It is held and served, its oldest job first: each of its operations has its reply once that is served, and not before.
    hold 0 = ok
    replies 1 = []
    serve 0 = ok
    replies 1 = [(1, 5)]
    replies 2 = []
    serve 0 = ok
    replies 2 = [(1, 1)]

    # While it is held, nothing is closed.
    close_of 2 = Held
    close_of 3 = NotDone
    close_of 5 = NotOf

    # Its last job is served, and it goes.
    replies 4 = []
    serve 0 = ok
    replies 4 = [(1, 3)]
    serve 0 = AlreadyDone
    release 0 = ok

    # Its own handshakes are closed, and not the one of both.
    close_of 4, close_of 2 = ok
    close = NotDone

    # Then the second is told and served.
    1..2: tell 2 = told
    hold 1 = ok
    serve 1 = ok
    replies 1 = [(1, 5), (2, 7)]
    replies 3 = []
    serve 1 = ok
    replies 3 = [(2, 2)]

    # What is left is closed.
    close = Held
    release 1 = ok
    close = 1
    close = 3
    close = NothingOpen
";

#[test]
fn four_are_told_and_served_in_order(rt: HostRuntime) -> Result<(), Fail> {
    let text = format!(in rt.alloc(); "{TWO_THREADS}{FOUR}{TWO_EXITS}")?;
    play(&rt, rt.alloc(), [2, 4, 2], &text)
}

// Four requests over two threads in native code, and a census.
const DRIVEN: &str = "
    drive_four = QueueEmpty
    submit depth of 1 2 = 1
    submit count_of 1 of 1 = 2
    submit count_of 1 of 2 = 3
    submit count_of 2 of 1 2 = 4
    submit census = 5
    drive_four = 4
    replies 1 = [(1, 5), (2, 7)]
    replies 2 = [(1, 1)]
    replies 3 = [(2, 2)]
    replies 4 = [(1, 3), (2, 4)]

    # Nothing is open beside a census.
    drive_four = 1
    drive_four = QueueEmpty
    replies 5 = []
    peek_counts = 10
";

#[test]
fn four_are_driven_at_once(rt: HostRuntime) -> Result<(), Fail> {
    let text = format!(in rt.alloc(); "{TWO_THREADS}{DRIVEN}{TWO_EXITS}")?;
    play(&rt, rt.alloc(), [2, 4, 2], &text)
}

const OLDEST: &str = "
    # The first thread is in native code, and neither calls anything.
    start = 1; to_native 1 = ok; start = 2
    submit depth of 1 = 1; submit depth of 2 = 2
    1..2: open = *

    # A drive that slept for the target of the second handshake would never return.
    drive = handshake 1; close = NotDone
    replies 1 = [(1, 0)]; replies 2 = []

    # The second thread comes to a poll and serves itself, and the second is closed.
    back_edge 2 = stop 2; stop 2 = served
    drive = handshake 2; replies 2 = [(2, 0)]

    from_native 1 = go; exit 1, exit 2 = exited
";

#[test]
fn the_oldest_is_closed_past_a_later_one(rt: HostRuntime) -> Result<(), Fail> {
    play(&rt, rt.alloc(), [2, 4, 2], OLDEST)
}

// `drive` completes a request that was opened by hand, with armed polls and held threads; these threads continue then.
const HELD_AND_DRIVEN: &str = "
    start = 1; start = 2; to_native 1, to_native 2 = ok
    submit depth of 1 2 = 1
    open = 1; tell 1 = told; hold 0 = ok
    drive = handshake 1; replies 1 = [(1, 0), (2, 0)]
    release 0 = NotHeld

    submit census, open = 2
    tell 1, tell 2 = told; hold 1 = ok
    drive = (2, [])
    release 1 = NotHeld

    from_native 1, from_native 2 = go
    exit 1, exit 2 = exited
";

#[test]
fn a_drive_goes_on_with_what_is_held(rt: HostRuntime) -> Result<(), Fail> {
    play(&rt, rt.alloc(), [2, 1, 1], HELD_AND_DRIVEN)
}
