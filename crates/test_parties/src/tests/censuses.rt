//! A census of all threads, step by step.
use crate::tests::rows::play;
use std::test::*;

const CENSUS: &str = "
    c fork d = 0
    k install 0 = 1; k install 1 = 2
    a start = 1; a call 0 = 1; 1..2: a call 1 = 2
    b start = 2; b call 1 = 2; b call 2, b to_native = 0
    k census = 1; k submit depth of 1 = 2

    # What waits isn't open.
    c open_kind = 0

    # While it is open no thread starts, and nothing else is opened.
    c open = 1
    c open_kind, k open_kind, a open_kind = 2
    c open = Open(AlreadyOpen)
    d start = Start(SafepointOpen)
    c close = Close(NotDone)
    c close_of 2 = Close(NotOf)
    c operate = Operate(Refused(NotAllHeld))
    c hold 0 = Hold(NotTold)
    c tell 1, c tell 2 = 1
    c tell 1, c tell 2 = Tell(AlreadyTold)
    c tell 3 = Tell(NotOf)

    # A thread that stopped gives its stack away and waits.
    c hold 0 = Hold(NotSafe)
    a back_edge = 1
    c hold 0 = Hold(NotSafe)
    a stop_next = Again
    a state = 2
    c hold 0 = 1
    c hold 0 = Hold(Held)
    a stop_next = Again
    c serve 0 = Serve(NotOf)
    c operate = Operate(Refused(NotAllHeld))

    # One that is let go before it is counted waits on, and is held again.
    c release 0 = 0
    a stop_next = Again
    c hold 0, c hold 1 = 1
    b from_native = Again

    # All are held, and are counted.
    c counted 1 = 0
    c operate = 1
    c operate = Operate(Refused(AlreadyDone))
    c open_kind = 2
    c hold 0 = Hold(AlreadyDone)
    c counted 1 = 1; c counted 2 = 3; c counted 3 = 0
    k counted 1, a counted 2 = 0
    d start = Start(SafepointOpen)
    c close = Close(Held)
    c release 0 = 0
    a stop_next, a state = 0
    b from_native = Again
    c close = Close(Held)
    c release 1, b from_native = 0
    k reply 1 1 = Pending
    c open_kind = 2
    c close = 1
    c open_kind = 0

    # What it counted is kept until the next, and threads start again.
    c counted 2 = 3
    d start = 3
    c open, c tell 1, a back_edge, a stop_next = 2
    c open_kind = 1
    a stop_serve = 0; c close = 2; k reply 2 1 = 3
";

#[test]
fn a_census_counts_all_held_threads(rt: HostRuntime) -> Result<(), Fail> {
    play(&rt, rt.alloc(), [3, 4, 3], CENSUS)
}

// Threads that exit while a census is open. A thread whose poll isn't armed exits at once, the other once it is counted.
const LEAVING: &str = "
    k install 0 = 1; a start = 1; b start = 2

    # A handshake that is open keeps the census waiting, and that what waits behind it.
    k submit depth of 1 = 1; k census = 2; k submit depth of 2 = 3
    c open = 1; c open = Open(AlreadyOpen)
    c tell 1, a back_edge, a stop_next = 1
    a stop_serve = 0
    c close = 1
    c open = 2; c open = Open(AlreadyOpen)

    c tell 2 = 2
    a exit = 0
    c tell 1 = 0
    c hold 0 = Hold(Vacant)
    b exit = 2; b stop_next = Again
    c hold 1, c operate = 2
    c counted 1 = 0
    c release 1 = 0
    b stop_next, b exit = 0
    c close = 2

    # Nobody lives, and a census counts nobody.
    c open = 3
    c tell 2 = 0
    c close = 3
    k census, c open = 4
    c open_kind = 2
    c operate, c close = 4
    k live_after 0 = 0
";

#[test]
fn threads_exit_while_a_census_is_open(rt: HostRuntime) -> Result<(), Fail> {
    play(&rt, rt.alloc(), [2, 4, 2], LEAVING)
}
