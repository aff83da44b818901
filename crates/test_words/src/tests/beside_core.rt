// Worked runs on running words, with the same events on the core beside them. Each call answers as the core does, and the words at the
// end are those that the definitions give for the core's world (`tie`'s `board_samples`, `worked_runs`). Each run has its rows and
// these final words.
use super::run::{Run, assert_plays};
use std::alloc::{AllocError, Global};
use std::process::Abort;
use std::test::Fail;

// A code is entered, invalidated, looked for, counted, left, weighed and freed, and its slot is used again.
const LIFE_OF_A_CODE: (&str, &str) = (
    "size 2 1 2 => ok
one thread runs
install 0 | keeper install 1 => code 1; enter 0 0 1 | 0 enter 1 => entered; enter 0 0 1 | 0 enter 1 => entered
invalidate 1 | keeper invalidate => ok
weigh 1 | keeper weigh => not looked 0; look 1 0 | keeper look 0 => late; look 1 1 | keeper look 1 => clear
round | keeper round => ok
begin 0 | 0 begin => ok; change 0 | 0 count 2 => change 1 +2; change 0 => change none; end 0 | 0 end => ok
look 1 0 | keeper look 0 => clear; weigh 1 | keeper weigh => used 2; leave 0 | 0 poll => go; leave 0 | 0 poll => go
begin 0 | 0 begin => ok; change 0 | 0 uncount 2 => change 1 -2; end 0 | 0 end => ok
weigh 1 | keeper weigh => retired; free 1 | keeper free => ok; install 0 | keeper install 2 => code 2
enter 0 0 1 | 0 enter 1 => wrong method; enter 0 0 2 | 0 enter 2 => entered",
    "8 0 2 0 2",
);

const ONE_FRAME_COUNTED: (&str, &str) = (
    "size 2 1 2 => ok
one thread runs
install 0 | keeper install 1 => code 1; enter 0 0 1 | 0 enter 1 => entered; round | keeper round => ok
begin 0 | 0 begin => ok; change 0 | 0 count 1 => change 1 +1; end 0 | 0 end => ok
invalidate 1 | keeper invalidate => ok",
    "5 1 2 0 2",
);

const PLACE_GIVEN_UP: (&str, &str) = (
    "size 2 1 2 => ok
one thread runs
install 0 | keeper install 1 => code 1; invalidate 1 | keeper invalidate => ok
look 1 0 | keeper look 0 => late; exit 0 => exited 1; | 0 vacate => ok; look 1 0 | keeper look 0 => clear
look 1 1 | keeper look 1 => clear; weigh 1 | keeper weigh => retired",
    "6 0 0 0 1",
);

const LOOK_BEFORE_A_ROUND: (&str, &str) = (
    "size 2 1 2 => ok
one thread runs
install 0 | keeper install 1 => code 1; enter 0 0 1 | 0 enter 1 => entered; invalidate 1 | keeper invalidate => ok
weigh 1 | keeper weigh => not looked 0; look 1 0 | keeper look 0 => late",
    "5 0 1 0 1",
);

const PUBLICATION_BEGUN_BEFORE_THE_ROUND: (&str, &str) = (
    "size 2 1 2 => ok
one thread runs
install 0 | keeper install 1 => code 1
begin 0 | 0 begin => ok; invalidate 1 | keeper invalidate => ok; round | keeper round => ok; end 0 | 0 end => ok
look 1 0 | keeper look 0 => late
begin 0 | 0 begin => ok; end 0 | 0 end => ok
look 1 0 | keeper look 0 => clear; look 1 1 | keeper look 1 => clear; weigh 1 | keeper weigh => retired",
    "6 0 2 0 2",
);

const TWO_THREADS: (&str, &str) = (
    "size 2 1 2 => ok
one thread runs
install 0 | keeper install 1 => code 1
start => thread 2 place 1; begin 1 | 1 begin => ok; end 1 | 1 end => ok; wake 1 => ok; cross 1 | 1 poll => go
enter 0 0 1 | 0 enter 1 => entered; enter 0 0 1 | 0 enter 1 => entered; enter 1 0 1 | 1 enter 1 => entered
begin 0 | 0 begin => ok; change 0 | 0 count 2 => change 1 +2; end 0 | 0 end => ok
begin 1 | 1 begin => ok; change 1 | 1 count 1 => change 1 +1; end 1 | 1 end => ok",
    "4 3 1 1 1",
);

const RECLAIMED_AFTER_USE: (&str, &str) = (
    "size 1 4 2 => ok
one thread runs
install 0 | keeper install 1 => code 1; enter 0 0 1 | 0 enter 1 => entered; invalidate 1 | keeper invalidate => ok
weigh 1 | keeper weigh => not looked 0; look 1 0 | keeper look 0 => late; count 1 | keeper peek 0 => count 0
round | keeper round => ok; look 1 0 | keeper look 0 => late
begin 0 | 0 begin => ok; change 0 | 0 count 1 => change 1 +1; end 0 | 0 end => ok
look 1 0 | keeper look 0 => clear; weigh 1 | keeper weigh => used 1; leave 0 | 0 poll => go
begin 0 | 0 begin => ok; change 0 | 0 uncount 1 => change 1 -1; end 0 | 0 end => ok
weigh 1 | keeper weigh => retired; free 1 | keeper free => ok",
    "7 3 3 3 0 0 0 0 2 2",
);

// Two operations arm the poll of a thread and are served, one after the other.
const TWO_OPERATIONS_IN_TURN: (&str, &str) = (
    "size 1 4 2 => ok
one thread runs
ask depth 1 => asked 1; ask depth 1 => asked 2; open => open 1 handshake; edge 0 | 0 poll => go
tell 1 | armer arm 0 1 => told
edge 0 | 0 poll => stop 1; take 0 => ok; finish 0 => reply 0; clear 0 | 0 clear 1 => ok; cross 0 | 0 poll => go
close => closed 1; open => open 2 handshake; edge 0 | 0 poll => go; tell 1 | armer arm 0 2 => told
edge 0 | 0 poll => stop 2; take 0 => ok; finish 0 => reply 0; clear 0 | 0 clear 2 => ok; cross 0 | 0 poll => go
close => closed 2; | armer last 0 => 2",
    "3 3 3 3 0 0 0 0 1 1",
);

// Both operations arm the poll before the thread stops: a clear of the lesser number leaves the greater one armed.
const A_GREATER_NUMBER_STAYS: (&str, &str) = (
    "size 1 4 2 => ok
one thread runs
ask depth 1 => asked 1; ask depth 1 => asked 2; open => open 1 handshake; open => open 2 handshake
tell 1 | armer arm 0 1 => told; tell 1 | armer arm 0 2 => told
edge 0 | 0 poll => stop 2; take 0 => ok; finish 0 => reply 0; clear 0 => ok; | 0 clear 1 => kept
cross 0 | 0 poll => stop 2; take 0 => ok; finish 0 => reply 0; clear 0 | 0 clear 2 => ok; cross 0 | 0 poll => go
close 2 => closed 2; close => closed 1",
    "3 3 3 3 0 0 0 0 1 1",
);

// A name that is gone can't be armed, and it doesn't arm the next thread at its place.
const PLACE_USED_AGAIN: (&str, &str) = (
    "size 1 4 2 => ok
one thread runs
ask depth 1 => asked 1; exit 0 => exited 1; | 0 vacate => ok
start => thread 2 place 0; begin 0 | 0 begin => ok; end 0 | 0 end => ok; wake 0 => ok; cross 0 | 0 poll => go
ask depth 2 => asked 2; open => open 1 handshake; tell 1 => gone; edge 0 | 0 poll => go; close => closed 1
open => open 2 handshake; edge 0 | 0 poll => go; tell 2 | armer arm 0 2 => told
edge 0 | 0 poll => stop 2; take 0 => ok; finish 0 => reply 0; clear 0 | 0 clear 2 => ok; cross 0 | 0 poll => go
close => closed 2",
    "3 3 3 3 0 0 0 0 1 1",
);

// A census arms a thread in native code and one in Java. Both are held and released; each place is cleared by itself.
const TWO_THREADS_AT_A_SAFEPOINT: (&str, &str) = (
    "size 3 4 2 => ok
one thread runs
start => thread 2 place 1; begin 1 | 1 begin => ok; end 1 | 1 end => ok; wake 1 => ok; cross 1 | 1 poll => go
tonative 0 => ok
ask census => asked 1; open => open 1 census; tell 1 | armer arm 0 1 => told; tell 2 | armer arm 1 1 => told
hold 0 => ok
edge 1 | 1 poll => stop 1; hold 1 => ok; operate => census; clear 0 | 0 clear 1 => ok; release 0 => ok
clear 1 | 1 clear 1 => ok; release 1 => ok; close => closed 1; take 1 => ok; cross 1 | 1 poll => go; | 0 poll => go
| armer last 0 => 1; | armer last 1 => 1; | armer last 2 => 0",
    "3 3 3 3 0 0 0 0 1 1 0 1",
);

// Plays runs on words of this size. Their codes are in the first slot.
fn assert_all_play(
    rt: &impl Abort,
    alloc: Global,
    places: usize,
    slots: u32,
    runs: &[(&'static str, &'static str)],
) -> Result<(), AllocError> {
    for (lines, left) in runs {
        let run = Run {
            places,
            slots,
            slot: 0,
            lines,
            left,
        };
        assert_plays(rt, alloc, run)?;
    }
    Ok(())
}

const OF_ONE_SLOT: [(&str, &str); 6] = [
    LIFE_OF_A_CODE,
    ONE_FRAME_COUNTED,
    PLACE_GIVEN_UP,
    LOOK_BEFORE_A_ROUND,
    PUBLICATION_BEGUN_BEFORE_THE_ROUND,
    TWO_THREADS,
];

const OF_ONE_PLACE: [(&str, &str); 3] = [
    TWO_OPERATIONS_IN_TURN,
    A_GREATER_NUMBER_STAYS,
    PLACE_USED_AGAIN,
];

#[test]
fn boards_say_what_the_core_answers(rt: HostRuntime) -> Result<(), Fail> {
    assert_all_play(&rt, rt.alloc(), 2, 1, &OF_ONE_SLOT)?;
    assert_all_play(&rt, rt.alloc(), 1, 4, &[RECLAIMED_AFTER_USE])?;
    Ok(())
}

#[test]
fn poll_words_say_what_the_core_answers(rt: HostRuntime) -> Result<(), Fail> {
    assert_all_play(&rt, rt.alloc(), 1, 4, &OF_ONE_PLACE)?;
    assert_all_play(&rt, rt.alloc(), 3, 4, &[TWO_THREADS_AT_A_SAFEPOINT])?;
    Ok(())
}
