// Code boards: runs of one thread, and boards that are closed.
use super::run::{Run, assert_plays};
use std::test::Fail;

// A code is never entered after its invalidation.
const INVALIDATED: Run = Run {
    places: 1,
    slots: 1,
    slot: 0,
    lines: "| keeper install 1 => code 1; | 0 begin => ok; | 0 end => ok; | 0 enter 1 => entered
| keeper invalidate => ok; | 0 enter 1 => wrong method; | keeper round => ok; | 0 begin => ok; | 0 end => ok
| 0 enter 1 => wrong method; | 0 enter 2 => wrong method",
    left: "",
};

// A code is counted, looked for, weighed and freed.
const FREED: Run = Run {
    places: 2,
    slots: 1,
    slot: 0,
    lines: "| keeper install 1 => code 1; | 0 begin => ok; | 0 end => ok; | 0 enter 1 => entered; | 0 enter 1 => entered
| keeper invalidate => ok; | keeper weigh => not looked 0; | keeper look 0 => late; | keeper look 1 => clear
| keeper round => ok; | 0 begin => ok; | 0 count 2 => change 1 +2; | 0 end => ok
| keeper look 0 => clear; | keeper weigh => used 2; | keeper peek 0 => count 2
| 0 begin => ok; | 0 uncount 2 => change 1 -2; | 0 end => ok
| keeper weigh => retired; | keeper free => ok; | keeper install 2 => code 2
| 0 enter 1 => wrong method; | 0 enter 2 => entered",
    left: "",
};

// After a place was given up, every look at it passes.
const GIVEN_UP: Run = Run {
    places: 1,
    slots: 1,
    slot: 0,
    lines: "| keeper install 1 => code 1; | 0 begin => ok; | 0 end => ok; | 0 enter 1 => entered
| keeper invalidate => ok; | keeper look 0 => late; | 0 vacate => ok; | keeper look 0 => clear
| keeper weigh => retired",
    left: "",
};

// The last place counts the code of the last slot.
const LAST_PLACE: Run = Run {
    places: 64,
    slots: 1024,
    slot: 1023,
    lines: "| keeper peek 1023 => count 0
| keeper install 1 => code 1; | 63 begin => ok; | 63 end => ok; | 63 enter 1 => entered
| 63 begin => ok; | 63 count 256 => change 1 +256; | 63 end => ok
| keeper peek 1023 => count 256; | keeper peek 0 => count 0
| keeper invalidate => ok; | keeper looks => past 63; | keeper weigh => not looked 63; | keeper round => ok
| 63 begin => ok; | 63 end => ok; | keeper looks => past 64; | keeper weigh => used 256",
    left: "",
};

#[test]
fn codes_live_and_are_reclaimed(rt: HostRuntime) -> Result<(), Fail> {
    for run in [INVALIDATED, FREED, GIVEN_UP, LAST_PLACE] {
        assert_plays(&rt, rt.alloc(), run)?;
    }
    Ok(())
}
