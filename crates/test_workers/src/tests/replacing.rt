//! Codes that are replaced step by step.
use crate::tests::rows::play;
use std::test::*;

// Each replacing installs one code: the serials show it.
const ONE_BY_ONE: &str = "
    start = 1; call 1 0 = compiled 1; call 1 1 = compiled 2
    replace 1 = ok; call 1 1 = compiled 3
    replace 0 = ok; call 1 0 = compiled 4; call 1 1 = compiled 3
";

#[test]
fn each_replacing_installs_one_code(rt: HostRuntime) -> Result<(), Fail> {
    play(&rt, rt.alloc(), 2, ONE_BY_ONE)
}

// Two methods with two slots each: the code that is replaced is freed then, for the next one finds its slot.
const FREED_AT_ONCE: &str = "
    1..5: replace_each = ok
    finish = installed 12 freed 12 counts 0; install 0 = 13
";

#[test]
fn a_code_is_freed_as_it_is_replaced(rt: HostRuntime) -> Result<(), Fail> {
    play(&rt, rt.alloc(), 2, FREED_AT_ONCE)
}

// Two frames of a code stand to the end, and are counted. A thread that hasn't published since a code was taken out of use is late, so the
// last two codes aren't freed either.
const STANDING: &str = "
    start = 1; call 1 0, call 1 0 = compiled 1
    replace_each, publish 1 = ok
    finish = installed 4 freed 1 counts 2
";

#[test]
fn frames_that_stand_are_counted(rt: HostRuntime) -> Result<(), Fail> {
    play(&rt, rt.alloc(), 2, STANDING)
}

const LEFT: &str = "
    start = 1; call 1 0 = compiled 1
    replace_each = ok; ret 1 = go; publish 1 = ok
    finish = installed 4 freed 2 counts 0
";

#[test]
fn a_code_that_is_left_is_tried_again(rt: HostRuntime) -> Result<(), Fail> {
    play(&rt, rt.alloc(), 2, LEFT)
}

// A quarter of a million codes make more than a million entries, which a history holds at most.
const LONG: &str = "
    1..1000: replace_each = ok
    finish = installed 256256 freed 256256 counts 0
";

#[test]
fn no_number_of_codes_fills_the_history(rt: HostRuntime) -> Result<(), Fail> {
    play(&rt, rt.alloc(), 256, LONG)
}
