//! Runs of scripts on threads, and what they come to.
use crate::tests::expected::expect;
use crate::tests::watch::Kind;
use std::test::*;

// A method that is called and ticks in a loop, a hundred thousand times.
const LOOP_OF_TICKS: &[u8] =
    b"{\"methods\":[[{\"call\":1}],[{\"loop\":100000,\"body\":[\"tick\"]}]]}";

// In the loop a thread polls at each back edge: its stack has a frame of each method then.
const REPLACED: &str = "threads 3
thread 1 finished 200004
thread 2 finished 200004
thread 3 finished 200004
compiled yes
codes 4 freed 4
counts 0
jobs 2 2 2
unlike 0
ticks later yes
";

// A run that replaced the codes once its threads are joined would find none of them live, and run no job; one that entered a method by
// the hint of another would show its job a frame with the other's code.
#[test]
fn codes_are_replaced_while_threads_run(rt: HostRuntime) -> Result<(), Fail> {
    expect(&rt, rt.alloc(), Kind::Slowed, 3, LOOP_OF_TICKS, REPLACED)
}

const MET: &str = "threads 4
thread 1 finished 3
thread 2 finished 3
thread 3 finished 3
thread 4 finished 3
compiled yes
codes 2 freed 2
counts 0
ticks 4
missed 0
";

// Threads that ran one after the other, or two and then two, would miss each other.
#[test]
fn four_ticks_meet(rt: HostRuntime) -> Result<(), Fail> {
    let script = b"{\"methods\":[[\"tick\"]]}".as_slice();
    expect(&rt, rt.alloc(), Kind::Meeting(4), 4, script, MET)
}
