//! Answers of reclaiming without a handshake: the least late place, the number of activations, or that the code is freed.
use crate::tests::rows::play;
use std::test::*;

// A thread in Java is late if it has left the code and hasn't published since.
const LATE: &str = "
    install 0 = 1; start = 1; call 1 0 = compiled 1; invalidate 1 = ok
    ret 1 = go; reclaim 1 = late 0
    publish 1 = ok; exit 1 = exited; reclaim 1 = freed
";

#[test]
fn a_thread_that_has_not_published_since_is_late(rt: HostRuntime) -> Result<(), Fail> {
    play(&rt, rt.alloc(), [2, 4, 2], LATE)
}

// Each of two threads is late until it has published after a round. Then its frames count until it has left them.
const USED: &str = "
    install 0 = 1; start = 1; call 1 0 = compiled 1; start = 2; call 2 0 = compiled 1
    invalidate 1 = ok

    publish 1 = ok; reclaim 1, reclaim 1 = late 0
    publish 1 = ok; reclaim 1 = late 1
    publish 2 = ok; reclaim 1 = used 2

    ret 1 = go; exit 1 = exited; reclaim 1 = used 1
    ret 2 = go; exit 2 = exited; reclaim 1 = freed
";

#[test]
fn the_least_late_place_and_the_frames_are_told(rt: HostRuntime) -> Result<(), Fail> {
    play(&rt, rt.alloc(), [2, 4, 2], USED)
}
