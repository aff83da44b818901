//! The acts of a thread in each of its states: in Java 0, in the VM 1, at a poll 2, in native code 3, blocked 4, serving 5.
use crate::tests::rows::play;
use std::test::*;

const STATES: &str = "
    a start, a name = 1; a place = 0

    # In Java.
    a state = 0
    a from_vm, a from_native, a block, a unblock, a stop_next, a stop_serve = Illegal
    a state = 0
    a call 0, a publish, a back_edge, a ret, a publish = 0

    # In the VM it publishes, and neither calls nor polls.
    a to_vm = 0; a state = 1
    a call 0, a call 9, a ret, a back_edge, a to_vm, a from_native, a unblock, a stop_next, a stop_serve = Illegal
    a publish = 0; a state = 1

    # Blocked, and back into the VM.
    a block = 0; a state = 4
    a call 0, a ret, a back_edge, a publish, a to_vm, a from_vm, a to_native, a from_native, a block = Illegal
    a stop_next, a stop_serve, a exit = Illegal
    a state = 4
    a unblock = 0; a state = 1

    # In native code, from the VM and back there.
    a to_native = 0; a state = 3
    a call 0, a ret, a back_edge, a publish, a to_vm, a from_vm, a to_native, a block, a unblock = Illegal
    a stop_next, a stop_serve, a exit = Illegal
    a state = 3
    a from_native = 0; a state = 1
    a from_vm = 0; a state = 0

    # In native code, from Java and back there.
    a to_native = 0; a state = 3
    a from_native = 0; a state = 0

    # At a poll.
    k submit depth of 1, c open, c tell 1, a back_edge = 1; a state = 2
    a call 0, a ret, a back_edge, a publish, a to_vm, a from_vm, a to_native, a from_native, a block, a unblock = Illegal
    a stop_serve, a exit = Illegal
    a state = 2

    # Serving.
    a stop_next = 1; a state = 5
    a call 0, a ret, a back_edge, a publish, a to_vm, a from_vm, a to_native, a from_native, a block, a unblock = Illegal
    a stop_next, a exit = Illegal
    a state = 5
    a stop_serve = 0; a state = 0
    c close = 1

    # It exits from the VM too.
    a to_vm, a exit = 0
";

#[test]
fn each_act_is_legal_in_its_states(rt: HostRuntime) -> Result<(), Fail> {
    play(&rt, rt.alloc(), [1, 1, 1], STATES)
}

// Each act that polls stops the thread if the poll is armed. After the stop the thread continues where the act leads.
const POLLS: &str = "
    a start = 1

    # At a back edge, and at a return, of which the frame is gone.
    k submit depth of 1, c open, c tell 1, a back_edge, a stop_next = 1
    a stop_serve, a state = 0; c close = 1
    1..2: a call 0 = 0
    k submit depth of 1, c open, c tell 1, a ret, a stop_next = 2
    a stop_serve, a state = 0; c close = 2
    k reply 2 1 = 1

    # From the VM into Java.
    a to_vm = 0
    k submit depth of 1, c open, c tell 1, a from_vm, a stop_next = 3
    a stop_serve, a state = 0; c close = 3

    # From native code into Java, and into the VM.
    a to_native = 0
    k submit depth of 1, c open, c tell 1, a from_native, a stop_next = 4
    a stop_serve, a state = 0; c close = 4
    a to_vm, a to_native = 0
    k submit depth of 1, c open, c tell 1, a from_native, a stop_next = 5
    a stop_serve = 0; a state = 1; c close = 5

    # From a wait into the VM.
    a block = 0
    k submit depth of 1, c open, c tell 1, a unblock, a stop_next = 6
    a stop_serve = 0; a state = 1; c close = 6

    # At an exit, from Java and from the VM. A stack that isn't empty is refused first.
    a from_vm = 0
    k submit depth of 1, c open, c tell 1 = 7
    a exit = StackNotEmpty
    a ret, a stop_next = 7
    a stop_serve = 0; c close = 7
    k submit depth of 1, c open, c tell 1, a exit = 8
    a state = 2; a stop_next = 8
    a stop_serve, a state = 0; c close = 8
    a to_vm = 0
    k submit depth of 1, c open, c tell 1, a exit, a stop_next = 9
    a stop_serve, a state = 0; c close = 9
    a exit, k reply 9 1 = 0
";

#[test]
fn each_poll_stops(rt: HostRuntime) -> Result<(), Fail> {
    play(&rt, rt.alloc(), [1, 1, 1], POLLS)
}

const DEPTH: &str = "
    a start = 1; a ret = EmptyStack
    a call 1, a call 256 = NoSuchMethod
    k install 0 = 1
    1..256: a call 0 = 1

    # That there is no such method is told first.
    a call 0 = DepthFull
    a call 1 = NoSuchMethod
    a exit = StackNotEmpty

    # All frames are there.
    k submit depth of 1 = 1
    k submit count_of 1 of 1 = 2
    1..2: c open = *
    1..2: c tell 1 = *
    a back_edge = 2
    a stop_next = 1
    a stop_serve, a stop_next = 2
    a stop_serve = 0
    1..2: c close = *
    k reply 1 1, k reply 2 1 = 256

    # There is room again after a return.
    a ret = 0
    a call 0 = 1
    a call 0 = DepthFull
    1..256: a ret = 0
    a ret = EmptyStack
    a exit = 0
";

#[test]
fn a_stack_has_256_frames(rt: HostRuntime) -> Result<(), Fail> {
    play(&rt, rt.alloc(), [1, 1, 1], DEPTH)
}
