//! Threads that start, call, block and exit, and codes that replace codes in use.
use crate::tests::rows::play;
use std::test::*;

const LIVES: &str = "
    install 0 = 1; start = 1; start = 2; start = PlacesFull

    # By a code, without one, and a method that there isn't.
    call 1 0 = compiled 1
    call 1 1 = interpreted
    call 1 2 none = NoSuchMethod
    call_by_hint 1 0 = compiled 1
    call_by_hint 1 1 = interpreted
    call_by_hint 1 2 = NoSuchMethod
    1..4: ret 1 = go
    ret 1 = EmptyStack
    publish 1 = ok
    exit 1 = exited
    live = [2]; place 2 = 1

    # Only what is published is counted.
    call 2 0 = compiled 1
    call 2 1 = interpreted
    call 2 2 none = NoSuchMethod
    peek_counts = 0
    publish 2 = ok
    peek_counts = 1
    1..2: ret 2 = go
    ret 2 = EmptyStack
    peek_counts = 1

    # Its exit publishes the empty stack.
    exit 2 = exited
    peek_counts = 0; live = []
";

#[test]
fn a_thread_calls_returns_and_exits(rt: HostRuntime) -> Result<(), Fail> {
    play(&rt, rt.alloc(), [2, 4, 2], LIVES)
}

const REQUESTS: &str = "
    1..64: submit census = *
    submit census = QueueFull
";

#[test]
fn sixty_four_requests_wait(rt: HostRuntime) -> Result<(), Fail> {
    play(&rt, rt.alloc(), [1, 1, 1], REQUESTS)
}

// Makes parts with these numbers of places, slots and methods, and drops them.
const SIZES: &str = "
    parts 1 1 1, parts 64 1024 256 = ok
    parts 0 1 1, parts 65 1 1 = BadSize
    parts 1 0 1, parts 1 1025 1 = BadSize
    parts 1 1 0, parts 1 1 257 = BadSize
";

#[test]
fn sizes_have_limits(rt: HostRuntime) -> Result<(), Fail> {
    play(&rt, rt.alloc(), [1, 1, 1], SIZES)
}

// Uses the greatest method number, and as many threads as there can be.
const MANY: &str = "
    install 255 = 1
    1..64: start = *
    1..64: call * 255 = compiled 1
    1..64: publish * = ok
    peek_counts = 64
    1..64: ret * = go
    1..64: exit * = exited
    peek_counts = 0
";

#[test]
fn sixty_four_threads_start_and_exit(rt: HostRuntime) -> Result<(), Fail> {
    play(&rt, rt.alloc(), [64, 1024, 256], MANY)
}

const CROSSINGS: &str = "
    start = 1; from_native 1 = InJava
    to_native 1 = ok; to_native 1, publish 1 = InNative(Java)
    from_native 1 = go; block 1 = InJava

    to_vm 1, block 1 = ok; from_vm 1 = Blocked
    unblock 1 = go; back_edge 1 = InVm
    from_vm 1 = go; stop 1 = InJava

    # It doesn't exit in native code, and comes back.
    to_native 1 = ok; exit 1 = Illegal(InNative(Java))
    from_native 1 = go; exit 1 = exited
";

#[test]
fn a_thread_crosses_every_way(rt: HostRuntime) -> Result<(), Fail> {
    play(&rt, rt.alloc(), [1, 1, 1], CROSSINGS)
}

const PLACE: &str = "
    start = 1; place 1 = 0; exit 1 = exited
    start = 2; place 2 = 0; exit 2 = exited
";

#[test]
fn a_place_is_used_again(rt: HostRuntime) -> Result<(), Fail> {
    play(&rt, rt.alloc(), [1, 1, 1], PLACE)
}

// Somebody else takes the body of a thread in native code by its name, only once, and gives it back. It may do so only while a handshake
// or a census is pending for the thread.
const BODY: &str = "
    start = 1; to_native 1 = ok
    take 1 2 = Absent; take 1 1 = NothingTold

    # A handshake, until the thread has served itself. That it is in native code again doesn't matter then.
    submit depth of 1 = 1; open = 1; take 1 1 = NothingTold
    tell 1 = told; take 1 2 = Absent; take 1 1 = once
    state 1 = InNative(Java)
    from_native 1 = stop 1; stop 1 = served; take 1 1 = Absent
    to_native 1 = ok; take 1 1 = NothingTold
    hold 0 = AlreadyDone
    close = 1

    # A census, until it is operated and the thread is released.
    submit census, open = 2
    tell 1 = told; take 1 1 = once
    hold 0 = ok; take 1 1 = Absent
    operate = (2, [])
    release 0 = ok; take 1 1 = NothingTold
    hold 0 = AlreadyDone
    close = 2

    from_native 1 = go; exit 1 = exited
";

#[test]
fn a_held_body_comes_back(rt: HostRuntime) -> Result<(), Fail> {
    play(&rt, rt.alloc(), [1, 1, 1], BODY)
}

const CODES: &str = "
    start = 1; hint 0 = none
    install 0 = 1; hint 0 = 0:1; call 1 0 = compiled 1

    # A second code of the method is in use from now on: a call by the hint of the first is interpreted.
    call_over 1 0 = interpreted; hint 0 = 1:2; call 1 0 = compiled 2
    invalidate 1 = NotInUse

    # Where both slots are taken no code is installed, for no method, and the one in use stays.
    install 0, install 1 = Install(TableFull)
    install 2 = Install(NoSuchMethod)
    hint 0 = 1:2; hint 1 = none
    call 1 0 = compiled 2; call 1 1 = interpreted; call_by_hint 1 0 = compiled 2

    # It is taken out of use while it is on the stack.
    publish 1 = ok; peek_counts = 4
    invalidate 2 = ok; invalidate 2 = NotInUse
    call_by_hint 1 0 = interpreted
    1..7: ret 1 = go
    exit 1 = exited
";

#[test]
fn a_code_is_replaced_where_there_is_a_slot(rt: HostRuntime) -> Result<(), Fail> {
    play(&rt, rt.alloc(), [1, 2, 2], CODES)
}

const DEPTH: &str = "
    install 0 = 1; start = 1
    1..128: call 1 0 = compiled 1
    1..128: call 1 0 none = interpreted

    # No method is entered, with a hint or without one. That there is no such method is told first.
    publish 1 = ok; peek_counts = 128; hint 0 = 0:1
    call 1 0, call 1 0 none, call_by_hint 1 0 = DepthFull
    call 1 1, call_by_hint 1 1 = NoSuchMethod
    state 1 = InJava; publish 1 = ok; peek_counts = 128

    # There is room again after a return.
    ret 1 = go; call_by_hint 1 0 = compiled 1
    publish 1 = ok; peek_counts = 129
    call 1 0, call 1 0 none, call_by_hint 1 0 = DepthFull
    call 1 1, call_by_hint 1 1 = NoSuchMethod
    state 1 = InJava; publish 1 = ok; peek_counts = 129

    1..256: ret 1 = go
    ret 1 = EmptyStack
    exit 1 = exited; peek_counts = 0
";

#[test]
fn no_method_is_entered_on_a_full_stack(rt: HostRuntime) -> Result<(), Fail> {
    play(&rt, rt.alloc(), [1, 1, 1], DEPTH)
}
