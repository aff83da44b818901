//! The calls of a thread in each of its states. A call that isn't legal there is refused with the state and changes nothing. A thread
//! whose poll was armed while it was away comes back to serve.
use crate::tests::rows::play;
use std::test::*;

// A thread that isn't in Java is refused for its state, and not since method 2 doesn't exist.
const STATES: &str = "
    install 0 = 1; start = 1; call 1 0 = compiled 1
    state 1 = InJava; place 1 = 0; peek_counts = 0

    # Java.
    exit 1 = StackNotEmpty
    from_vm 1, block 1, from_native 1, unblock 1, stop 1 = InJava
    state 1 = InJava; place 1 = 0; peek_counts = 0

    # Native code, left from Java.
    to_native 1 = ok
    call 1 0, call_by_hint 1 0, call 1 2 none, call_by_hint 1 2, ret 1, exit 1 = Illegal(InNative(Java))
    back_edge 1, to_vm 1, from_vm 1, block 1, publish 1, to_native 1, unblock 1, stop 1 = InNative(Java)
    state 1 = InNative(Java); place 1 = 0; peek_counts = 0

    # The VM, entered from Java.
    from_native 1 = go; state 1 = InJava; to_vm 1 = ok
    call 1 0, call_by_hint 1 0, call 1 2 none, call_by_hint 1 2, ret 1 = Illegal(InVm)
    exit 1 = StackNotEmpty
    back_edge 1, to_vm 1, from_native 1, unblock 1, stop 1 = InVm
    state 1 = InVm; place 1 = 0; peek_counts = 0

    # Native code, left from the VM.
    to_native 1 = ok
    call 1 0, call_by_hint 1 0, call 1 2 none, call_by_hint 1 2, ret 1, exit 1 = Illegal(InNative(Vm))
    back_edge 1, to_vm 1, from_vm 1, block 1, publish 1, to_native 1, unblock 1, stop 1 = InNative(Vm)
    state 1 = InNative(Vm); place 1 = 0; peek_counts = 0

    # A wait.
    from_native 1 = go; state 1 = InVm; block 1 = ok
    call 1 0, call_by_hint 1 0, call 1 2 none, call_by_hint 1 2, ret 1, exit 1 = Illegal(Blocked)
    back_edge 1, to_vm 1, from_vm 1, block 1, publish 1, to_native 1, from_native 1, stop 1 = Blocked
    state 1 = Blocked; place 1 = 0; peek_counts = 0

    unblock 1 = go; state 1 = InVm
    from_vm 1 = go; state 1 = InJava
    peek_counts = 0

    # It is told while it is in Java, and stops at its back edge, where alone its frame is published.
    submit depth of 1 = 1; open = 1; tell 1 = told; back_edge 1 = stop 1
    call 1 0, call_by_hint 1 0, call 1 2 none, call_by_hint 1 2, ret 1, exit 1 = Illegal(AtPoll(Java))
    back_edge 1, to_vm 1, from_vm 1, block 1, publish 1, to_native 1, from_native 1, unblock 1 = AtPoll(Java)
    state 1 = AtPoll(Java); place 1 = 0; peek_counts = 0
    replies 1 = []

    # It serves itself and goes on in Java.
    stop 1 = served
    replies 1 = [(1, 1)]
    exit 1 = StackNotEmpty
    from_vm 1, block 1, from_native 1, unblock 1, stop 1 = InJava
    state 1 = InJava; place 1 = 0; peek_counts = 1
    close = 1
    back_edge 1 = go; peek_counts = 1

    # It has the frame of its call and no more.
    ret 1 = go; ret 1 = EmptyStack
    exit 1 = exited
";

#[test]
fn each_call_is_refused_where_it_is_not_lawful(rt: HostRuntime) -> Result<(), Fail> {
    play(&rt, rt.alloc(), [1, 4, 2], STATES)
}

// Each thread comes back to a poll that stops it, serves itself, and replies with its depth, which equals its name.
const AWAY: &str = "
    install 0 = 1
    start = 1; call 1 0 = compiled 1
    start = 2; 1..2: call 2 0 = compiled 1
    start = 3; 1..3: call 3 0 = compiled 1

    # The first is in native code, left from Java; the second in a wait; the third in native code, left from the VM.
    to_native 1 = ok
    to_vm 2, block 2 = ok
    to_vm 3, to_native 3 = ok
    submit depth of 1 2 3 = 1; open = 1
    tell 1, tell 2, tell 3 = told

    from_native 1 = stop 1
    peek_counts = 0
    call 1 0, call_by_hint 1 0, call 1 2 none, call_by_hint 1 2, ret 1, exit 1 = Illegal(AtPoll(Java))
    back_edge 1, to_vm 1, from_vm 1, block 1, publish 1, to_native 1, from_native 1, unblock 1 = AtPoll(Java)
    state 1 = AtPoll(Java); place 1 = 0; peek_counts = 0
    replies 1 = []
    stop 1 = served; replies 1 = [(1, 1)]
    exit 1 = StackNotEmpty
    from_vm 1, block 1, from_native 1, unblock 1, stop 1 = InJava
    state 1 = InJava; place 1 = 0; peek_counts = 1
    ret 1 = go; ret 1 = EmptyStack
    exit 1 = exited

    # The others come back into the VM, at the places 1 and 2.
    unblock 2 = stop 1; from_native 3 = stop 1
    peek_counts = 0
    2..3: call * 0, call_by_hint * 0, call * 2 none, call_by_hint * 2, ret *, exit * = Illegal(AtPoll(Vm))
    2..3: back_edge *, to_vm *, from_vm *, block *, publish *, to_native *, from_native *, unblock * = AtPoll(Vm)
    2..3: state * = AtPoll(Vm)
    place 2 = 1; place 3 = 2; peek_counts = 0
    replies 1 = [(1, 1)]
    stop 2 = served; replies 1 = [(1, 1), (2, 2)]; peek_counts = 2
    stop 3 = served; replies 1 = [(1, 1), (2, 2), (3, 3)]; peek_counts = 5
    2..3: call * 0, call_by_hint * 0, call * 2 none, call_by_hint * 2, ret * = Illegal(InVm)
    2..3: exit * = StackNotEmpty
    2..3: back_edge *, to_vm *, from_native *, unblock *, stop * = InVm
    2..3: state * = InVm
    place 2 = 1; place 3 = 2; peek_counts = 5
    2..3: from_vm * = go
    1..2: ret 2 = go
    1..3: ret 3 = go
    2..3: ret * = EmptyStack
    2..3: exit * = exited
    peek_counts = 0

    close = 1
";

#[test]
fn who_is_told_while_away_comes_back_to_serve(rt: HostRuntime) -> Result<(), Fail> {
    play(&rt, rt.alloc(), [3, 4, 2], AWAY)
}
