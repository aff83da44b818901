// Tests of `thread_state`.
use super::{add, compare};
use std::alloc::{AllocError, Global};
use std::fmt::{Display, Write};
use std::process::Abort;
use std::test::Fail;
use thread_state::Back::{Java, Vm};
use thread_state::State::{
    AtPoll, Blocked, BlockedTrans, InJava, InNative, InVm, NativeTrans, New, NewTrans, Serving,
    Vacant,
};
use thread_state::{
    Move, State, cross, is_in_java, is_in_vm, is_safe, is_serving, may_cross, may_publish, step,
};

const STATES: [State; 15] = [
    Vacant,
    New,
    InJava,
    InVm,
    InNative(Java),
    InNative(Vm),
    Blocked,
    NewTrans,
    NativeTrans(Java),
    NativeTrans(Vm),
    BlockedTrans,
    AtPoll(Java),
    AtPoll(Vm),
    Serving(Java),
    Serving(Vm),
];

const MOVES: [Move; 7] = [
    Move::Start,
    Move::Wake,
    Move::ToVm,
    Move::ToNative,
    Move::Block,
    Move::Take,
    Move::Exit,
];

// For each state, as it is written: what it allows, each lawful move with the state after it, and the states after a poll that goes on and
// after one that stops.
const TABLE: &str = "\
Vacant; Start New
New safe publishes; Wake NewTrans
InJava publishes in_java; ToVm InVm; ToNative InNative(Java); Exit Vacant; on InJava; stop AtPoll(Java)
InVm publishes in_vm; ToNative InNative(Vm); Block Blocked; Exit Vacant; on InJava; stop AtPoll(Java)
InNative(Java) safe; Wake NativeTrans(Java)
InNative(Vm) safe; Wake NativeTrans(Vm)
Blocked safe; Wake BlockedTrans
NewTrans crosses; on InJava; stop AtPoll(Java)
NativeTrans(Java) crosses; on InJava; stop AtPoll(Java)
NativeTrans(Vm) crosses; on InVm; stop AtPoll(Vm)
BlockedTrans crosses; on InVm; stop AtPoll(Vm)
AtPoll(Java) safe; Take Serving(Java)
AtPoll(Vm) safe; Take Serving(Vm)
Serving(Java) publishes crosses serves; on InJava; stop AtPoll(Java)
Serving(Vm) publishes crosses serves; on InVm; stop AtPoll(Vm)";

#[test]
fn states_are_those_of_the_table(rt: HostRuntime) -> Result<(), Fail> {
    let mut rows = TABLE.lines();
    for state in STATES {
        let mut row = state.to_string(rt.alloc())?;
        tell_allowed(&rt, state, &mut row);
        tell_moves(state, &mut row)?;
        tell_polls(state, &mut row)?;
        let expected = rows.next().unwrap_or("no row");
        compare(&rt, expected, row, expected);
    }
    Ok(())
}

fn tell_allowed(rt: &impl Abort, state: State, row: &mut String) {
    for (is_allowed, word) in [
        (is_safe(state), " safe"),
        (may_publish(state), " publishes"),
        (may_cross(state), " crosses"),
        (is_in_java(state), " in_java"),
        (is_in_vm(state), " in_vm"),
        (is_serving(state), " serves"),
    ] {
        if is_allowed {
            add(rt, row, word);
        }
    }
}

fn tell_moves(state: State, row: &mut String) -> Result<(), AllocError> {
    for movement in MOVES {
        if let Ok(to) = step(state, movement) {
            write!(row, "; {movement:?} {to}")?;
        }
    }
    Ok(())
}

fn tell_polls(state: State, row: &mut String) -> Result<(), AllocError> {
    for (go, word) in [(true, "on"), (false, "stop")] {
        if let Ok(to) = cross(state, go) {
            write!(row, "; {word} {to}")?;
        }
    }
    Ok(())
}

#[test]
fn what_is_illegal_is_written_with_its_state(rt: HostRuntime) {
    let stopped = step(AtPoll(Java), Move::Wake).expect_err(&rt, "a stopped thread woke");
    is_written(&rt, rt.alloc(), stopped, "Illegal AtPoll(Java)");
    let blocked = cross(Blocked, true).expect_err(&rt, "a blocked thread polled");
    is_written(&rt, rt.alloc(), blocked, "Illegal Blocked");
    is_written(&rt, rt.alloc(), Java, "Java");
    is_written(&rt, rt.alloc(), Vm, "Vm");
}

fn is_written<T: Display + Drop>(rt: &impl Abort, alloc: Global, value: T, expected: &str) {
    let text = value.to_string(alloc).expect(rt, "no memory");
    compare(rt, expected, text, expected);
}
