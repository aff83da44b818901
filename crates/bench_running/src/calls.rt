//! The calls of one thread, in loops. Each loop is a function of its own, to which the compiler gives registers of its own; inlined, its
//! counters would be in memory. Each loop but `lent_pairs` has the thread by value, like a thread of a runtime. A loop ends at the first
//! call that is refused or whose poll stops the thread. The functions to which a loop lends the thread are inlined into it, except `pairs`.
ghost use Rattle.std.specs.Prelude.{◌≡◌};

use crate::plan::{Kind, Plan, Times};
use crate::wrong::Wrong;
use crate::{clock, lives};
use bodies::{Called, Name};
use operations::job::HandshakeOp;
use std::sync::Wait;
use std::time::Clock;
use thread_list::{Mutator, Poll, Shared};
use thread_state::State;

// The method that is called again and again.
const METHOD: u32 = 3;

/// Notes the time of the plan's turns.
pub fn time_calls<N: Name, J: HandshakeOp, R: Wait + Clock>(
    rt: &R,
    times: &mut Times,
    shared: &Shared<N, J>,
) -> Result<(), Wrong> {
    let Some(thread) = lives::begin(rt, times.alloc, shared) else {
        return Err(Wrong::Answer);
    };
    let time = time_turns(rt, times.plan, thread)?;
    times.note(time)?;
    Ok(())
}

// The time of the turns of a thread, which exits after them.
fn time_turns<N: Name, J: HandshakeOp, R: Wait + Clock>(
    rt: &R,
    plan: Plan,
    thread: Mutator<'_, N, J>,
) -> Result<u64, Wrong> {
    let start = clock::begin(rt);
    let (thread, goes_on) = turns_of(rt, plan, thread);
    let time = clock::time_since(rt, start);
    let has_ended = lives::ends(rt, thread);
    let time = time?;
    if goes_on && has_ended {
        Ok(time)
    } else {
        Err(Wrong::Answer)
    }
}

// Makes the plan's turns. Returns the thread, and whether each call was accepted and none stopped the thread.
fn turns_of<'a, N: Name, J: HandshakeOp, R: Wait>(
    rt: &R,
    plan: Plan,
    thread: Mutator<'a, N, J>,
) -> (Mutator<'a, N, J>, bool) {
    match plan.kind {
        Kind::Native => crossings(rt, thread, plan.turns),
        Kind::BackEdge => back_edges(thread, plan.turns),
        Kind::Interpreted => interpreted_pairs(thread, plan.turns),
        Kind::Call => hinted_pairs(thread, plan.turns),
        Kind::Lent => over_lent(thread, plan.turns),
        Kind::Deep => stacks(thread, plan.turns, plan.arg),
        Kind::Publish => publications(thread, plan.turns, plan.arg),
        _ => (thread, false),
    }
}

#[inline(always)]
fn goes_on(said: Result<Poll, State>) -> bool {
    matches!(said, Ok(Poll::Go))
}

#[inline(always)]
fn ret<N: Name, J: HandshakeOp>(thread: &mut Mutator<'_, N, J>) -> bool {
    matches!(thread.ret(), Ok(Poll::Go))
}

#[inline(always)]
fn interpret<N: Name, J: HandshakeOp>(thread: &mut Mutator<'_, N, J>) -> bool {
    matches!(thread.call(METHOD, None), Ok(Called::Interpreted))
}

/// Publishes, and returns whether that was accepted.
#[inline(always)]
pub fn publish<N: Name, J: HandshakeOp>(thread: &mut Mutator<'_, N, J>) -> bool {
    thread.publish().is_ok()
}

#[inline(always)]
fn make_back_edges<N: Name, J: HandshakeOp>(thread: &mut Mutator<'_, N, J>, turns: u64) -> bool {
    for _ in 0..turns {
        if !goes_on(thread.back_edge()) {
            return false;
        }
    }
    true
}

#[inline(never)]
fn back_edges<'a, N: Name, J: HandshakeOp>(
    thread: Mutator<'a, N, J>,
    turns: u64,
) -> (Mutator<'a, N, J>, bool) {
    let mut thread = thread;
    let all = make_back_edges(&mut thread, turns);
    (thread, all)
}

#[inline(always)]
fn call<N: Name, J: HandshakeOp>(thread: &mut Mutator<'_, N, J>, method: u32) -> bool {
    thread.call_by_hint(method).is_ok()
}

#[inline(always)]
fn make_pairs<N: Name, J: HandshakeOp>(
    thread: &mut Mutator<'_, N, J>,
    method: u32,
    turns: u64,
) -> bool {
    for _ in 0..turns {
        if !(call(thread, method) && ret(thread)) {
            return false;
        }
    }
    true
}

/// Calls the method by its hint and returns, so many times.
#[inline(never)]
pub fn pairs<N: Name, J: HandshakeOp>(
    thread: &mut Mutator<'_, N, J>,
    method: u32,
    turns: u64,
) -> bool {
    make_pairs(thread, method, turns)
}

// Calls the method by its hint and returns, so many times.
#[inline(never)]
fn hinted_pairs<'a, N: Name, J: HandshakeOp>(
    thread: Mutator<'a, N, J>,
    turns: u64,
) -> (Mutator<'a, N, J>, bool) {
    let mut thread = thread;
    let all = make_pairs(&mut thread, METHOD, turns);
    (thread, all)
}

// Such pairs over a borrowed thread, where each call finds the thread's state and body in memory.
#[inline(never)]
fn lent_pairs<N: Name, J: HandshakeOp>(thread: &mut Mutator<'_, N, J>, turns: u64) -> bool {
    make_pairs(thread, METHOD, turns)
}

fn over_lent<'a, N: Name, J: HandshakeOp>(
    thread: Mutator<'a, N, J>,
    turns: u64,
) -> (Mutator<'a, N, J>, bool) {
    let mut thread = thread;
    let all = lent_pairs(&mut thread, turns);
    (thread, all)
}

#[inline(always)]
fn interpret_pairs<N: Name, J: HandshakeOp>(thread: &mut Mutator<'_, N, J>, turns: u64) -> bool {
    for _ in 0..turns {
        if !(interpret(thread) && ret(thread)) {
            return false;
        }
    }
    true
}

#[inline(never)]
fn interpreted_pairs<'a, N: Name, J: HandshakeOp>(
    thread: Mutator<'a, N, J>,
    turns: u64,
) -> (Mutator<'a, N, J>, bool) {
    let mut thread = thread;
    let all = interpret_pairs(&mut thread, turns);
    (thread, all)
}

/// So many calls, at most 256, of the methods from 0 on.
#[inline(always)]
pub fn go_down<N: Name, J: HandshakeOp>(thread: &mut Mutator<'_, N, J>, depth: u64) -> bool {
    for method in 0..depth.min(256) as u32 {
        if !call(thread, method) {
            return false;
        }
    }
    true
}

// So many calls, of methods whose numbers are seven apart.
#[inline(always)]
fn go_down_apart<N: Name, J: HandshakeOp>(thread: &mut Mutator<'_, N, J>, depth: u64) -> bool {
    for level in 0..depth {
        let method = (level.wrapping_mul(7) % 256) as u32;
        if !call(thread, method) {
            return false;
        }
    }
    true
}

/// So many returns.
#[inline(always)]
pub fn go_up<N: Name, J: HandshakeOp>(thread: &mut Mutator<'_, N, J>, depth: u64) -> bool {
    for _ in 0..depth {
        if !ret(thread) {
            return false;
        }
    }
    true
}

// So many stacks of this depth.
#[inline(always)]
fn make_stacks<N: Name, J: HandshakeOp>(
    thread: &mut Mutator<'_, N, J>,
    count: u64,
    depth: u64,
) -> bool {
    for _ in 0..count {
        if !(go_down_apart(thread, depth) && go_up(thread, depth)) {
            return false;
        }
    }
    true
}

// So many calls in all, a stack of this depth at a time.
#[inline(never)]
fn stacks<'a, N: Name, J: HandshakeOp>(
    thread: Mutator<'a, N, J>,
    turns: u64,
    depth: u64,
) -> (Mutator<'a, N, J>, bool) {
    let mut thread = thread;
    let count = turns.checked_div(depth).unwrap_or(0);
    let all = make_stacks(&mut thread, count, depth);
    (thread, all)
}

#[inline(always)]
fn make_publications<N: Name, J: HandshakeOp>(
    thread: &mut Mutator<'_, N, J>,
    turns: u64,
    codes: u64,
) -> bool {
    for _ in 0..turns {
        if !(go_down(thread, codes) && publish(thread) && go_up(thread, codes) && publish(thread)) {
            return false;
        }
    }
    true
}

#[inline(never)]
fn publications<'a, N: Name, J: HandshakeOp>(
    thread: Mutator<'a, N, J>,
    turns: u64,
    codes: u64,
) -> (Mutator<'a, N, J>, bool) {
    let mut thread = thread;
    let all = make_publications(&mut thread, turns, codes);
    (thread, all)
}

#[inline(always)]
fn cross<N: Name, J: HandshakeOp, R: Wait>(
    rt: &R,
    thread: &mut Mutator<'_, N, J>,
    turns: u64,
) -> bool {
    for _ in 0..turns {
        if !(thread.to_native(rt).is_ok() && goes_on(thread.from_native(rt))) {
            return false;
        }
    }
    true
}

#[inline(never)]
fn crossings<'a, N: Name, J: HandshakeOp, R: Wait>(
    rt: &R,
    thread: Mutator<'a, N, J>,
    turns: u64,
) -> (Mutator<'a, N, J>, bool) {
    let mut thread = thread;
    let all = cross(rt, &mut thread, turns);
    (thread, all)
}

/// So many pairs by one of several threads. The thread publishes after each given number of pairs, with the code on its stack and without
/// it; never for 0.
#[inline(never)]
pub fn publishing_pairs<N: Name, J: HandshakeOp>(
    thread: &mut Mutator<'_, N, J>,
    method: u32,
    turns: u64,
    every: u64,
) -> bool {
    if every == 0 {
        return pairs(thread, method, turns);
    }
    for _ in 0..turns.checked_div(every).unwrap_or(0) {
        if !(call(thread, method)
            && publish(thread)
            && pairs(thread, method, every.saturating_sub(1))
            && ret(thread)
            && publish(thread))
        {
            return false;
        }
    }
    true
}
