//! Checks whether the answers of a run can be right.
use crate::asked::AskedList;
use crate::codes::Codes;
use crate::tally::Seen;
use crate::wrong::Wrong;
use bodies::Name;
use operations::Ask;
use operations::job::HandshakeOp;
use std::sync::Wait;
use thread_list::Shared;

/// Checks that each reply of a handshake is from a target, no target has two, and each target that is still live has one.
pub fn check_names(
    op: u64,
    targets: &[u64],
    live: &[u64],
    replies: &[(u64, u64)],
) -> Result<(), Wrong> {
    for reply in replies {
        if !targets.contains(&reply.0) {
            return Err(Wrong::NotOf(op));
        }
    }
    for name in targets {
        let count = replies_of(*name, replies);
        if count > 1 {
            return Err(Wrong::Twice(op));
        }
        if count == 0 && live.contains(name) {
            return Err(Wrong::Unanswered(op));
        }
    }
    Ok(())
}

// How many replies the name has.
fn replies_of(name: u64, replies: &[(u64, u64)]) -> usize {
    let mut count: usize = 0;
    for reply in replies {
        if reply.0 == name {
            count = count.saturating_add(1);
        }
    }
    count
}

/// Checks that each reply is one that a stack may give.
pub fn check_replies(
    op: u64,
    ask: Ask,
    codes: &Codes,
    replies: &[(u64, u64)],
) -> Result<(), Wrong> {
    for reply in replies {
        if !codes.may_answer(ask, reply.1) {
            return Err(Wrong::Reply(op));
        }
    }
    Ok(())
}

/// Checks that a census lists only codes that are installed and not freed, in rising serial, each with at least one frame.
pub fn check_census(op: u64, list: &[(u64, u32)], codes: &Codes) -> Result<(), Wrong> {
    let mut last = 0;
    for entry in list {
        if entry.0 <= last || entry.1 == 0 || !codes.stands(entry.0) {
            return Err(Wrong::Census(op));
        }
        last = entry.0;
    }
    Ok(())
}

/// How many frames a census has counted of a code.
pub fn count_of(list: &[(u64, u32)], serial: u64) -> u64 {
    for entry in list {
        if entry.0 == serial {
            return entry.1 as u64;
        }
    }
    0
}

/// Checks that a thread that stopped for a handshake has a reply of it that fits its stack.
pub fn check_reply<N: Name, J: HandshakeOp, R: Wait>(
    rt: &R,
    shared: &Shared<N, J>,
    asked: &AskedList,
    seen: &Seen,
) -> Result<(), Wrong> {
    if asked.of(seen.op).is_none() {
        return Err(Wrong::NotOf(seen.op));
    }
    let Some(ask) = asked.ask_of(seen.op) else {
        return Ok(());
    };
    let replies = shared.replies(rt, seen.op)?;
    check_seen(seen, ask, replies.as_slice())
}

// Checks the reply of a thread against the stack that it saw at its stop.
fn check_seen(seen: &Seen, ask: Ask, replies: &[(u64, u64)]) -> Result<(), Wrong> {
    for reply in replies {
        if reply.0 == seen.name {
            return if reply.1 == seen.answer(ask) {
                Ok(())
            } else {
                Err(Wrong::Reply(seen.op))
            };
        }
    }
    Err(Wrong::Unanswered(seen.op))
}
