//! The parties of a system play a text of rows. `test_support/src/rows.rt` defines a row. A call is a party, an act and its numbers; it
//! answers a number or the fault: `c tell 1, c tell 2 = 3`. `c` is the coordinator, and `a`, `b` and `k` are parties that it forked: the
//! texts start `a` and `b` as threads. `c fork d` makes a further party, and `a free` drops one. `k submit depth of 1 2 = 3` names the
//! targets 1 and 2, and then submits. A row that begins with `while desk:` or `while room 0:` is played while that lock is taken.
ghost use Rattle.std.specs.Prelude.{◌≡◌};

use crate::tests::host::Host;
use bodies::Name;
use coordinator_core::CoordinatorCore;
use parties::party::Party;
use parties::system::SharedSystem;
use std::alloc::{AllocError, Global};
use std::marker::Brand;
use std::sync::Arc;
use std::test::Fail;
use test_support::rows::{Played, Run, Sizes, Stopped, expect_whole, play_rows};
use thread_list::Parts;

// The parties of a system over these parts; None if there is no memory for the system.
fn made<N: Name>(alloc: Global, parts: Parts) -> Result<Option<Host<N>>, AllocError>
    requires tables { (parts.board ≡ N.board) × (parts.row ≡ N.poll_row) }
{
    let Ok((system, armer)) = SharedSystem::<N>::new(alloc, parts) else {
        return Ok(None);
    };
    let Ok(steps) = CoordinatorCore::new(alloc, armer, system.row()) else {
        return Ok(None);
    };
    let Ok(system) = Arc::new(alloc, system) else {
        return Ok(None);
    };
    let Ok(shared) = Arc::try_clone(&system) else {
        return Ok(None);
    };
    let coordinator = Party::coordinator(alloc, shared, steps);
    Ok(Some(Host::new(alloc, system, coordinator)?))
}

// Plays the text over a new system; None if there is no memory for the system. `refused` says what was refused before, if anything was.
fn play_over<N: Name, R>(
    rt: &R,
    alloc: Global,
    parts: Parts,
    run: Run<'_>,
    refused: Option<String>,
) -> Result<Option<Played>, AllocError>
    requires tables { (parts.board ≡ N.board) × (parts.row ≡ N.poll_row) }
{
    let Some(mut host) = made::<N>(alloc, parts)? else {
        return Ok(None);
    };
    Ok(Some(play_rows(rt, alloc, &mut host, run.text, refused)))
}

fn play_once<R>(
    rt: &R,
    alloc: Global,
    run: Run<'_>,
    refused: Option<String>,
) -> Result<Option<Played>, AllocError> {
    match run.parts(alloc) {
        Ok(parts) => play_over::<Brand, R>(rt, alloc, parts, run, refused),
        Err(AllocError) => Ok(None),
    }
}

/// Plays the text over a new system of these sizes. Answers which act was refused for want of memory, if any was.
pub fn play_noting<R>(rt: &R, alloc: Global, sizes: Sizes, text: &str) -> Played {
    let run = Run { sizes, text };
    if let Some(played) = play_once(rt, alloc, run, None)? {
        return played;
    }
    let refused = String::from_str(alloc, "a system")?;
    play_once(rt, alloc, run, Some(refused))?.unwrap_or(Err(Stopped::NoMemory))
}

/// Plays the text over a new system of these sizes, without any refusal of memory.
pub fn play<R>(rt: &R, alloc: Global, sizes: Sizes, text: &str) -> Result<(), Fail> {
    expect_whole(play_noting(rt, alloc, sizes, text))
}
