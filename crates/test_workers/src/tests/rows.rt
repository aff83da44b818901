//! A text of rows is played over a reclaimer. What a row is stands in `test_support/src/rows.rt`.
ghost use Rattle.std.specs.Prelude.{◌≡◌};

use crate::tests::steps::System;
use bodies::Name;
use operations::job::{HandshakeOp, Job};
use std::alloc::Global;
use std::marker::Brand;
use std::sync::Wait;
use std::test::Fail;
use test_support::rows::{Run, expect_whole, play_rows};
use test_support::threads::NamedThreads;
use thread_list::{Parts, Shared};
use workers::Reclaimer;

fn play_over<N: Name, J: HandshakeOp, R: Wait>(
    rt: &R,
    alloc: Global,
    parts: Parts,
    run: Run<'_>,
) -> Result<(), Fail>
    requires tables { (parts.board ≡ N.board) × (parts.row ≡ N.poll_row) }
{
    let Ok((shared, armer)) = Shared::<N, J>::new(alloc, parts) else {
        return Err(Fail::from("memory"));
    };
    let [_, _, methods] = run.sizes;
    let Ok(reclaimer) = Reclaimer::new(rt, alloc, &shared, armer, methods) else {
        return Err(Fail::from("no reclaimer"));
    };
    let mut system = System {
        reclaimer: Some(reclaimer),
        threads: NamedThreads::new(alloc, &shared),
    };
    expect_whole(play_rows(rt, alloc, &mut system, run.text, None))
}

/// Plays the text over a new reclaimer of so many methods, with two places and two slots a method.
pub fn play<R: Wait>(rt: &R, alloc: Global, methods: usize, text: &str) -> Result<(), Fail> {
    let sizes = [2, methods.saturating_mul(2), methods];
    let run = Run { sizes, text };
    play_over::<Brand, Job, R>(rt, alloc, run.parts(alloc)?, run)
}
