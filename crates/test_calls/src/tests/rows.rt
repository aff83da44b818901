//! Plays a text of rows over a running system. `test_support/src/rows.rt` defines a row.
ghost use Rattle.std.specs.Prelude.{◌≡◌};
ghost use Rattle.poll.specs.Rows.{full_armer};

use crate::tests::calls::asked_by;
use crate::tests::system::System;
use bodies::Name;
use coordinator::Coordinator;
use operations::job::{HandshakeOp, Job};
use poll::Armer;
use std::alloc::{AllocError, Global};
use std::marker::Brand;
use std::sync::Wait;
use std::test::Fail;
use test_support::rows::{Played, Run, Sizes, Stopped, expect_whole, play_rows};
use test_support::threads::NamedThreads;
use test_support::{Scenario, with_jobs};
use thread_list::{Parts, Shared};

// Makes a coordinator. Answers with it what was refused for want of memory; the next try uses the armer that the refusal hands back.
fn made<'a, N: Name, J: HandshakeOp>(
    shared: &'a Shared<N, J>,
    armer: Armer,
    alloc: Global,
) -> Result<(Coordinator<'a, N, J>, Option<String>), AllocError>
    requires armer { armer ≡ full_armer N.poll_row N.board.places }
{
    let armer = match Coordinator::new(shared, armer, alloc) {
        Ok(coordinator) => return Ok((coordinator, None)),
        Err(armer) => armer,
    };
    match Coordinator::new(shared, armer, alloc) {
        Ok(coordinator) => Ok((coordinator, Some(String::from_str(alloc, "a coordinator")?))),
        Err(_) => Err(AllocError),
    }
}

fn play_over<N: Name, J: HandshakeOp, R: Wait>(
    rt: &R,
    alloc: Global,
    parts: Parts,
    run: Run<'_>,
    jobs: Vec<Vec<J>>,
) -> Played
    requires tables { (parts.board ≡ N.board) × (parts.row ≡ N.poll_row) }
{
    let Ok((shared, armer)) = Shared::<N, J>::new(alloc, parts) else {
        return Err(Stopped::NoMemory);
    };
    let (coordinator, refused) = made(&shared, armer, alloc)?;
    let mut system = System {
        coordinator,
        threads: NamedThreads::new(alloc, &shared),
        jobs,
    };
    play_rows(rt, alloc, &mut system, run.text, refused)
}

// A run whose calls have jobs.
#[derive(Drop)]
struct WithJobs<'t>(Run<'t>);

impl<'t, R: Wait> Scenario<R> for WithJobs<'t> {
    type Out = Played;

    fn play(self, rt: &R, alloc: Global, lists: Vec<Vec<Job>>) -> Result<Played, AllocError> {
        let parts = self.0.parts(alloc)?;
        Ok(play_over::<Brand, Job, R>(rt, alloc, parts, self.0, lists))
    }
}

/// Plays the text over a new system of these sizes. Answers which call was refused for want of memory, if any was.
pub fn play_noting<R: Wait>(rt: &R, alloc: Global, sizes: Sizes, text: &str) -> Played {
    let asked = asked_by(alloc, text)?;
    with_jobs(rt, alloc, asked.as_slice(), WithJobs(Run { sizes, text }))?
}

/// Plays the text over a new system of these sizes, without any refusal of memory.
pub fn play<R: Wait>(rt: &R, alloc: Global, sizes: Sizes, text: &str) -> Result<(), Fail> {
    expect_whole(play_noting(rt, alloc, sizes, text))
}
