//! Boxed jobs for tests of the layers that carry them.
//!
//! A proof about a boxed callback's answer considers all closures that are boxed, in each function that boxes some. Here that is done
//! once, and a test gets its jobs without knowing their box.

ghost use Rattle.std.specs.Prelude.{◌≡◌};
ghost use Rattle.operations.specs.Asks.{reply};

use frames::image::Image;
use operations::Ask;
use operations::job::{Call, HandshakeOp, Job};
use std::alloc::{AllocError, Global};

/// The target of a job, and its question.
pub type Asked = (u64, Ask);

/// What a test does with its lists of jobs, in this runtime.
pub trait Scenario<R>: Drop {
    type Out: Drop;

    fn play(self, rt: &R, alloc: Global, lists: Vec<Vec<Job>>) -> Result<Self::Out, AllocError>;
}

/// Plays with jobs that answer what is asked here, in this order.
pub fn with_jobs<R, S: Scenario<R>>(
    rt: &R,
    alloc: Global,
    asked: &[Vec<Asked>],
    scenario: S,
) -> Result<S::Out, AllocError> {
    let mut lists = Vec::new(alloc);
    for list in asked {
        let mut jobs = Vec::new(alloc);
        for (whom, ask) in list {
            let (whom, ask) = (*whom, *ask);
            let call: Call = Box::new(
                alloc,
                move |image: &Image| -> u64
                    ensures { result ≡ reply ask image.now.frames }
                { ask.reply_on(image) },
            )?;
            jobs.push(Job::new(whom, ask, call))
                .map_err(|_| AllocError)?;
        }
        lists.push(jobs).map_err(|_| AllocError)?;
    }
    scenario.play(rt, alloc, lists)
}

/// The names from 1 to this one, each asked this.
pub fn each(alloc: Global, last: u64, ask: Ask) -> Result<Vec<Asked>, AllocError> {
    let mut asked = Vec::new(alloc);
    for before in 0..last {
        asked.push((before + 1, ask)).map_err(|_| AllocError)?;
    }
    Ok(asked)
}

/// Takes the last of the lists; an empty list if none is left.
pub fn pop_list<J: HandshakeOp>(alloc: Global, lists: &mut Vec<Vec<J>>) -> Vec<J> {
    match lists.pop() {
        Some(jobs) => jobs,
        None => Vec::new(alloc),
    }
}
