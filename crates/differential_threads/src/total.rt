//! The schedules of many seeds.
ghost use Rattle.std.specs.Prelude.{◌≡◌};
ghost use Rattle.operations.specs.Asks.{reply};

use crate::running::play_over;
use differential_schedule::losses::Loss;
use differential_schedule::play::{Plan, Stopped};
use differential_schedule::stock::{Want, wanted};
use differential_schedule::tally::{Found, Tally, Total};
use frames::image::Image;
use operations::job::{Call, Job};
use std::alloc::{AllocError, Global};
use std::marker::Brand;
use std::sync::Wait;
use thread_list::Parts;

/// Plays the schedules of this many seeds, starting with `first`.
pub fn play_all<R: Wait>(rt: &R, alloc: Global, seeds: u64, first: u64) -> Result<Total, Found> {
    let mut all = Tally::none();
    for index in 0..seeds {
        let seed = first.saturating_add(index);
        match play_seed(rt, alloc, seed, None) {
            Ok(tally) => all.add(tally),
            Err(stopped) => return Err(Found { seed, stopped }),
        }
    }
    Ok(Total { seeds, first, all })
}

/// Plays the schedule of one seed beside a core that may drop an event or a reply.
pub fn play_seed<R: Wait>(
    rt: &R,
    alloc: Global,
    seed: u64,
    loss: Option<Loss>,
) -> Result<Tally, Stopped> {
    let plan = Plan::of(seed, loss);
    let wants = wanted(alloc, plan.sizes.places)?;
    play_with_jobs(rt, alloc, plan, wants.as_slice())
}

fn play_with_jobs<R: Wait>(
    rt: &R,
    alloc: Global,
    plan: Plan,
    wants: &[Want],
) -> Result<Tally, Stopped> {
    let mut jobs = Vec::new(alloc);
    for want in wants {
        let Want { name, ask } = *want;
        let call: Call = Box::new(
            alloc,
            move |image: &Image| -> u64
                ensures { result ≡ reply ask image.now.frames }
            { ask.reply_on(image) },
        )
        .map_err(|_| AllocError)?;
        if jobs.push(Job::new(name, ask, call)).is_err() {
            return Err(Stopped::NoMemory);
        }
    }
    play_parts(rt, alloc, plan, jobs)
}

fn play_parts<R: Wait>(
    rt: &R,
    alloc: Global,
    plan: Plan,
    jobs: Vec<Job>,
) -> Result<Tally, Stopped> {
    let sizes = plan.sizes;
    match Parts::new(
        alloc,
        sizes.places,
        sizes.slots as usize,
        sizes.methods as usize,
    ) {
        Ok(parts) => play_over::<Brand, Job, R>(rt, alloc, plan, parts, jobs),
        Err(_) => Err(Stopped::NoMemory),
    }
}
