//! What a row's call answers. All calls are made by one thread, so no code is replaced with jobs.
use bodies::Name;
use operations::job::HandshakeOp;
use std::alloc::{AllocError, Global};
use std::sync::Wait;
use test_support::calls::call_of;
use test_support::rows::Player;
use test_support::said::{Said, done, numbered, shown, word};
use test_support::threads::NamedThreads;
use workers::{Reclaimer, RunFault, Tally};

/// The threads with what they share, and the reclaimer until it has finished.
#[derive(Drop)]
pub struct System<'a, N: Name, J: HandshakeOp> {
    pub reclaimer: Option<Reclaimer<'a, N, J>>,
    pub threads: NamedThreads<'a, N, J>,
}

// Replaces the code of a method, without jobs.
fn replace<N: Name, J: HandshakeOp, R: Wait>(
    rt: &R,
    alloc: Global,
    reclaimer: &mut Reclaimer<'_, N, J>,
    method: usize,
) -> Said {
    if method < reclaimer.methods() {
        done(alloc, reclaimer.replace(rt, method, Vec::new(alloc)))
    } else {
        word(alloc, "no method")
    }
}

// Replaces the code of each method, without jobs.
fn replace_each<N: Name, J: HandshakeOp, R: Wait>(
    rt: &R,
    alloc: Global,
    reclaimer: &mut Reclaimer<'_, N, J>,
) -> Said {
    let mut jobs = Vec::new(alloc);
    for _ in 0..reclaimer.methods() {
        jobs.push(Vec::new(alloc)).map_err(|_| AllocError)?;
    }
    if jobs.len() == reclaimer.methods() {
        done(alloc, reclaimer.replace_each(rt, jobs))
    } else {
        word(alloc, "no jobs")
    }
}

fn tallied<N: Name>(alloc: Global, tally: Result<Tally<N>, RunFault>) -> Said {
    match tally {
        Ok(tally) => {
            let (installed, freed) = (tally.installed.len(), tally.freed.len());
            format!(in alloc;
                "installed {installed} freed {freed} counts {}",
                tally.counts
            )
        }
        Err(fault) => shown(alloc, fault),
    }
}

impl<N: Name, J: HandshakeOp> System<'_, N, J> {
    // A call of the reclaimer, which goes with `finish`.
    fn reclaim<R: Wait>(&mut self, rt: &R, alloc: Global, name: &str, method: usize) -> Said {
        let Some(mut reclaimer) = self.reclaimer.take() else {
            return word(alloc, "finished");
        };
        let said = match name {
            "finish" => return tallied(alloc, reclaimer.finish(rt, alloc)),
            "replace" => replace(rt, alloc, &mut reclaimer, method),
            _ => replace_each(rt, alloc, &mut reclaimer),
        };
        self.reclaimer = Some(reclaimer);
        said
    }
}

impl<N: Name, J: HandshakeOp, R: Wait> Player<R> for System<'_, N, J> {
    fn answer(&mut self, rt: &R, alloc: Global, text: &str) -> Option<Said> {
        let call = call_of(text)?;
        match call.name {
            "start" => Some(self.threads.start(rt, alloc)),
            "install" => Some(numbered(alloc, self.threads.shared.install(rt, call.first))),
            "finish" | "replace" | "replace_each" => {
                Some(self.reclaim(rt, alloc, call.name, call.first as usize))
            }
            _ => self.threads.run(alloc, call),
        }
    }
}
