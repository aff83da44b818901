//! The jobs that ran in calls which haven't returned.
ghost use Rattle.std.specs.Prelude.{◌≡◌, ◌⊎◌, ◌++◌, ◌∷◌, [], true, false, IfOk, IfSome, IfNone};
ghost use Rattle.recorder.specs.Ran.{is_of, taken, left};
ghost use Rattle.recorder.specs.Streams.{are_of};
ghost use Rattle.recorder.specs.declared.ran.Runner.TheVariants.{Thread as IsThread};

use call_log::lists::Job;
use std::alloc::{AllocError, Global};
use std::marker::Model;

/// A job that ran, and whether its own thread ran it.
#[derive(Clone, Copy, Debug, PartialEq, Eq, Drop)]
pub struct RanJob {
    pub job: Job,
    pub is_own: bool,
}

/// Who ran a job: the thread of this name, on itself, or the coordinator, on a thread that it held.
#[derive(Clone, Copy, Debug, PartialEq, Eq, Drop)]
pub enum Runner {
    Thread(u64),
    Coordinator,
}

/// The jobs that ran and aren't part of an entry yet, in the order of their runs, and whether one was lost for want of memory.
#[derive(Drop)]
pub struct Ran {
    alloc: Global,
    jobs: Vec<RanJob>,
    lost: bool,
}

impl Model for Ran {
    ghost use Rattle.recorder.specs.Ran.{RanSeen};

    ghost Value = { RanSeen };

    ghost view = { λ r. record { jobs = r.jobs.items; lost = r.lost } };
}

/// Whether the runner ran the job.
fn is_of(runner: Runner, ran: RanJob) -> bool
    ensures { result ≡ is_of runner ran }
{
    match runner {
        Runner::Thread(name) => ran.is_own && ran.job.name == name,
        Runner::Coordinator => !ran.is_own,
    }
}

/// The jobs that the runner ran.
fn taken(alloc: Global, runner: Runner, jobs: &[RanJob]) -> Result<Vec<Job>, AllocError>
    ensures { IfOk result (λ list. list.items ≡ taken runner jobs.now) }
{
    let mut list = Vec::new(alloc);
    for ran in jobs {
        if is_of(runner, *ran) {
            list.push(ran.job)?;
        }
    }
    Ok(list)
}

/// The jobs that another runner ran.
fn left(alloc: Global, runner: Runner, jobs: &[RanJob]) -> Result<Vec<RanJob>, AllocError>
    ensures { IfOk result (λ list. list.items ≡ left runner jobs.now) }
{
    let mut list = Vec::new(alloc);
    for ran in jobs {
        if !is_of(runner, *ran) {
            list.push(*ran)?;
        }
    }
    Ok(list)
}

impl Ran {
    pub fn new(alloc: Global) -> Ran
        ensures { result ≡ record { jobs = []; lost = false } }
    {
        Ran {
            alloc,
            jobs: Vec::new(alloc),
            lost: false,
        }
    }

    /// Adds a job that ran. If memory is refused, it notes that a job is lost.
    pub fn note(&mut self, ran: RanJob)
        ensures { (self.new ≡ record self.old { jobs = self.old.jobs ++ ran ∷ [] })
            ⊎ (self.new ≡ record self.old { lost = true }) }
    {
        if self.jobs.push(ran).is_err() {
            self.lost = true;
        }
    }

    /// Takes the jobs that the runner ran; an entry contains them from now on. None if a job was lost.
    pub fn take(&mut self, runner: Runner) -> Option<Vec<Job>>
        ensures some { IfSome result (λ jobs. (jobs.items ≡ taken runner self.old.jobs)
            × (self.new ≡ record self.old { jobs = left runner self.old.jobs })
            × (self.old.lost ≡ false)) }
        ensures none { IfNone result (self.new ≡ record self.old { lost = true }) }
    {
        match self.parts(runner) {
            Ok((jobs, rest)) if !self.lost => {
                self.jobs = rest;
                Some(jobs)
            }
            _ => {
                self.lost = true;
                None
            }
        }
    }

    /// Takes the jobs that the thread of this name ran on itself. None if a job was lost.
    #[tactic(auto, using(crate::proofs::Owned::taken_are_of))]
    pub fn take_own(&mut self, name: u64) -> Option<Vec<Job>>
        ensures taken { IfSome result (λ jobs. (jobs.items ≡ taken (IsThread name) self.old.jobs)
            × (self.new ≡ record self.old { jobs = left (IsThread name) self.old.jobs })) }
        ensures own { IfSome result (λ jobs. are_of name jobs.items ≡ true) }
        ensures none { IfNone result (self.new ≡ record self.old { lost = true }) }
    {
        self.take(Runner::Thread(name))
    }

    fn parts(&self, runner: Runner) -> Result<(Vec<Job>, Vec<RanJob>), AllocError>
        ensures { IfOk result (λ r. (r.0.items ≡ taken runner self.now.jobs)
            × (r.1.items ≡ left runner self.now.jobs)) }
    {
        let jobs = self.jobs.as_slice();
        Ok((
            taken(self.alloc, runner, jobs)?,
            left(self.alloc, runner, jobs)?,
        ))
    }
}
