//! The calls of one machine thread, in program order.
ghost use Rattle.std.specs.Prelude.{◌≡◌, ◌<◌, ℕ, [], true, false, Some, None, IfSome, IfOk};
ghost use Rattle.recorder.specs.Short.{values};
ghost use Rattle.recorder.specs.Streams.{Adds, Notes, AddsOwn, AddsRun, NotesRun, IsLost, logged, rise, jobs_rise, are_of};

use crate::ran::Runner;
use crate::recorder::Recorder;
use crate::short::Short;
use call_log::entry::Entry;
use call_log::lists::{Job, Jobs, Numbers};
use call_log::word::Word;
use frames::LAST;
use std::alloc::{AllocError, Global};
use std::marker::Model;
use std::sync::Wait;

/// The calls of one machine thread. Their tickets rise, and so do those of the jobs that ran in each. If a call can't be noted, for want of
/// memory or of tickets, the stream is lost: it says so, and `write` writes no log.
#[derive(Drop)]
pub struct Stream<'a> {
    pub(crate) recorder: &'a Recorder,
    pub(crate) alloc: Global,
    number: u64,
    // The ticket after the last call, 0 before the first.
    last: u64,
    lost: bool,
    calls: Vec<Entry>,
}

impl<'a> Model for Stream<'a> {
    ghost use Rattle.std.specs.Prelude.{◌≡◌, true};
    ghost use Rattle.recorder.specs.Streams.{Streaming, rise};

    ghost Value = { Streaming };

    ghost view = { λ s. record {
      number = s.number;
      last = s.last;
      lost = s.lost;
      calls = s.calls.items;
    } };

    ghost invariant = { λ s. rise 0 s.calls.items s.last ≡ true };
}

/// A call that has begun, with the ticket drawn before it; None if no ticket was left.
#[derive(Clone, Copy, Debug, Drop)]
pub struct Begun {
    pub before: Option<u64>,
}

/// The entry of a call, with its own copies of the numbers.
fn entry_of(
    alloc: Global,
    stream: u64,
    tickets: (u64, u64),
    called: (Word, &[u64]),
    said: (Word, &[u64]),
    jobs: Vec<Job>,
) -> Result<Entry, AllocError>
    ensures { IfOk result (λ e. e ≡ logged stream tickets.0 tickets.1 called.entry.0
        called.entry.1.now said.entry.0 said.entry.1.now jobs.items) }
{
    Ok(Entry {
        stream,
        before: tickets.0,
        after: Some(tickets.1),
        call: called.0,
        args: Numbers::from_vec(Vec::from_slice(alloc, called.1)?),
        answer: Some(said.0),
        values: Numbers::from_vec(Vec::from_slice(alloc, said.1)?),
        jobs: Jobs::from_vec(jobs),
    })
}

/// Whether the tickets of the jobs rise, above `above` and below `end`.
fn jobs_rise(above: u64, jobs: &[Job], end: u64) -> bool
    ensures { result ≡ jobs_rise above jobs.now end }
{
    let mut last = above;
    for job in jobs {
        if job.ticket <= last {
            return false;
        }
        last = job.ticket;
    }
    last < end
}

impl<'a> Stream<'a> {
    /// An empty stream.
    pub(crate) fn new(recorder: &'a Recorder, number: u64, alloc: Global) -> Stream<'a>
        ensures { result ≡ record { number = number; last = 0; lost = false; calls = [] } }
    {
        Stream {
            recorder,
            alloc,
            number,
            last: 0,
            lost: false,
            calls: Vec::new(alloc),
        }
    }

    /// Whether the stream is lost, since a call couldn't be noted.
    pub fn is_lost(&self) -> bool
        ensures { result ≡ self.now.lost }
    {
        self.lost
    }

    /// The noted calls, in their order.
    pub fn calls(&self) -> &[Entry]
        ensures calls { result.now ≡ self.now.calls }
        ensures rise { rise 0 result.now self.now.last ≡ true }
    {
        self.calls.as_slice()
    }

    /// Marks the stream as lost.
    pub fn lose(&mut self)
        ensures { IsLost self.old self.new }
    {
        self.lost = true;
    }

    // Draws the next ticket; None unless it is above this one and at most the last ticket of a log.
    fn ticket_above(&self, above: u64) -> Option<u64>
        ensures { IfSome result (λ t. above < t) }
    {
        let ticket = self.recorder.draw();
        if ticket > above && ticket <= LAST {
            Some(ticket)
        } else {
            None
        }
    }

    /// Draws the ticket before a call.
    pub fn begin(&self) -> Begun
        ensures { IfSome result.before (λ t. self.now.last < t) }
    {
        Begun {
            before: self.ticket_above(self.last),
        }
    }

    // Draws the ticket after a call. Answers both tickets if those of the jobs rise between them.
    fn end(&self, begun: Begun, jobs: &[Job]) -> Option<(u64, u64)>
        requires { IfSome begun.before (λ t. self.now.last < t) }
        ensures above { IfSome result (λ t. self.now.last < t.0) }
        ensures between { IfSome result (λ t. jobs_rise t.0 jobs.now t.1 ≡ true) }
    {
        let before = begun.before?;
        let after = self.ticket_above(before)?;
        if jobs_rise(before, jobs, after) {
            Some((before, after))
        } else {
            None
        }
    }

    /// Draws the ticket after a call that has returned, and notes the call with its numbers, its answer, and the jobs that ran in it. If it
    /// can't, the stream is lost.
    #[tactic(auto, using(crate::proofs::Rise::rise_behind))]
    pub fn note(
        &mut self,
        begun: Begun,
        called: (Word, &[u64]),
        said: (Word, &[u64]),
        jobs: Vec<Job>,
    )
        requires { IfSome begun.before (λ t. self.old.last < t) }
        ensures { Adds self.old self.new called.entry.0 called.entry.1.now said.entry.0
            said.entry.1.now jobs.items }
    {
        let Some(tickets) = self.end(begun, jobs.as_slice()) else {
            self.lost = true;
            return;
        };
        let Ok(entry) = entry_of(self.alloc, self.number, tickets, called, said, jobs) else {
            self.lost = true;
            return;
        };
        if self.calls.push(entry).is_err() {
            self.lost = true;
        } else {
            self.last = tickets.1;
        }
    }

    // Notes a call in which no job ran and whose answer has at most one number. It notes nothing if the core has no such answer.
    pub(crate) fn note_short(&mut self, begun: Begun, called: (Word, &[u64]), said: Option<Short>)
        requires { IfSome begun.before (λ t. self.old.last < t) }
        ensures { Notes self.old self.new called.entry.0 called.entry.1.now said }
    {
        let Some(said) = said else { return };
        let none = Vec::new(self.alloc);
        match said.value {
            None => self.note(begun, called, (said.word, &[]), none),
            Some(n) => self.note(begun, called, (said.word, &[n]), none),
        }
    }

    // Notes a call in which the thread of this name ran jobs on itself.
    pub(crate) fn note_own<R: Wait>(
        &mut self,
        rt: &R,
        begun: Begun,
        called: (Word, &[u64]),
        said: (Word, &[u64]),
        name: u64,
    )
        requires { IfSome begun.before (λ t. self.old.last < t) }
        ensures { AddsOwn self.old self.new called.entry.0 called.entry.1.now said.entry.0
            said.entry.1.now name }
    {
        match self.recorder.take_own(rt, name) {
            Some(jobs) => self.note(begun, called, said, jobs),
            None => self.lose(),
        }
    }

    // Notes a call in which the coordinator ran jobs on threads that it held.
    pub(crate) fn note_run<R: Wait>(
        &mut self,
        rt: &R,
        begun: Begun,
        called: (Word, &[u64]),
        said: (Word, &[u64]),
    )
        requires { IfSome begun.before (λ t. self.old.last < t) }
        ensures { AddsRun self.old self.new called.entry.0 called.entry.1.now said.entry.0
            said.entry.1.now }
    {
        match self.recorder.take_jobs(rt, Runner::Coordinator) {
            Some(jobs) => self.note(begun, called, said, jobs),
            None => self.lose(),
        }
    }

    // Notes a call in which the coordinator ran jobs on threads that it held, and whose answer has at most one number. It notes nothing if
    // the core has no such answer.
    pub(crate) fn note_run_short<R: Wait>(
        &mut self,
        rt: &R,
        begun: Begun,
        called: (Word, &[u64]),
        said: Option<Short>,
    )
        requires { IfSome begun.before (λ t. self.old.last < t) }
        ensures { NotesRun self.old self.new called.entry.0 called.entry.1.now said }
    {
        let Some(said) = said else { return };
        match said.value {
            None => self.note_run(rt, begun, called, (said.word, &[])),
            Some(n) => self.note_run(rt, begun, called, (said.word, &[n])),
        }
    }
}
