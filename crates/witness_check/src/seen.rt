//! The state that the events and answers so far determine: the live threads and their places, the requests, and the replies.
ghost use Rattle.std.specs.Prelude.{◌≡◌, IfOk, OnOk};
ghost use Rattle.witness_check.specs.Seen.{sight, nothing_seen, are_live, are_replies, op_of, is_idle, is_live_call, is_replies_call, sees, is_that, name_at, reply_of, runs_next, is_counted, allows, started_at, replied, noted};

use crate::owed::{self, Owed};
use call_log::entry::Entry;
use call_log::lists::Job;
use call_log::word::Word;
use call_runs::reclaiming::is_reclaim;
use call_runs::says::is_census;
use call_runs::stage::Stage;
use std::alloc::{AllocError, Global};
use system::answers::Answer;
use system::events::Event;

/// The greatest number of places in a system.
const PLACES: usize = 64;

/// A thread's reply to an operation.
#[derive(Clone, Copy, Debug, PartialEq, Eq, Drop)]
pub struct Replied {
    pub op: u64,
    pub name: u64,
    pub reply: u64,
}

/// The state that the events and answers so far determine.
#[derive(Debug, Drop)]
pub struct Seen {
    /// The names that were given out, in their order.
    pub started: Vec<u64>,
    pub exited: Vec<u64>,
    /// The last of the names; 0 before the first.
    pub newest: u64,
    /// By place, the name of the thread that started there last; 0 before the first.
    pub here: Vec<u64>,
    /// The last number of a request, which is the number of requests.
    pub asked: u64,
    /// The number of the operation that was opened last.
    pub opened: u64,
    /// The numbers of the requests that were closed.
    pub closed: Vec<u64>,
    /// The due replies to handshakes, the oldest handshake first.
    pub owed: Vec<Owed>,
    /// The given replies, in the order of their Finishes.
    pub done: Vec<Replied>,
}

/// Whether the values are the names of the live threads.
fn are_live(started: &[u64], exited: &[u64], values: &[u64]) -> bool
    ensures { result ≡ are_live started.now exited.now values.now }
{
    let mut left = started;
    let mut values = values;
    while let [name, others @ ..] = left {
        if !exited.contains(name) {
            match values {
                [value, more @ ..] if *value == *name => values = more,
                _ => return false,
            }
        }
        left = others;
    }
    values.is_empty()
}

/// Whether the values are the names and replies of the operation's jobs.
fn are_replies(done: &[Replied], op: u64, values: &[u64]) -> bool
    ensures { result ≡ are_replies done.now op values.now }
{
    let mut left = done;
    let mut values = values;
    while let [job, others @ ..] = left {
        if job.op == op {
            match values {
                [name, reply, more @ ..] if *name == job.name && *reply == job.reply => {
                    values = more;
                }
                _ => return false,
            }
        }
        left = others;
    }
    values.is_empty()
}

fn is_live_call(call: Word) -> bool
    ensures { result ≡ is_live_call call }
{
    match call {
        Word::Live => true,
        _ => false,
    }
}

fn is_replies_call(call: Word) -> bool
    ensures { result ≡ is_replies_call call }
{
    match call {
        Word::Replies => true,
        _ => false,
    }
}

/// Whether the recorded job has this reply.
fn is_that(job: Option<Job>, replied: Option<Replied>) -> bool
    ensures { result ≡ is_that job replied }
{
    match (job, replied) {
        (Some(job), Some(replied)) => {
            job.op == replied.op && job.name == replied.name && job.reply == replied.reply
        }
        _ => false,
    }
}

impl Seen {
    pub fn new(alloc: Global) -> Result<Seen, AllocError>
        ensures { IfOk result (λ seen. sight seen ≡ nothing_seen) }
    {
        Ok(Seen {
            started: Vec::new(alloc),
            exited: Vec::new(alloc),
            newest: 0,
            here: vec![in alloc; 0u64; PLACES]?,
            asked: 0,
            opened: 0,
            closed: Vec::new(alloc),
            owed: Vec::new(alloc),
            done: Vec::new(alloc),
        })
    }

    /// Whether no request is open or waiting.
    fn is_idle(&self) -> bool
        ensures { result ≡ is_idle (sight self.now) }
    {
        (self.closed.len() as u64) >= self.asked
    }

    /// Whether the recorded answer of a reading call agrees with the state.
    fn sees(&self, entry: &Entry) -> bool
        ensures { result ≡ sees (sight self.now) entry.now }
    {
        match entry.answer {
            None => true,
            Some(Word::Names) => {
                is_live_call(entry.call)
                    && are_live(
                        self.started.as_slice(),
                        self.exited.as_slice(),
                        entry.values.as_slice(),
                    )
            }
            Some(Word::Replies) => {
                is_replies_call(entry.call)
                    && are_replies(self.done.as_slice(), op_of(entry), entry.values.as_slice())
            }
            Some(Word::AlreadyOpen) => is_reclaim(entry.call) && !self.is_idle(),
            Some(_) => false,
        }
    }

    fn name_at(&self, place: usize) -> u64
        ensures { result ≡ name_at (sight self.now) place }
    {
        self.here.get(place).copied().unwrap_or(0)
    }

    /// The reply of a Finish at the place: it is the oldest due reply of the thread there.
    fn reply_of(&self, place: usize, reply: u64) -> Option<Replied>
        ensures { result ≡ reply_of (sight self.now) place reply }
    {
        let name = self.name_at(place);
        let at = owed::oldest(self.owed.as_slice(), name)?;
        let owed = self.owed.get(at)?;
        Some(Replied {
            op: owed.op,
            name,
            reply,
        })
    }

    /// Whether a Finish at the place is the call's next job. Other answers are no jobs and pass.
    fn runs_next(&self, entry: &Entry, stage: Stage, place: usize, answer: &Answer) -> bool
        ensures { result ≡ runs_next (sight self.now) entry.now stage place answer.now }
    {
        match answer {
            Answer::Reply(reply) => is_that(
                entry.jobs.as_slice().get(stage.jobs as usize).copied(),
                self.reply_of(place, *reply),
            ),
            _ => true,
        }
    }

    /// Whether a census by hand answers the number of its operation.
    fn is_counted(&self, entry: &Entry, answer: &Answer) -> bool
        ensures { result ≡ is_counted (sight self.now) entry.now answer.now }
    {
        match (entry.call, answer) {
            (Word::Operate, Answer::Census(_)) => is_census(entry, self.opened),
            _ => true,
        }
    }

    /// Whether the call's next event is lawful in this state: a reading call's answer agrees with the state, a job is the recorded one, a
    /// census is the answered one, and a reclaiming asks only where no request is open or waiting.
    pub fn allows(
        &self,
        recorded: bool,
        entry: &Entry,
        stage: Stage,
        event: &Event,
        answer: &Answer,
    ) -> bool
        ensures { result ≡ allows recorded (sight self.now) entry.now stage event.now answer.now }
    {
        match event {
            Event::Resolve(_) => self.sees(entry),
            Event::At(place, _) => !recorded || self.runs_next(entry, stage, *place, answer),
            Event::Operate => self.is_counted(entry, answer),
            Event::Ask(_) => !is_reclaim(entry.call) || self.is_idle(),
            _ => true,
        }
    }

    /// A thread starts at the place.
    fn start(&mut self, name: u64, place: usize) -> Result<(), AllocError>
        ensures { OnOk result (sight self.new ≡ started_at (sight self.old) name place) }
    {
        self.started.push(name)?;
        self.newest = name;
        if place < self.here.len() {
            self.here[place] = name;
        }
        Ok(())
    }

    /// The thread at the place gives its oldest due reply.
    fn replied(&mut self, place: usize, reply: u64) -> Result<(), AllocError>
        ensures { OnOk result (sight self.new ≡ replied (sight self.old) place reply) }
    {
        let Some(made) = self.reply_of(place, reply) else {
            return Ok(());
        };
        owed::pay(&mut self.owed, made.name);
        self.done.push(made)?;
        Ok(())
    }

    /// Takes an event and its answer into the state.
    pub fn note(&mut self, event: &Event, answer: &Answer) -> Result<(), AllocError>
        ensures { OnOk result (sight self.new ≡ noted (sight self.old) event.now answer.now) }
    {
        match answer {
            Answer::Thread(name, place) => self.start(*name, *place)?,
            Answer::Exited(name) => self.exited.push(*name)?,
            Answer::Asked(number) => {
                self.asked = *number;
                owed::ask(&mut self.owed, *number, event)?;
            }
            Answer::Opened(number, _) => {
                self.opened = *number;
                owed::open(&mut self.owed, *number, self.newest);
            }
            Answer::Closed(number) => {
                owed::close(&mut self.owed, *number);
                self.closed.push(*number)?;
            }
            Answer::Reply(reply) => {
                if let Event::At(place, _) = event {
                    self.replied(*place, *reply)?;
                }
            }
            _ => {}
        }
        Ok(())
    }
}

fn op_of(entry: &Entry) -> u64
    ensures { result ≡ op_of entry.now }
{
    entry.args.as_slice().get(0).copied().unwrap_or(0)
}
