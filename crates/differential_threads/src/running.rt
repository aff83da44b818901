//! A running system whose calls are all made by one thread.
ghost use Rattle.std.specs.Prelude.{◌≡◌};
ghost use Rattle.poll.specs.Rows.{full_armer};

mod codes;
mod requests;
mod tables;
mod threads;

use berths::BodyOwner;
use bodies::Name;
use coordinator::Coordinator;
use differential_schedule::calls::Call;
use differential_schedule::play::{Plan, Stopped, play};
use differential_schedule::running::{Running, Thread};
use differential_schedule::said::Said;
use differential_schedule::tally::Tally;
use frames::{CodeId, Frame};
use operations::job::HandshakeOp;
use poll::Armer;
use std::alloc::{AllocError, Global};
use std::sync::Wait;
use tables::Tables;
use thread_list::{Mutator, Parts, Shared};

// A `BodyOwner` that keeps a body while the caller reads its stack.
struct Looking;

impl BodyOwner for Looking {}

/// What threads share, with the coordinator, the threads, and the jobs that no request has taken yet.
#[derive(Drop)]
pub struct Side<'a, N: Name, J: HandshakeOp> {
    alloc: Global,
    tables: Tables<'a, N, J>,
    coordinator: Coordinator<'a, N, J>,
    threads: Vec<Mutator<'a, N, J>>,
    jobs: Vec<J>,
    // The counts of the last census.
    counted: Vec<(u64, u32)>,
}

/// Plays the plan on a system of these parts, with these jobs.
pub fn play_over<N: Name, J: HandshakeOp, R: Wait>(
    rt: &R,
    alloc: Global,
    plan: Plan,
    parts: Parts,
    jobs: Vec<J>,
) -> Result<Tally, Stopped>
    requires tables { (parts.board ≡ N.board) × (parts.row ≡ N.poll_row) }
    requires sizes { (plan.sizes.places ≡ N.board.places) × (plan.sizes.slots ≡ N.board.slots) }
{
    match Shared::<N, J>::new(alloc, parts) {
        Ok((shared, armer)) => play_on(rt, alloc, plan, &shared, armer, jobs),
        Err(_) => Err(Stopped::NoMemory),
    }
}

fn play_on<N: Name, J: HandshakeOp, R: Wait>(
    rt: &R,
    alloc: Global,
    plan: Plan,
    shared: &Shared<N, J>,
    armer: Armer,
    jobs: Vec<J>,
) -> Result<Tally, Stopped>
    requires armer { armer ≡ full_armer N.poll_row N.board.places }
    requires sizes { (plan.sizes.places ≡ N.board.places) × (plan.sizes.slots ≡ N.board.slots) }
{
    let tables = Tables::new(shared, plan.sizes.places, plan.sizes.slots);
    match Coordinator::new(shared, armer, alloc) {
        Ok(coordinator) => play(rt, alloc, plan, side_of(alloc, tables, coordinator, jobs)),
        Err(_) => Err(Stopped::NoMemory),
    }
}

fn side_of<'a, N: Name, J: HandshakeOp>(
    alloc: Global,
    tables: Tables<'a, N, J>,
    coordinator: Coordinator<'a, N, J>,
    jobs: Vec<J>,
) -> Side<'a, N, J> {
    Side {
        alloc,
        tables,
        coordinator,
        threads: Vec::new(alloc),
        jobs,
        counted: Vec::new(alloc),
    }
}

impl<'a, N: Name, J: HandshakeOp, R: Wait> Running<R> for Side<'a, N, J> {
    fn answer(&mut self, rt: &R, call: Call) -> Said {
        match call {
            Call::Start => self.start(rt),
            Call::Of(name, call) => self.of_thread(rt, name, call),
            Call::Exit(name) => self.exit(rt, name),
            Call::Code(call) => self.of_code(rt, call),
            Call::Request(call) => self.of_request(rt, call),
            Call::Step(call) => self.step(rt, call),
        }
    }

    fn counted(&self) -> &[(u64, u32)] {
        self.counted.as_slice()
    }

    fn thread(&self, index: usize) -> Option<Thread> {
        match self.threads.get(index) {
            Some(thread) => Some(Thread {
                name: thread.name(),
                place: thread.place(),
                state: thread.state(),
            }),
            None => None,
        }
    }

    fn poll_word(&self, place: usize) -> u64 {
        self.tables.shared().row().peek(place)
    }

    fn hint(&self, method: u32) -> Option<CodeId> {
        self.tables.shared().hint(method)
    }

    fn weighable(&self, rt: &R, serial: u64) -> Said {
        self.tables.weighable(rt, serial)
    }

    fn count_word(&self, slot: u32) -> u64 {
        self.tables.count(slot)
    }

    fn sum_of_counts(&self) -> u64 {
        self.tables.shared().peek_counts()
    }

    fn live(&self, rt: &R) -> Result<Vec<u64>, AllocError> {
        self.tables.shared().live(rt)
    }

    fn replies(&self, rt: &R, op: u64) -> Result<Vec<(u64, u64)>, AllocError> {
        self.tables.shared().replies(rt, op)
    }

    fn kept_replies(&self, rt: &R, op: u64) -> Result<Option<Vec<(u64, u64)>>, AllocError> {
        self.tables.shared().kept_replies(rt, op)
    }

    fn stack(&self, rt: &R, thread: Thread) -> Result<Option<Vec<Frame>>, AllocError> {
        let Some(place) = self.tables.place(thread.place) else {
            return Ok(None);
        };
        let berth = self.tables.shared().berth(place);
        let mut room = berth.room().lock(rt);
        let Some((outgoing, _receipt)) = room.resume(thread.name, place) else {
            return Ok(None);
        };
        drop(room);
        let body = outgoing.into_body(&Looking);
        let frames = Vec::from_slice(self.alloc, body.frames());
        berth.give(rt, body);
        match frames {
            Ok(frames) => Ok(Some(frames)),
            Err(error) => Err(error),
        }
    }
}
