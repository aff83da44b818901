// The lanes of the places.
ghost use Rattle.std.specs.Prelude.{◌≡◌, ◌<◌, ◌^◌, ◌-◌, [], OnOk, IfOk, IfSome, Some, None, option_map, option_and_then, unwrap_or, slice_get};
ghost use Rattle.std.specs.List.{position};
ghost use Rattle.run_lanes.specs.Rows.{shows};
ghost use Rattle.run_lanes.specs.Lanes.{name_at};
ghost use Rattle.run_lanes.specs.Requests.{lane_in};
ghost use Rattle.run_lanes.specs.Threads.{state_after, depth_after};

use crate::looks::{Group, Lane, Paint};
use crate::painted::{Name, Painted};
use crate::rows::Rows;
use crate::widening::widen;
use std::alloc::{AllocError, Global};
use system::answers::Answer;
use system::events::Act;
use thread_state::{Move, State, cross, step};

/// The thread at a place.
#[derive(Clone, Copy, Drop)]
struct Thread {
    state: State,
    /// The number of frames on its stack.
    depth: u32,
}

const NONE: Thread = Thread {
    state: State::Vacant,
    depth: 0,
};

/// The places: the states and depths of their threads, their open publications, and which of them are held.
#[derive(Drop)]
pub(crate) struct Threads {
    places: Vec<Thread>,
    threads: Rows,
    publications: Rows,
    holds: Rows,
    newest: u64,
}

impl Threads {
    pub(crate) fn new(alloc: Global) -> Threads
        ensures places { result.places.items ≡ [] }
        ensures newest { result.newest ≡ 0 }
    {
        Threads {
            places: Vec::new(alloc),
            threads: Rows::new(alloc, Group::Places),
            publications: Rows::new(alloc, Group::Places),
            holds: Rows::new(alloc, Group::Places),
            newest: 0,
        }
    }

    /// The lane of a place, if the place ever had a thread.
    pub(crate) fn lane(&self, place: usize) -> Option<Lane>
        ensures { IfSome result
            (λ lane. lane ≡ record { group = self.now.threads.group; row = place }) }
    {
        if place < self.threads.len() {
            Some(self.threads.lane(place))
        } else {
            None
        }
    }

    /// The lane of the thread of this name, if it is live.
    pub(crate) fn lane_of(&self, name: u64) -> Option<Lane>
        ensures { result ≡ lane_in self.now.threads name }
    {
        Some(self.threads.lane(self.threads.find(name)?))
    }

    /// The place of the thread of this name, if it is live.
    pub(crate) fn place_of(&self, name: u64) -> Option<usize>
        ensures { result ≡ position (λ row. shows row name) self.now.threads.rows.items }
    {
        self.threads.find(name)
    }

    /// The name of the thread at a place.
    pub(crate) fn name(&self, place: usize) -> Option<u64>
        ensures { result ≡ name_at self.now place }
    {
        self.threads.number(place)
    }

    /// The number of frames of the thread at a place.
    pub(crate) fn depth(&self, place: usize) -> u32
        ensures { result
            ≡ unwrap_or (option_map
            (λ thread. thread.depth) (slice_get self.now.places.items place)) 0 }
    {
        match self.places.get(place) {
            Some(thread) => thread.depth,
            None => 0,
        }
    }

    /// The last name that was given out; 0 before the first.
    pub(crate) fn newest(&self) -> u64
        ensures { result ≡ self.now.newest }
    {
        self.newest
    }

    /// A thread starts at the place.
    pub(crate) fn start(
        &mut self,
        painted: &mut Painted,
        name: u64,
        place: usize,
        at: u64,
    ) -> Result<Lane, AllocError>
        ensures newest { OnOk result (self.new.newest ≡ name) }
        ensures lane { IfOk result
            (λ lane. lane ≡ record { group = self.old.threads.group; row = place }) }
    {
        widen(&mut self.places, place, NONE)?;
        if let Some(thread) = self.places.get_mut(place) {
            thread.state = State::New;
        }
        self.newest = name;
        self.threads.begin(painted, place, name, Paint::New, at)?;
        Ok(self.threads.lane(place))
    }

    /// Shows an act of the thread at the place, by its answer.
    pub(crate) fn follow(
        &mut self,
        painted: &mut Painted,
        place: usize,
        act: Act,
        answer: &Answer,
        at: u64,
    ) -> Result<(), AllocError> {
        match act {
            Act::Begin => {
                self.publications
                    .turn(painted, place, Some(Paint::Publishing), at)
            }
            Act::End => self.publications.turn(painted, place, None, at),
            Act::Hold => self.holds.turn(painted, place, Some(Paint::Held), at),
            Act::Release => self.holds.turn(painted, place, None, at),
            Act::Exit => self.exit(painted, place, at),
            _ => self.go(painted, place, act, answer, at),
        }
    }

    // Updates the state and the number of frames of the thread at the place after this act.
    fn go(
        &mut self,
        painted: &mut Painted,
        place: usize,
        act: Act,
        answer: &Answer,
        at: u64,
    ) -> Result<(), AllocError>
        ensures newest { self.new.newest ≡ self.old.newest }
        ensures state { OnOk result (option_map
            (λ thread. thread.state) (slice_get self.new.places.items place)
            ≡ option_map
            (λ thread. state_after thread.state act answer.now)
            (slice_get self.old.places.items place)) }
    {
        let Some(thread) = self.places.get_mut(place) else {
            return Ok(());
        };
        thread.state = state_after(thread.state, act, answer);
        thread.depth = depth_after(thread.depth, act, answer);
        let paint = Paint::of_state(thread.state);
        self.threads.turn(painted, place, paint, at)
    }

    // The thread at the place exits.
    fn exit(&mut self, painted: &mut Painted, place: usize, at: u64) -> Result<(), AllocError> {
        let Some(name) = self.threads.number(place) else {
            return Ok(());
        };
        if let Some(thread) = self.places.get_mut(place) {
            *thread = NONE;
        }
        let lane = self.threads.lane(place);
        painted.add_life(lane, Name::Thread(name), self.threads.begun(place), at)?;
        self.threads.turn(painted, place, None, at)
    }

    /// Ends the bars and names after the last line.
    pub(crate) fn finish(&mut self, painted: &mut Painted, at: u64) -> Result<(), AllocError> {
        for place in 0..self.threads.len() {
            self.exit(painted, place, at)?;
        }
        self.publications.finish(painted, at)?;
        self.holds.finish(painted, at)
    }
}

// The state after an act with its answer.
fn state_after(state: State, act: Act, answer: &Answer) -> State
    ensures { result ≡ state_after state act answer.now }
{
    let next = match (act, answer) {
        (_, Answer::Go) => cross(state, true),
        (_, Answer::Stop(_)) => cross(state, false),
        (Act::Wake, _) => step(state, Move::Wake),
        (Act::ToVm, _) => step(state, Move::ToVm),
        (Act::ToNative, _) => step(state, Move::ToNative),
        (Act::Block, _) => step(state, Move::Block),
        (Act::Take, _) => step(state, Move::Take),
        _ => Ok(state),
    };
    match next {
        Ok(next) => next,
        Err(_) => state,
    }
}

// The number of frames after an act with its answer.
fn depth_after(depth: u32, act: Act, answer: &Answer) -> u32
    ensures { depth < 2 ^ 32 - 1 → result ≡ depth_after depth act answer.now }
{
    match (act, answer) {
        (_, Answer::Entered) => depth.saturating_add(1),
        (Act::Leave, _) => depth.saturating_sub(1),
        _ => depth,
    }
}
