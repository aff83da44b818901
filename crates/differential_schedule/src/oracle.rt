//! The core beside a running system. It plays each call as its events, and predicts the answer of the call.
//!
//! The core goes first. If it refuses an event on which the running system would wait, the call isn't made and nothing has changed.
//!
//! The result of a call is `Ok` if its last event was played, and `Err` if an earlier event decided the answer.

mod codes;
mod driving;
mod requests;
mod threads;

use crate::calls::Call;
use crate::losses::{Loss, Lost};
use crate::running::Sizes;
use crate::said::Said;
use frames::{CodeId, Frame};
use std::alloc::{AllocError, Global};
use system::System;
use system::answers::{Answer, CountList, FrameList, Refusal};
use system::events::{Act, Event};
use test_tools::keep;
use thread_state::State;

/// A live thread.
#[derive(Clone, Copy)]
pub struct Live {
    pub name: u64,
    pub place: usize,
}

/// A request in the queue. A census has no targets.
#[derive(Drop)]
pub struct Waiting {
    pub targets: Option<Vec<u64>>,
}

/// An open request, with the number of names that were given out at its Open, and the names that are done with it.
#[derive(Drop)]
pub struct Opened {
    pub number: u64,
    pub targets: Option<Vec<u64>>,
    pub names: u64,
    pub done: Vec<u64>,
    pub operated: bool,
}

/// A reply of an operation.
#[derive(Clone, Copy)]
pub struct Reply {
    pub op: u64,
    pub name: u64,
    pub reply: u64,
}

/// A code and its method.
#[derive(Clone, Copy)]
pub struct Made {
    pub method: u32,
    pub id: CodeId,
}

/// The core, and what its answers have shown so far.
#[derive(Drop)]
pub struct Oracle {
    system: System,
    alloc: Global,
    /// Whether a census may stop a thread. That census can't be operated then, since one thread makes all calls.
    reckless: bool,
    /// What this core drops; None for a correct core.
    loss: Option<Loss>,
    /// Whether the core was refused memory. Its answers don't count then.
    pub starved: bool,
    /// In the order of their names.
    pub live: Vec<Live>,
    /// How many names are given out.
    pub names: u64,
    /// How many operation numbers are given out.
    pub asked: u64,
    pub waiting: Vec<Waiting>,
    /// The oldest first.
    pub open: Vec<Opened>,
    /// The places of the held threads, in the order of their Holds.
    pub held: Vec<usize>,
    /// By place, the last operation number with which its poll was armed.
    told: Vec<u64>,
    /// By place, the number with which its poll is still armed; 0 if it is clear.
    armed: Vec<u64>,
    /// By slot, the serial of the code there; 0 for none.
    pub slots: Vec<u64>,
    /// By method, the code that was installed last.
    hints: Vec<Option<CodeId>>,
    /// All codes.
    pub codes: Vec<Made>,
    pub replies: Vec<Reply>,
    /// The last operation whose replies are forgotten.
    forgotten: u64,
    /// The answer to the last Stack.
    pub frames: Vec<Frame>,
    /// The counts of the last census.
    pub counts: Vec<(u64, u32)>,
}

/// The most changes of a publication: each of 256 frames may have been replaced by another.
const CHANGES: usize = 512;

/// The most handshakes that are open at once.
const OPEN: usize = 4;

fn is_listed(targets: &Option<Vec<u64>>, name: u64) -> bool {
    match targets {
        Some(targets) => targets.contains(&name),
        None => true,
    }
}

impl Oracle {
    pub fn new(
        alloc: Global,
        sizes: Sizes,
        reckless: bool,
        loss: Option<Loss>,
    ) -> Result<Oracle, AllocError> {
        let Sizes {
            places,
            slots,
            methods,
        } = sizes;
        let told = vec![in alloc; 0; places]?;
        let armed = vec![in alloc; 0; places]?;
        let slots_of = vec![in alloc; 0; slots as usize]?;
        let hints = vec![in alloc; None; methods as usize]?;
        let Ok(system) = System::new(alloc, places, slots as usize, methods as usize) else {
            return Err(AllocError);
        };
        Ok(Oracle {
            system,
            alloc,
            reckless,
            loss,
            starved: false,
            live: Vec::new(alloc),
            names: 0,
            asked: 0,
            waiting: Vec::new(alloc),
            open: Vec::new(alloc),
            held: Vec::new(alloc),
            told,
            armed,
            slots: slots_of,
            hints,
            codes: Vec::new(alloc),
            replies: Vec::new(alloc),
            forgotten: 0,
            frames: Vec::new(alloc),
            counts: Vec::new(alloc),
        })
    }

    /// The answer that the running system must give to the call.
    pub fn answer(&mut self, call: Call) -> Said {
        let said = match call {
            Call::Start => self.start(),
            Call::Of(name, call) => self.of_thread(name, call),
            Call::Exit(name) => self.exit(name),
            Call::Code(call) => self.of_code(call),
            Call::Request(call) => self.of_request(call),
            Call::Step(call) => self.step(call),
        };
        match said {
            Ok(said) => said,
            Err(said) => said,
        }
    }

    // Plays one event, unless this core drops it.
    fn play(&mut self, event: Event) -> Said {
        if let Some(lost) = Lost::of(&event) {
            if self.loses(lost) {
                return lost.said();
            }
        }
        match self.system.apply(self.alloc, event) {
            Ok(answer) => self.said(answer),
            Err(_) => {
                self.starved = true;
                Said::NoMemory
            }
        }
    }

    // Whether this event is the one to drop. The call counts it.
    fn loses(&mut self, lost: Lost) -> bool {
        let Some(loss) = self.loss else { return false };
        if loss.lost != lost {
            return false;
        }
        if loss.before == 0 {
            self.loss = None;
            return true;
        }
        self.loss = Some(Loss {
            lost,
            before: loss.before - 1,
        });
        false
    }

    // The core's answer as a `Said`. Frames and counts are kept in the oracle.
    fn said(&mut self, answer: Answer) -> Said {
        match answer {
            Answer::Done => Said::Done,
            Answer::Thread(name, place) => Said::Thread(name, place),
            Answer::Exited(name) => Said::Exited(name),
            Answer::Changed(_, _) => Said::Changed,
            Answer::NoChange => Said::NoChange,
            Answer::Go => Said::Go,
            Answer::Stop(number) => Said::Stop(number),
            Answer::Entered => Said::Entered,
            Answer::WrongMethod => Said::SentAway,
            Answer::Reply(reply) => Said::Reply(reply),
            Answer::Frames(frames) => self.keep_frames(&frames),
            Answer::Code(serial) => Said::Code(serial),
            Answer::NoCode => Said::NoCode,
            Answer::Clear => Said::Clear,
            Answer::Late => Said::Late,
            Answer::NotLooked(place) => Said::NotLooked(place),
            Answer::Used(count) => Said::Used(count as u64),
            Answer::Retired => Said::Retired,
            Answer::Asked(number) => {
                self.asked = number;
                Said::Asked(number)
            }
            Answer::Opened(number, _) => Said::Opened(number),
            Answer::Closed(number) => Said::Closed(number),
            Answer::Told => Said::Told,
            Answer::Gone => Said::Gone,
            Answer::Census(counts) => self.keep_counts(&counts),
            Answer::Count(count) => Said::Number(count as u64),
            Answer::State(_) => Said::Done,
            Answer::Refused(refusal) => Said::Refused(refusal),
        }
    }

    fn keep_frames(&mut self, frames: &FrameList) -> Said {
        self.frames.clear();
        for frame in frames.as_slice() {
            if self.frames.push(*frame).is_err() {
                self.starved = true;
            }
        }
        Said::Frames
    }

    fn keep_counts(&mut self, counts: &CountList) -> Said {
        self.counts.clear();
        for counted in counts.as_slice() {
            if self.counts.push((counted.serial, counted.count)).is_err() {
                self.starved = true;
            }
        }
        Said::Counts
    }

    fn at(&mut self, place: usize, act: Act) -> Said {
        self.play(Event::At(place, act))
    }

    // Plays an act that must answer Done.
    fn done(&mut self, place: usize, act: Act) -> Result<(), Said> {
        match self.at(place, act) {
            Said::Done => Ok(()),
            other => Err(other),
        }
    }

    // Plays a Cross that must let the thread continue.
    fn cross(&mut self, place: usize) -> Result<(), Said> {
        match self.at(place, Act::Cross) {
            Said::Go => Ok(()),
            other => Err(other),
        }
    }

    // A publication: Begin, each Change, End.
    fn publish(&mut self, place: usize) -> Result<(), Said> {
        self.done(place, Act::Begin)?;
        for _change in 0..CHANGES {
            if !matches!(self.at(place, Act::Change), Said::Changed) {
                break;
            }
        }
        self.done(place, Act::End)
    }

    /// The state of the thread at the place. Between two calls no thread is in a transition, and the core refuses a Cross with the state.
    pub fn state_at(&mut self, place: usize) -> State {
        match self.at(place, Act::Cross) {
            Said::Refused(Refusal::Illegal(state)) => state,
            _ => State::Vacant,
        }
    }

    /// Keeps the frames of the thread at the place in `frames`.
    pub fn look_at_stack(&mut self, place: usize) -> Said {
        self.at(place, Act::Stack)
    }

    /// The index of the code in the slot, which is its count of published frames; 0 for an empty slot.
    pub fn count_in(&mut self, slot: u32) -> u64 {
        let serial = self.slots.get(slot as usize).copied().unwrap_or(0);
        if serial == 0 {
            return 0;
        }
        match self.play(Event::Count(serial)) {
            Said::Number(count) => count,
            _ => 0,
        }
    }

    /// Why the code can't be weighed; Done if it can. It asks with a Look at a place that doesn't exist: a code that can be weighed is
    /// refused for the place only.
    pub fn weighable(&mut self, serial: u64) -> Said {
        match self.play(Event::Look(serial, usize::MAX)) {
            Said::Refused(Refusal::NoSuchPlace) => Said::Done,
            other => other,
        }
    }

    /// The number with which the poll of the place is armed; 0 if it is clear.
    pub fn armed_at(&self, place: usize) -> u64 {
        self.armed.get(place).copied().unwrap_or(0)
    }

    /// The replies of the operation, each with its name; None if they are forgotten.
    pub fn kept_replies(&self, op: u64) -> Result<Option<Vec<(u64, u64)>>, AllocError> {
        if op <= self.forgotten {
            return Ok(None);
        }
        let mut list = Vec::new(self.alloc);
        for reply in &self.replies {
            if reply.op == op {
                keep(&mut list, (reply.name, reply.reply))?;
            }
        }
        Ok(Some(list))
    }

    /// The code that was installed last for the method.
    pub fn hint(&self, method: u32) -> Option<CodeId> {
        self.hints.get(method as usize).copied().unwrap_or(None)
    }

    fn arm(&mut self, place: usize, number: u64) {
        if let Some(word) = self.armed.get_mut(place) {
            *word = number;
        }
        if let Some(last) = self.told.get_mut(place) {
            *last = number;
        }
    }

    // Clears the number. A greater one that armed the poll since then stays.
    fn disarm(&mut self, place: usize, number: u64) {
        if let Some(word) = self.armed.get_mut(place) {
            if *word == number {
                *word = 0;
            }
        }
    }

    fn place_of(&self, name: u64) -> Option<usize> {
        for live in &self.live {
            if live.name == name {
                return Some(live.place);
            }
        }
        None
    }

    /// Whether the thread at the place is held.
    pub fn is_held(&self, place: usize) -> bool {
        self.held.contains(&place)
    }

    /// Whether a census is open.
    pub fn is_census(&self) -> bool {
        match self.open.first() {
            Some(open) => open.targets.is_none(),
            None => false,
        }
    }

    // Whether a live thread is due for an open request.
    fn is_due(&self, name: u64) -> bool {
        for open in &self.open {
            if open.is_due(name) {
                return true;
            }
        }
        false
    }

    // The last operation number with which the poll of the place was armed.
    fn last_told(&self, place: usize) -> u64 {
        self.told.get(place).copied().unwrap_or(0)
    }

    /// The oldest open request that lists the live thread and hasn't armed its poll.
    pub fn untold(&self, live: Live) -> Option<u64> {
        let last = self.last_told(live.place);
        for open in &self.open {
            if open.number > last && open.is_of(live.name) {
                return Some(open.number);
            }
        }
        None
    }

    /// The oldest open request that has armed the poll of the live thread and has no Finish of it.
    pub fn undone(&self, live: Live) -> Option<u64> {
        let last = self.last_told(live.place);
        for open in &self.open {
            if open.number <= last && open.is_due(live.name) {
                return Some(open.number);
            }
        }
        None
    }

    // The live thread at the place.
    fn live_at(&self, place: usize) -> Option<Live> {
        for live in &self.live {
            if live.place == place {
                return Some(*live);
            }
        }
        None
    }

    // Whether an open census that isn't operated has armed the poll of the place. The thread doesn't continue past a stop then.
    fn is_kept(&self, place: usize) -> bool {
        self.armed_at(place) != 0 && self.is_census()
    }

    // Refuses a call that would wait for a census, unless the schedule is reckless.
    fn may_go_on(&self, place: usize) -> Result<(), Said> {
        if self.is_kept(place) && !self.reckless {
            return Err(Said::Waits);
        }
        Ok(())
    }
}
