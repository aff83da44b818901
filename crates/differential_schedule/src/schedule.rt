//! Chooses the next call.
ghost use Rattle.std.specs.Prelude.{◌<◌};

use crate::calls::{Call, CodeCall, Handshake, RequestCall, StepCall, ThreadCall};
use crate::habits::{Habits, Phase, Shares};
use crate::oracle::{Live, Oracle};
use crate::running::{Sizes, Thread};
use crate::stock::Stock;
use frames::CodeId;
use operations::Ask;
use test_tools::Choices;
use thread_state::{Back, State};

// While more requests than this wait, few others are submitted.
const FEW: usize = 3;

/// What the choice of a call depends on.
#[derive(Drop)]
pub struct Scene<'s> {
    pub phase: Phase,
    pub habits: Habits,
    pub sizes: Sizes,
    pub oracle: &'s Oracle,
    pub threads: &'s [Thread],
    pub stock: &'s Stock,
}

// The target threads of a step of a request.
#[derive(Clone, Copy)]
enum Whom {
    /// A target of an open request that hasn't armed its poll.
    Untold,
    /// A thread whose poll is armed for an operation without its Finish, and which isn't held.
    Unheld,
    /// A held thread whose poll is armed for an operation without its Finish.
    Unserved,
    /// A held thread that is done with all operations that armed its poll.
    Served,
}

// All of these. Each has its own kind of step.
const KINDS: [Whom; 4] = [Whom::Untold, Whom::Unheld, Whom::Unserved, Whom::Served];

// The states that a call assumes now and then in place of the thread's own.
const STATES: [State; 5] = [
    State::InJava,
    State::InVm,
    State::InNative(Back::Java),
    State::Blocked,
    State::AtPoll(Back::Java),
];

impl Scene<'_> {
    /// Chooses the next call. Most calls are legal in their state, some aren't.
    pub fn pick(&self, draw: &mut Choices) -> Call {
        if self.starts(draw) {
            return Call::Start;
        }
        let Shares { threads, codes, .. } = self.habits.shares(self.phase);
        let drawn = draw.below(100);
        if drawn < threads {
            self.of_thread(draw)
        } else if drawn < codes {
            self.of_code(draw)
        } else {
            self.of_request(draw)
        }
    }

    // While stacks grow, threads usually start until no place is vacant. Otherwise one starts now and then, even without a vacant place.
    fn starts(&self, draw: &mut Choices) -> bool {
        if self.threads.is_empty() {
            return draw.one_in(2);
        }
        if matches!(self.phase, Phase::Grow) && self.threads.len() < self.sizes.places {
            return draw.one_in(4);
        }
        draw.one_in(40)
    }

    fn of_thread(&self, draw: &mut Choices) -> Call {
        if self.threads.is_empty() {
            return Call::Start;
        }
        let index = draw.index(self.threads.len());
        let Thread { name, state, .. } = self.threads[index];
        let state = if draw.one_in(12) {
            STATES[draw.index(STATES.len())]
        } else {
            state
        };
        match state {
            State::InJava => self.in_java(draw, name),
            State::InVm => self.in_vm(draw, name),
            State::InNative(_) => self.away(draw, Call::Of(name, ThreadCall::FromNative)),
            State::Blocked => self.away(draw, Call::Of(name, ThreadCall::Unblock)),
            _ => Call::Of(name, ThreadCall::Stop),
        }
    }

    // While threads rest, a thread that is away usually stays away.
    fn away(&self, draw: &mut Choices, back: Call) -> Call {
        if matches!(self.phase, Phase::Rest) && !draw.one_in(8) {
            return self.of_request(draw);
        }
        back
    }

    fn in_java(&self, draw: &mut Choices, name: u64) -> Call {
        let Shares { calls, returns, .. } = self.habits.shares(self.phase);
        let drawn = draw.below(100);
        if drawn < calls {
            return Call::Of(name, self.call_method(draw));
        }
        if drawn < returns {
            return Call::Of(name, ThreadCall::Ret);
        }
        if matches!(self.phase, Phase::Rest) && draw.one_in(2) {
            return Call::Of(name, ThreadCall::ToNative);
        }
        if matches!(self.phase, Phase::Shrink) && draw.one_in(2) {
            return Call::Exit(name);
        }
        match draw.below(20) {
            0..=4 => Call::Of(name, ThreadCall::BackEdge),
            5..=9 => Call::Of(name, ThreadCall::Publish),
            10..=13 => Call::Of(name, ThreadCall::ToVm),
            14..=18 => Call::Of(name, ThreadCall::ToNative),
            _ => Call::Exit(name),
        }
    }

    fn in_vm(&self, draw: &mut Choices, name: u64) -> Call {
        if matches!(self.phase, Phase::Rest) && draw.one_in(2) {
            return Call::Of(name, ThreadCall::Block);
        }
        match draw.below(12) {
            0..=4 => Call::Of(name, ThreadCall::FromVm),
            5..=7 => Call::Of(name, ThreadCall::Block),
            8 | 9 => Call::Of(name, ThreadCall::ToNative),
            10 => Call::Of(name, ThreadCall::Publish),
            _ => Call::Exit(name),
        }
    }

    // A call with the method's hint, with a hint that may be old, or without one. Now and then the method doesn't exist.
    fn call_method(&self, draw: &mut Choices) -> ThreadCall {
        let method = self.method(draw);
        let hint = match draw.below(8) {
            0 => None,
            1 => self.any_code(draw),
            _ => self.oracle.hint(method),
        };
        ThreadCall::Call(method, hint)
    }

    fn method(&self, draw: &mut Choices) -> u32 {
        let methods = self.sizes.methods;
        if methods == 0 || draw.one_in(40) {
            return methods;
        }
        draw.index(methods as usize) as u32
    }

    fn any_code(&self, draw: &mut Choices) -> Option<CodeId> {
        if self.oracle.codes.is_empty() {
            return None;
        }
        let index = draw.index(self.oracle.codes.len());
        Some(self.oracle.codes[index].id)
    }

    // A serial: usually of a code in a slot, now and then any.
    fn serial(&self, draw: &mut Choices) -> u64 {
        if self.oracle.slots.is_empty() || draw.one_in(10) {
            return draw.index(self.oracle.codes.len().saturating_add(2)) as u64;
        }
        let slot = draw.index(self.oracle.slots.len());
        self.oracle.slots[slot]
    }

    fn of_code(&self, draw: &mut Choices) -> Call {
        match draw.below(16) {
            0..=3 => Call::Code(CodeCall::Install(self.method(draw))),
            4..=6 => Call::Code(CodeCall::Invalidate(self.serial(draw))),
            7 => Call::Code(CodeCall::Round),
            8 | 9 => Call::Code(CodeCall::Look(self.serial(draw), self.place(draw))),
            10 | 11 => Call::Code(CodeCall::Weigh(self.serial(draw))),
            12 => Call::Code(CodeCall::Free(self.serial(draw))),
            _ => self.reclaim(draw),
        }
    }

    // While a request is open or waits, the next call usually works on it first.
    fn reclaim(&self, draw: &mut Choices) -> Call {
        let idle = self.oracle.open.is_empty() && self.oracle.waiting.is_empty();
        if !idle && !draw.one_in(8) {
            return self.drive(draw);
        }
        if draw.one_in(2) {
            return Call::Code(CodeCall::Reclaim(self.serial(draw), None));
        }
        self.reclaim_with_jobs(draw)
    }

    // A handshake with jobs, if the stock has jobs for it.
    fn reclaim_with_jobs(&self, draw: &mut Choices) -> Call {
        let handshake = self.handshake(draw);
        let jobs = if self.stock.has(handshake) {
            Some(handshake)
        } else {
            None
        };
        Call::Code(CodeCall::Reclaim(self.serial(draw), jobs))
    }

    // A place; now and then the number past the last place.
    fn place(&self, draw: &mut Choices) -> usize {
        draw.index(self.sizes.places.saturating_add(1))
    }

    // The place of a live thread, or any.
    fn place_of_thread(&self, draw: &mut Choices) -> usize {
        if self.oracle.live.is_empty() || draw.one_in(10) {
            return self.place(draw);
        }
        let index = draw.index(self.oracle.live.len());
        self.oracle.live[index].place
    }

    // The name of a live thread, or any.
    fn name(&self, draw: &mut Choices) -> u64 {
        if self.oracle.live.is_empty() || draw.one_in(10) {
            return draw.below(self.oracle.names.saturating_add(3));
        }
        let index = draw.index(self.oracle.live.len());
        self.oracle.live[index].name
    }

    // A thread that needs this kind of step. The search begins at a drawn thread.
    fn wanted(&self, draw: &mut Choices, whom: Whom) -> Option<Live> {
        let count = self.oracle.live.len();
        if count == 0 || draw.one_in(6) {
            return None;
        }
        let first = draw.index(count);
        for live in &self.oracle.live[first..] {
            if self.is_wanted(whom, *live) {
                return Some(*live);
            }
        }
        for live in &self.oracle.live {
            if self.is_wanted(whom, *live) {
                return Some(*live);
            }
        }
        None
    }

    fn is_wanted(&self, whom: Whom, live: Live) -> bool {
        let told = self.oracle.undone(live).is_some();
        let held = self.oracle.is_held(live.place);
        match whom {
            Whom::Untold => self.oracle.untold(live).is_some(),
            Whom::Unheld => told && !held && self.is_away(live.name),
            Whom::Unserved => told && held,
            Whom::Served => held && !told,
        }
    }

    // Whether the thread is in native code or blocked.
    fn is_away(&self, name: u64) -> bool {
        for thread in self.threads {
            if thread.name == name {
                return matches!(thread.state, State::InNative(_) | State::Blocked);
            }
        }
        false
    }

    fn handshake(&self, draw: &mut Choices) -> Handshake {
        let count = match draw.below(16) {
            0 => 0,
            1..=12 => draw.index(3) as u64 + 1,
            _ => draw.below(66),
        };
        let step = if draw.one_in(16) {
            0
        } else {
            draw.index(2) as u64 + 1
        };
        Handshake {
            first: self.name(draw),
            step,
            count,
            ask: self.ask(draw),
            fits: true,
        }
    }

    fn ask(&self, draw: &mut Choices) -> Ask {
        match draw.below(4) {
            0 => Ask::Depth,
            1 => Ask::Top,
            _ => Ask::CountOf(self.serial(draw)),
        }
    }

    // Submits a handshake or a census; rarely if many requests wait.
    fn submit(&self, draw: &mut Choices) -> Call {
        if self.oracle.waiting.len() > FEW && !self.habits.greedy && !draw.one_in(6) {
            return Call::Request(RequestCall::Open);
        }
        if draw.one_in(4) {
            return Call::Request(RequestCall::SubmitCensus);
        }
        let handshake = self.handshake(draw);
        let spoiled = draw.one_in(16);
        let fits = !spoiled && self.stock.has(handshake);
        Call::Request(RequestCall::Submit(Handshake { fits, ..handshake }))
    }

    fn of_request(&self, draw: &mut Choices) -> Call {
        if self.habits.forgets && draw.one_in(16) {
            return Call::Request(RequestCall::Forget);
        }
        if self.habits.greedy && matches!(self.phase, Phase::Stay) && !draw.one_in(8) {
            return self.submit(draw);
        }
        if !self.oracle.open.is_empty() && draw.one_in(3) {
            return self.open_more(draw);
        }
        if !self.oracle.open.is_empty() || draw.one_in(8) {
            return self.step_of_request(draw);
        }
        match draw.below(12) {
            0..=3 => self.submit(draw),
            4..=6 => self.drive(draw),
            7 => self.reclaim(draw),
            _ => Call::Request(RequestCall::Open),
        }
    }

    fn drive(&self, draw: &mut Choices) -> Call {
        if draw.one_in(2) {
            return Call::Request(RequestCall::DriveFour);
        }
        Call::Request(RequestCall::Drive)
    }

    // Opens the oldest waiting request; submits one if none waits.
    fn open_more(&self, draw: &mut Choices) -> Call {
        if self.oracle.waiting.is_empty() {
            return self.submit(draw);
        }
        Call::Request(RequestCall::Open)
    }

    // Closes the oldest request, or the one of a number, which may be open or not.
    fn close(&self, draw: &mut Choices) -> Call {
        if draw.one_in(2) {
            return Call::Request(RequestCall::Close);
        }
        let index = draw.index(self.oracle.open.len().saturating_add(1));
        match self.oracle.open.get(index) {
            Some(open) => Call::Request(RequestCall::CloseOf(open.number)),
            None => Call::Request(RequestCall::CloseOf(draw.below(9))),
        }
    }

    // A legal step of the open requests. The search begins at a drawn kind. Now and then, and if no step is legal, it is any step.
    fn step_of_request(&self, draw: &mut Choices) -> Call {
        if draw.one_in(5) {
            return self.any_step(draw);
        }
        let first = draw.index(KINDS.len());
        for turn in 0..KINDS.len() {
            if let Some(call) = self.lawful_step(draw, KINDS[(first + turn) % KINDS.len()]) {
                return call;
            }
        }
        if self.oracle.held.is_empty() && draw.one_in(2) {
            return self.close(draw);
        }
        self.any_step(draw)
    }

    fn lawful_step(&self, draw: &mut Choices, whom: Whom) -> Option<Call> {
        let live = self.wanted(draw, whom)?;
        let step = match whom {
            Whom::Untold => StepCall::Tell(live.name),
            Whom::Unheld => StepCall::Hold(live.place),
            Whom::Served => StepCall::Release(live.place),
            Whom::Unserved if !self.oracle.is_census() => StepCall::Serve(live.place),
            Whom::Unserved if self.oracle.held.len() < self.oracle.live.len() => return None,
            Whom::Unserved => StepCall::Operate,
        };
        Some(Call::Step(step))
    }

    fn any_step(&self, draw: &mut Choices) -> Call {
        match draw.below(16) {
            0 | 1 => Call::Step(StepCall::Tell(self.name(draw))),
            2..=4 => Call::Step(StepCall::Hold(self.place_of_thread(draw))),
            5 | 6 => Call::Step(StepCall::Serve(self.place_of_thread(draw))),
            7 | 8 => Call::Step(StepCall::Operate),
            9 => Call::Step(StepCall::Release(self.place_of_thread(draw))),
            10 | 11 => self.close(draw),
            12 => Call::Request(RequestCall::Open),
            13 => self.submit(draw),
            _ => self.drive(draw),
        }
    }
}
