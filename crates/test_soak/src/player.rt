//! A thread of the run. It calls, returns, polls, publishes, and goes into native code, the VM or a wait at random, and checks whether the
//! answers can be right.
use crate::calls::Calls;
use crate::signals::Signals;
use crate::tally::{Report, Seen};
use crate::wrong::{Step, Wrong, note};
use bodies::{Called, Name};
use desk::StartFault;
use operations::job::HandshakeOp;
use recorder::Stream;
use std::alloc::Global;
use std::sync::Wait;
use std::thread;
use test_tools::Choices;
use thread_list::{CallFault, ExitFault, Mutator, Poll, ReturnFault, Shared};
use thread_state::State;

// How many frames a stack has at most.
const DEEPEST: usize = 256;

// One in this many acts is an exit and a new start, if that is allowed.
const ACTS: u64 = 50;

// How often a thread yields at most in native code, in the VM or blocked.
const YIELDS: u64 = 8;

// The player of one thread of the system, or of several, one after the other.
#[derive(Drop)]
struct Player<'r, 's, 'a, N: Name, J: HandshakeOp, R: Wait> {
    rt: &'r R,
    alloc: Global,
    shared: &'s Shared<N, J>,
    signals: &'s Signals,
    calls: Calls<'r, 'a, R>,
    choices: Choices,
    // The number of acts made.
    made: u64,
    // The serial of each frame's code, 0 if it is interpreted.
    stack: Vec<u64>,
    report: Report,
}

/// Runs threads one after the other until the run is over. Answers what they did, and the stream of their calls.
pub fn play<'a, N: Name, J: HandshakeOp, R: Wait>(
    rt: &R,
    alloc: Global,
    shared: &Shared<N, J>,
    signals: &Signals,
    stream: Option<Stream<'a>>,
    seed: u64,
) -> (Report, Option<Stream<'a>>) {
    let mut player = Player {
        rt,
        alloc,
        shared,
        signals,
        calls: Calls { rt, stream },
        choices: Choices::new(seed),
        made: 0,
        stack: Vec::new(alloc),
        report: Report::default(),
    };
    for _ in rt.forever() {
        if signals.is_over() || !player.live() {
            break;
        }
    }
    (player.report, player.calls.stream)
}

impl<'r, 's, 'a, N: Name, J: HandshakeOp, R: Wait> Player<'r, 's, 'a, N, J, R> {
    fn note(&mut self, found: Wrong) {
        note(&mut self.report.wrong, found);
    }

    // Notes the step as wrong unless its answer is right.
    fn expect(&mut self, is_right: bool, step: Step) {
        if !is_right {
            self.note(Wrong::Answer(step));
        }
    }

    // Runs a thread from its start to its exit, if more acts are allowed. Answers whether another thread may follow.
    fn live(&mut self) -> bool {
        let most = self.signals.acts();
        if self.made >= most {
            self.give_way();
            return true;
        }
        let Some(thread) = self.start() else {
            return false;
        };
        let mut thread = thread;
        self.act_on(&mut thread, most);
        self.exit(thread);
        true
    }

    // Starts a thread; while a census is open it tries again. Answers None if the run ends before that, or memory is refused.
    fn start(&mut self) -> Option<Mutator<'s, N, J>> {
        let rt = self.rt;
        let shared = self.shared;
        for _ in rt.forever() {
            match self.calls.start(shared, self.alloc) {
                Ok(thread) => {
                    self.report.tally.names = self.report.tally.names.saturating_add(1);
                    return Some(thread);
                }
                Err(fault) => {
                    if !self.may_start(fault) {
                        return None;
                    }
                }
            }
        }
        unreachable!()
    }

    // Whether a refused start may be tried again.
    fn may_start(&mut self, fault: StartFault) -> bool {
        match fault {
            StartFault::SafepointOpen => {
                thread::yield_now();
                self.give_way();
                !self.signals.is_over()
            }
            StartFault::NoMemory => {
                self.note(Wrong::NoMemory);
                false
            }
            _ => {
                self.note(Wrong::Answer(Step::Start));
                false
            }
        }
    }

    // Acts until the thread must exit. It makes at most `most` acts.
    fn act_on(&mut self, thread: &mut Mutator<'_, N, J>, most: u64) {
        let rt = self.rt;
        for _ in rt.forever() {
            if self.is_done(most) {
                return;
            }
            self.made = self.made.saturating_add(1);
            self.act(thread);
        }
    }

    // Whether the thread must exit: if acts are limited, after the last of them; otherwise at the end of the run, or to let another start.
    fn is_done(&mut self, most: u64) -> bool {
        if most != u64::MAX {
            return self.made >= most;
        }
        self.signals.is_over() || (self.choices.one_in(ACTS) && self.signals.may_renew())
    }

    fn act(&mut self, thread: &mut Mutator<'_, N, J>) {
        match self.choices.below(21) {
            0..=5 => self.call(thread),
            6..=11 => self.return_from(thread),
            12 | 13 => self.turn(thread),
            14 => self.publish(thread),
            15 => self.go_native(thread),
            16 | 17 => self.go_vm(thread),
            18 => self.unwind(thread),
            19 => self.call_in_vain(thread),
            _ => self.go_deep(thread),
        }
    }

    // Calls a method with its hint; now and then the method doesn't exist.
    fn call(&mut self, thread: &mut Mutator<'_, N, J>) {
        let methods = self.shared.methods();
        let method = if methods == 0 || self.choices.one_in(64) {
            methods
        } else {
            self.choices.below(methods as u64) as u32
        };
        self.call_method(thread, method);
    }

    // A code that was invalidated before the call must not be entered.
    fn call_method(&mut self, thread: &mut Mutator<'_, N, J>, method: u32) {
        let hint = self.shared.hint(method);
        self.hesitate();
        let invalidated = self.signals.invalidated(method);
        match self.calls.call(thread, method, hint) {
            Ok(Called::Compiled(serial)) => self.enter(serial, invalidated),
            Ok(Called::Interpreted) => self.push(0),
            Err(fault) => self.note_refused(method, fault),
        }
    }

    fn hesitate(&mut self) {
        let times = self.signals.habits.hesitation;
        if times != 0 && self.choices.one_in(times) {
            self.give_way();
        }
    }

    // Notes that a code was entered. The codes of the method up to serial `invalidated` were invalidated before the call.
    fn enter(&mut self, serial: u64, invalidated: u64) {
        if serial <= invalidated {
            self.note(Wrong::Entered(serial));
        }
        self.report.tally.compiled = self.report.tally.compiled.saturating_add(1);
        self.push(serial);
    }

    // Checks a refused call: it is right if the method doesn't exist, or the stack is full.
    fn note_refused(&mut self, method: u32, fault: CallFault) {
        let is_right = match fault {
            CallFault::NoSuchMethod => method >= self.shared.methods(),
            CallFault::DepthFull => self.stack.len() == DEEPEST,
            _ => false,
        };
        self.expect(is_right, Step::Call);
    }

    // Notes that a frame was entered.
    fn push(&mut self, serial: u64) {
        self.report.tally.calls = self.report.tally.calls.saturating_add(1);
        let fits = self.stack.len() < DEEPEST;
        self.expect(fits, Step::Call);
        if self.stack.push(serial).is_err() {
            self.note(Wrong::NoMemory);
        }
    }

    // Returns from the method of the top frame.
    fn return_from(&mut self, thread: &mut Mutator<'_, N, J>) {
        match self.calls.ret(thread) {
            Ok(poll) => {
                let had = self.stack.pop().is_some();
                self.expect(had, Step::Return);
                self.serve_stop(thread, poll);
            }
            Err(fault) => {
                let is_right = fault == ReturnFault::EmptyStack && self.stack.is_empty();
                self.expect(is_right, Step::Return);
                self.stack.clear();
            }
        }
    }

    fn turn(&mut self, thread: &mut Mutator<'_, N, J>) {
        let polled = self.calls.back_edge(thread);
        self.come_back(thread, polled, Step::BackEdge);
    }

    fn publish(&mut self, thread: &mut Mutator<'_, N, J>) {
        let published = self.calls.publish(thread);
        self.expect(published, Step::Publish);
    }

    // Handles the result of a poll, which none of these calls refuses.
    fn come_back(
        &mut self,
        thread: &mut Mutator<'_, N, J>,
        polled: Result<Poll, State>,
        step: Step,
    ) {
        match polled {
            Ok(poll) => self.serve_stop(thread, poll),
            Err(_) => self.note(Wrong::Answer(step)),
        }
    }

    // Makes calls that are refused in Java.
    fn call_in_vain(&mut self, thread: &mut Mutator<'_, N, J>) {
        let back = self.calls.unblock(thread);
        self.expect(back.is_err(), Step::Unblock);
        let stopped = self.calls.stop(thread);
        self.expect(!stopped, Step::Stop);
    }

    // Stops if the poll says so.
    fn serve_stop(&mut self, thread: &mut Mutator<'_, N, J>, poll: Poll) {
        let Poll::Stop(op) = poll else {
            return;
        };
        match Seen::of(thread.name(), op, self.stack.as_slice(), self.alloc) {
            Ok(seen) => self.note_stop(seen),
            Err(_) => self.note(Wrong::NoMemory),
        }
        let stopped = self.calls.stop(thread);
        self.expect(stopped, Step::Stop);
    }

    // Notes the stop before the thread is done with its operation: no stop is noted after that operation is closed.
    fn note_stop(&mut self, seen: Seen) {
        self.report.tally.stops = self.report.tally.stops.saturating_add(1);
        if self.signals.note_stop(self.rt, seen).is_err() {
            self.note(Wrong::NoMemory);
        }
    }

    fn give_way(&mut self) {
        for _ in 0..self.choices.below(YIELDS) {
            thread::yield_now();
        }
    }

    // The thread is away, and other threads run.
    fn stay_away(&mut self, gone: bool, step: Step) {
        self.expect(gone, step);
        self.give_way();
    }

    // Goes into native code and back.
    fn go_native(&mut self, thread: &mut Mutator<'_, N, J>) {
        let gone = self.calls.to_native(thread);
        self.stay_away(gone, Step::ToNative);
        let back = self.calls.from_native(thread);
        self.come_back(thread, back, Step::FromNative);
    }

    // Goes into the VM and back. In the VM it may block, or go into native code.
    fn go_vm(&mut self, thread: &mut Mutator<'_, N, J>) {
        let gone = self.calls.to_vm(thread);
        self.expect(gone, Step::ToVm);
        match self.choices.below(3) {
            0 => self.block(thread),
            1 => self.go_native(thread),
            _ => {}
        }
        self.expect(thread.state() == State::InVm, Step::ToVm);
        let back = self.calls.from_vm(thread);
        self.come_back(thread, back, Step::FromVm);
    }

    // Blocks in the VM, and comes back into it.
    fn block(&mut self, thread: &mut Mutator<'_, N, J>) {
        let gone = self.calls.block(thread);
        self.stay_away(gone, Step::Block);
        let back = self.calls.unblock(thread);
        self.come_back(thread, back, Step::Unblock);
    }

    // Makes a chain of calls, and half of the time returns from all of them.
    fn go_deep(&mut self, thread: &mut Mutator<'_, N, J>) {
        for _ in 0..self.choices.below(self.signals.habits.chain.max(1)) {
            self.call(thread);
        }
        if self.choices.one_in(2) {
            self.unwind(thread);
        }
    }

    // Returns from all methods.
    fn unwind(&mut self, thread: &mut Mutator<'_, N, J>) {
        let rt = self.rt;
        for _ in rt.forever() {
            if self.stack.is_empty() {
                return;
            }
            self.return_from(thread);
        }
    }

    // Exits. While its stack isn't empty the exit is refused. A refused thread tries again, since the others would wait for it.
    fn exit(&mut self, thread: Mutator<'_, N, J>) {
        let rt = self.rt;
        let mut thread = thread;
        for _ in rt.forever() {
            let Some((fault, back)) = self.calls.exit(thread) else {
                return;
            };
            thread = back;
            self.note_kept(fault);
            self.return_from(&mut thread);
            self.unwind(&mut thread);
        }
    }

    // Checks a refused exit: it is right if the stack has frames.
    fn note_kept(&mut self, fault: ExitFault) {
        let is_right = fault == ExitFault::StackNotEmpty && !self.stack.is_empty();
        self.expect(is_right, Step::Exit);
    }
}
