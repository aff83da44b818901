// A thread of the system, and the acts that change only the thread.
ghost use Rattle.std.specs.Prelude.{◌≡◌, ◌≢◌, ◌≤◌, ℕ, List, [], Option, Some, None, Ok, IfOk, true, false, ◌==◌, find, option_copied};
ghost use Rattle.std.specs.List.{list_any};
ghost use Rattle.operations.specs.Requests.{is_target, lists};
ghost use Rattle.frames.specs.ImageView.{IsSettled};
ghost use Rattle.thread_state.specs.States.{is_in_java};
ghost use Rattle.system.specs.Operations.{Requests as Asked, poll_of};
ghost use Rattle.system.specs.Threads as threads;
ghost use Rattle.system.specs.World.{World};
ghost use Rattle.system.specs.Places as acts;
ghost use Rattle.system.specs.declared.events.Act.TheVariants as TheActs;
ghost use Rattle.system.specs.Marking.{SameThread};
ghost use Rattle.system.specs.Kept.Threads.{IsHere, IsNew, enters_frame, frame_refusal, poll_by, common_refusal, is_live_for, was_told, is_done, told_by, undone_by, uncleared_by, awaited_by, live_by, untold_by, is_asked, idle_refusal, kept_told};
ghost use Rattle.system.specs.Kept.Tells.{answer_told};
ghost use Rattle.system.specs.Kept.Acts.{Did, Followed, DidAlone, DidNext, SaysExit, is_plain};

use crate::answers::{Answer, Refusal};
use crate::events::Act;
use crate::requests::Open;
use crate::tells::may_tell_any;
use frames::image::{DEPTH, Image};
use frames::{Change, CodeId, EndFault, Frame, Publishing};
use method_table::table::{Entry, MethodTable};
use std::alloc::{AllocError, Global};
use thread_state::{
    Move, State, is_in_java, is_in_vm, is_safe, is_serving, may_cross, may_publish,
};

/// The operations last told to a thread, last done for it and last cleared for it; 0 for none. Each number rises and
/// skips no operation that has the thread as a live target, so these three numbers replace sets of operations.
#[derive(Clone, Copy, Debug, PartialEq, Eq, Drop)]
pub struct Marks {
    pub told: u64,
    pub done: u64,
    pub cleared: u64,
}

/// The moments of the last Begin, and of the Begin of the last ended publication; 0 for none.
#[derive(Clone, Copy, Debug, PartialEq, Eq, Drop)]
pub struct Moments {
    pub begun: u64,
    pub stored: u64,
}

/// A thread of the definitions, with an image for its stack.
#[derive(Drop)]
pub struct Thread {
    pub name: u64,
    pub state: State,
    pub held: bool,
    pub published: bool,
    pub image: Image,
    pub marks: Marks,
    pub moments: Moments,
}

impl Thread {
    /// Makes a new thread with an empty stack and no publication.
    pub fn new(alloc: Global, name: u64) -> Result<Thread, AllocError>
        ensures { IfOk result (λ thread. IsNew thread name) }
    {
        Ok(Thread {
            name,
            state: State::New,
            held: false,
            published: false,
            image: Image::new(alloc)?,
            marks: Marks {
                told: 0,
                done: 0,
                cleared: 0,
            },
            moments: Moments {
                begun: 0,
                stored: 0,
            },
        })
    }

    /// Does a plain act with these codes, open operations and moment.
    pub fn act(
        &mut self,
        act: Act,
        table: &MethodTable,
        operations: &[Open],
        now: u64,
    ) -> Result<Answer, Refusal>
        requires plain { is_plain act ≡ true }
        requires few { table.now.methods ≤ 256 }
        ensures { (w : World) (t : _) → table.now.codes ≡ w.codes → table.now.methods ≡ w.methods
            → IsHere operations.now self.old w.requests t
            → Did (record {
              act = act;
              opens = operations.now;
              now = now;
            }) w.requests (acts.here w act t) self.old self.new t result }
    {
        if let Some(refusal) = self.common_refusal(act) {
            return Err(refusal);
        }
        match act {
            Act::Begin => self.begin(now),
            Act::End => self.end(),
            Act::Wake => self.wake(),
            Act::Cross | Act::Edge | Act::FromVm => self.crosses(),
            Act::Enter(method, code) => self.enter(method, code, table),
            Act::Leave => self.leave(),
            Act::ToVm => self.moves(Move::ToVm),
            Act::ToNative => self.moves(Move::ToNative),
            Act::Block => self.moves(Move::Block),
            Act::Take => self.take(operations),
            Act::Finish => self.finish(operations),
            Act::Clear => self.clear(operations),
            Act::Hold => self.hold(operations),
            Act::Release => self.release(),
            Act::Change | Act::Exit | Act::Stack => unreachable!(),
        }
    }

    /// Does the next change of the open publication. Refused with `NotBegun`.
    pub fn change(&mut self) -> Result<Option<Change>, Refusal>
        ensures { (w : World) (t : _) → SameThread self.old t
            → DidNext (acts.here w TheActs.Change t) self.old self.new t result }
    {
        if !self.image.is_publishing() {
            return Err(Refusal::NotBegun);
        }
        Ok(self.image.next_change())
    }

    /// Returns why the thread may not exit. The common tests come first, then `StackNotEmpty`, `Unpublished`,
    /// `OperationPending`.
    pub fn exit_refusal(&self) -> Option<Refusal>
        ensures { (w : World) (t : _) → SameThread self.now t
            → poll_of w.requests t.name ≡ poll_by self.now.marks
            → SaysExit (acts.here w TheActs.Exit t) t result }
    {
        if let Some(refusal) = self.common_refusal(Act::Exit) {
            return Some(refusal);
        }
        if self.image.depth() != 0 {
            return Some(Refusal::StackNotEmpty);
        }
        if !self.image.is_settled() {
            return Some(Refusal::Unpublished);
        }
        if self.poll().is_some() {
            return Some(Refusal::OperationPending);
        }
        None
    }

    // A call through code in use pushes the method's frame. Other code redirects the call. (nmethod)
    fn enter(
        &mut self,
        method: u64,
        serial: Option<u64>,
        table: &MethodTable,
    ) -> Result<Answer, Refusal>
        requires closed { self.old.image.publishing ≡ false }
        requires few { table.now.methods ≤ 256 }
        ensures { (w : World) (t : _) → SameThread self.old t → table.now.codes ≡ w.codes
            → table.now.methods ≡ w.methods
            → DidAlone (acts.does w (TheActs.Enter method serial) t) self.old self.new t result }
    {
        if method >= table.methods() as u64 {
            return Err(Refusal::NoSuchMethod);
        }
        let Some(serial) = serial else {
            return self.enter_frame(method as u32, None);
        };
        match table.entry(method, serial) {
            None => Err(Refusal::Unknown),
            Some(Entry::Enters(code)) => self.enter_frame(method as u32, Some(code)),
            Some(entry) => match self.frame_refusal() {
                Some(refusal) => Err(refusal),
                None if entry == Entry::NotOf => Err(Refusal::NotOf),
                None => Ok(Answer::WrongMethod),
            },
        }
    }

    // Why the thread may not push a frame.
    fn frame_refusal(&self) -> Option<Refusal>
        ensures { result ≡ frame_refusal self.now }
    {
        if !self.published {
            return Some(Refusal::Unpublished);
        }
        if self.image.depth() >= DEPTH {
            return Some(Refusal::DepthFull);
        }
        None
    }

    fn enter_frame(&mut self, method: u32, code: Option<CodeId>) -> Result<Answer, Refusal>
        requires closed { self.old.image.publishing ≡ false }
        ensures { (t : _) → SameThread self.old t
            → DidAlone (enters_frame t method code) self.old self.new t result }
    {
        if let Some(refusal) = self.frame_refusal() {
            return Err(refusal);
        }
        self.image.put(Frame { method, code });
        Ok(Answer::Entered)
    }

    // The first common test of all acts that fails.
    fn common_refusal(&self, act: Act) -> Option<Refusal>
        ensures { result ≡ common_refusal self.now act }
    {
        if self.image.is_publishing() && !may_while_publishing(act) {
            return Some(Refusal::Publishing);
        }
        if !is_lawful(act, self.held, self.state) {
            return Some(Refusal::Illegal(self.state));
        }
        None
    }

    // The operation for which a poll stops. (JEP 312: the poll is per thread)
    fn poll(&self) -> Option<u64>
        ensures { result ≡ poll_by self.now.marks }
    {
        if self.marks.told == self.marks.cleared {
            None
        } else {
            Some(self.marks.told)
        }
    }

    fn moves(&mut self, step: Move) -> Result<Answer, Refusal>
        ensures { (t : _) → SameThread self.old t
            → DidAlone (acts.move_by t step) self.old self.new t result }
    {
        match thread_state::step(self.state, step) {
            Ok(state) => {
                self.state = state;
                Ok(Answer::Done)
            }
            Err(_) => Err(Refusal::Illegal(self.state)),
        }
    }

    // A poll: the thread goes on, or stops for an operation.
    fn crosses(&mut self) -> Result<Answer, Refusal>
        ensures { (requests : Asked) (t : _) → SameThread self.old t
            → poll_of requests t.name ≡ poll_by self.old.marks
            → DidAlone (acts.polls requests t) self.old self.new t result }
    {
        let poll = self.poll();
        match thread_state::cross(self.state, poll.is_none()) {
            Ok(state) => {
                self.state = state;
                Ok(go_or_stop(poll))
            }
            Err(_) => Err(Refusal::Illegal(self.state)),
        }
    }

    fn wake(&mut self) -> Result<Answer, Refusal>
        ensures { (w : World) (t : _) → SameThread self.old t
            → DidAlone (acts.does w TheActs.Wake t) self.old self.new t result }
    {
        if self.held {
            return Err(Refusal::Held);
        }
        self.moves(Move::Wake)
    }

    fn release(&mut self) -> Result<Answer, Refusal>
        ensures { (w : World) (t : _) → SameThread self.old t
            → DidAlone (acts.does w TheActs.Release t) self.old self.new t result }
    {
        if !self.held {
            return Err(Refusal::NotHeld);
        }
        self.held = false;
        Ok(Answer::Done)
    }

    /// Returns whether the thread is a live target of the operation: a target that started before the operation was
    /// opened.
    pub fn is_live_for(&self, open: &Open) -> bool
        ensures { result ≡ is_live_for open.now self.now }
    {
        self.name <= open.names && open.is_target(self.name)
    }

    // The operation was told to the thread. Numbers are told in rising order and skip no operation that has the thread
    // as a live target. The number last told is of such an operation and needs no lookup.
    fn was_told(&self, open: &Open) -> bool
        ensures { result ≡ was_told open.now self.now }
    {
        open.number <= self.marks.told && (open.number == self.marks.told || self.is_live_for(open))
    }

    fn is_done(&self, open: &Open) -> bool
        ensures { result ≡ is_done open.now self.now }
    {
        if open.is_census() {
            open.operated
        } else {
            open.number <= self.marks.done
        }
    }

    fn is_undone(&self, open: &Open) -> bool
        ensures { result ≡ undone_by self.now open.now }
    {
        !self.is_done(open) && self.was_told(open)
    }

    fn is_uncleared(&self, open: &Open) -> bool
        ensures { result ≡ uncleared_by self.now open.now }
    {
        self.marks.cleared < open.number && self.was_told(open)
    }

    fn is_listed(&self, operations: &[Open]) -> bool
        ensures { result ≡ list_any (λ o. lists o.request self.now.name) operations.now }
    {
        operations.iter().any(|open| open.lists(self.name))
    }

    fn is_target(&self, operations: &[Open]) -> bool
        ensures { result ≡ list_any (λ o. is_target o.request self.now.name) operations.now }
    {
        operations.iter().any(|open| open.is_target(self.name))
    }

    fn is_told(&self, operations: &[Open]) -> bool
        ensures { result ≡ list_any (told_by self.now) operations.now }
    {
        operations.iter().any(|open| self.was_told(open))
    }

    fn is_waited_for(&self, operations: &[Open]) -> bool
        ensures { result ≡ list_any (uncleared_by self.now) operations.now }
    {
        operations.iter().any(|open| self.is_uncleared(open))
    }

    // An open handshake lists the thread. An undone handshake was told to the thread and lists it, so then no list is
    // searched.
    fn is_asked(&self, open: &Open, operations: &[Open]) -> bool
        ensures { result ≡ is_asked self.now open.now operations.now }
    {
        !open.is_census() || self.is_listed(operations)
    }

    // The least operation told to the thread and not done.
    fn next_undone<'a>(&self, operations: &'a [Open]) -> Option<&'a Open>
        ensures { option_copied result ≡ find (undone_by self.now) operations.now }
    {
        operations.iter().find(|open| self.is_undone(open))
    }

    fn next_uncleared<'a>(&self, operations: &'a [Open]) -> Option<&'a Open>
        ensures { option_copied result ≡ find (uncleared_by self.now) operations.now }
    {
        operations.iter().find(|open| self.is_uncleared(open))
    }

    /// Arms the poll for the least operation that has the thread as a live target and wasn't told to it, after `names`
    /// names were given out. Without such an operation: `NotOf`, `AlreadyTold`, or `Gone` if the thread is a live
    /// target of none.
    pub fn tell(&mut self, operations: &[Open], names: u64) -> Answer
        ensures answer { result ≡ answer_told names operations.now self.old }
        ensures told { self.new ≡ kept_told operations.now self.old }
    {
        let Some(open) = self.next_untold(operations) else {
            return if !may_tell_any(operations, self.name, names) {
                Answer::Refused(Refusal::NotOf)
            } else if self.is_live_target(operations) {
                Answer::Refused(Refusal::AlreadyTold)
            } else {
                Answer::Gone
            };
        };
        self.marks.told = open.number;
        Answer::Told
    }

    fn is_live_target(&self, operations: &[Open]) -> bool
        ensures { result ≡ list_any (live_by self.now) operations.now }
    {
        operations.iter().any(|open| self.is_live_for(open))
    }

    fn is_untold(&self, open: &Open) -> bool
        ensures { result ≡ untold_by self.now open.now }
    {
        self.marks.told < open.number && self.is_live_for(open)
    }

    fn next_untold<'a>(&self, operations: &'a [Open]) -> Option<&'a Open>
        ensures { option_copied result ≡ find (untold_by self.now) operations.now }
    {
        operations.iter().find(|open| self.is_untold(open))
    }

    // An open census was told to the thread and isn't operated.
    fn awaits_census(&self, operations: &[Open]) -> bool
        ensures { result ≡ list_any (awaited_by self.now) operations.now }
    {
        operations.iter().any(|open| open.is_census() && !open.operated && self.was_told(open))
    }

    fn take(&mut self, operations: &[Open]) -> Result<Answer, Refusal>
        ensures { (w : World) (t : _) → IsHere operations.now self.old w.requests t
            → DidAlone (acts.does w TheActs.Take t) self.old self.new t result }
    {
        if self.held {
            return Err(Refusal::Held);
        }
        if self.awaits_census(operations) {
            return Err(Refusal::NotDone);
        }
        self.moves(Move::Take)
    }

    fn begin(&mut self, now: u64) -> Result<Answer, Refusal>
        requires { self.old.image.publishing ≡ false }
        ensures { (w : World) (t : _) → SameThread self.old t
            → Did (record {
              act = TheActs.Begin;
              opens = [];
              now = now;
            }) w.requests (acts.does w TheActs.Begin t) self.old self.new t result }
    {
        match self.image.begin() {
            Ok(()) => {
                self.moments.begun = now;
                Ok(Answer::Done)
            }
            Err(Publishing) => Err(Refusal::Publishing),
        }
    }

    fn end(&mut self) -> Result<Answer, Refusal>
        ensures { (w : World) (now : ℕ) (t : _) → SameThread self.old t
            → Did (record {
              act = TheActs.End;
              opens = [];
              now = now;
            }) w.requests (acts.does w TheActs.End t) self.old self.new t result }
    {
        match self.image.end() {
            Ok(()) => {
                self.published = true;
                self.moments.stored = self.moments.begun;
                Ok(Answer::Done)
            }
            Err(EndFault::NotBegun) => Err(Refusal::NotBegun),
            Err(EndFault::ChangesLeft) => Err(Refusal::ChangesLeft),
        }
    }

    fn leave(&mut self) -> Result<Answer, Refusal>
        requires closed { self.old.image.publishing ≡ false }
        requires java { is_in_java self.old.state ≡ true }
        ensures { (w : World) (t : _) → SameThread self.old t
            → poll_of w.requests t.name ≡ poll_by self.old.marks
            → DidAlone (acts.does w TheActs.Leave t) self.old self.new t result }
    {
        if self.image.depth() == 0 {
            return Err(Refusal::EmptyStack);
        }
        let _ = self.image.take_top();
        self.crosses()
    }

    // Runs the least handshake that is told and not done, on a published stack. Each target runs it once. (JEP 312)
    fn finish(&mut self, operations: &[Open]) -> Result<Answer, Refusal>
        ensures { (w : World) (now : ℕ) (t : _) → IsHere operations.now self.old w.requests t
            → Did (record {
              act = TheActs.Finish;
              opens = operations.now;
              now = now;
            }) w.requests (acts.does w TheActs.Finish t) self.old self.new t result }
    {
        let Some(open) = self.next_undone(operations) else {
            return Err(idle_refusal(
                operations.is_empty(),
                self.is_listed(operations),
                self.is_told(operations),
            ));
        };
        if !self.is_asked(open, operations) {
            return Err(Refusal::NotOf);
        }
        if !self.image.is_settled() {
            return Err(Refusal::Unpublished);
        }
        self.marks.done = open.number;
        Ok(Answer::Reply(open.reply_on(&self.image)))
    }

    // Clears the least operation that is told and not cleared. The thread waits for no other thread. (JEP 312)
    fn clear(&mut self, operations: &[Open]) -> Result<Answer, Refusal>
        ensures { (w : World) (now : ℕ) (t : _) → IsHere operations.now self.old w.requests t
            → Did (record {
              act = TheActs.Clear;
              opens = operations.now;
              now = now;
            }) w.requests (acts.does w TheActs.Clear t) self.old self.new t result }
    {
        let Some(open) = self.next_uncleared(operations) else {
            return Err(idle_refusal(
                operations.is_empty(),
                self.is_target(operations),
                self.is_told(operations),
            ));
        };
        if !self.is_done(open) {
            return Err(Refusal::NotDone);
        }
        self.marks.cleared = open.number;
        Ok(Answer::Done)
    }

    // The coordinator holds a thread in a safe state. (JEP 312)
    fn hold(&mut self, operations: &[Open]) -> Result<Answer, Refusal>
        ensures { (w : World) (t : _) → IsHere operations.now self.old w.requests t
            → DidAlone (acts.does w TheActs.Hold t) self.old self.new t result }
    {
        if !self.is_waited_for(operations) {
            return Err(idle_refusal(
                operations.is_empty(),
                self.is_target(operations),
                self.is_told(operations),
            ));
        }
        if self.held {
            return Err(Refusal::Held);
        }
        if !is_safe(self.state) {
            return Err(Refusal::NotSafe);
        }
        self.held = true;
        Ok(Answer::Done)
    }
}

// Why no operation is pending for a thread: none is open, the thread is a target of none, none was told to it, or all
// told to it are served.
fn idle_refusal(empty: bool, of: bool, told: bool) -> Refusal
    ensures { result ≡ idle_refusal empty of told }
{
    if empty {
        Refusal::NothingOpen
    } else if !of {
        Refusal::NotOf
    } else if !told {
        Refusal::NotTold
    } else {
        Refusal::AlreadyDone
    }
}

// The answer to a poll.
fn go_or_stop(poll: Option<u64>) -> Answer
    ensures { result ≡ acts.go_or_stop poll }
{
    match poll {
        None => Answer::Go,
        Some(operation) => Answer::Stop(operation),
    }
}

// The acts during an open publication.
fn may_while_publishing(act: Act) -> bool
    ensures { result ≡ acts.may_while_publishing act }
{
    matches!(act, Act::Change | Act::End | Act::Stack)
}

// The states in which an act is lawful.
fn is_lawful(act: Act, held: bool, state: State) -> bool
    ensures { result ≡ acts.lawful_in act held state }
{
    match act {
        Act::Begin => held || may_publish(state),
        Act::Wake => thread_state::step(state, Move::Wake).is_ok(),
        Act::Cross => may_cross(state),
        Act::Enter(_, _) | Act::Leave | Act::Edge => is_in_java(state),
        Act::ToVm => thread_state::step(state, Move::ToVm).is_ok(),
        Act::FromVm => is_in_vm(state),
        Act::ToNative => thread_state::step(state, Move::ToNative).is_ok(),
        Act::Block => thread_state::step(state, Move::Block).is_ok(),
        Act::Exit => thread_state::step(state, Move::Exit).is_ok(),
        Act::Take => thread_state::step(state, Move::Take).is_ok(),
        Act::Finish | Act::Clear => held || is_serving(state),
        Act::Change | Act::End | Act::Hold | Act::Release | Act::Stack => true,
    }
}
