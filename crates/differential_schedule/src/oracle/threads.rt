//! Calls of a thread, played as events.
use super::{Live, OPEN, Oracle, Reply};
use crate::calls::ThreadCall;
use crate::losses::Lost;
use crate::said::Said;
use frames::CodeId;
use system::answers::Refusal;
use system::events::{Act, Event};
use test_tools::keep;
use thread_state::State;

impl Oracle {
    /// Start; a first publication; Wake and Cross.
    pub(super) fn start(&mut self) -> Result<Said, Said> {
        let started = self.play(Event::Start);
        if let Said::Thread(name, place) = started {
            self.names = name;
            keep(&mut self.live, Live { name, place })?;
            self.publish(place)?;
            self.done(place, Act::Wake)?;
            self.cross(place)?;
        }
        Ok(started)
    }

    /// The answer to a thread's call.
    pub(super) fn of_thread(&mut self, name: u64, call: ThreadCall) -> Result<Said, Said> {
        let Some(place) = self.place_of(name) else {
            return Err(Said::Waits);
        };
        match call {
            ThreadCall::Call(method, hint) => self.enter(place, method, hint),
            ThreadCall::Ret => self.polls(place, Act::Leave),
            ThreadCall::BackEdge => self.polls(place, Act::Edge),
            ThreadCall::FromVm => self.polls(place, Act::FromVm),
            ThreadCall::Publish => self.published(place),
            ThreadCall::ToVm => Ok(self.at(place, Act::ToVm)),
            ThreadCall::ToNative => Ok(self.at(place, Act::ToNative)),
            ThreadCall::Block => Ok(self.at(place, Act::Block)),
            ThreadCall::FromNative | ThreadCall::Unblock => self.back(place, call),
            ThreadCall::Stop => self.stop(place),
        }
    }

    // Enters with the hint's code. If that code is no longer entrant, or without a hint, it enters without a code. A hint with a code of
    // another method in use, or with a code that never existed, is an error of the caller.
    fn enter(&mut self, place: usize, method: u32, hint: Option<CodeId>) -> Result<Said, Said> {
        let Some(id) = hint else {
            return Ok(self.interpret(place, method));
        };
        match self.at(place, Act::Enter(method as u64, Some(id.serial))) {
            Said::Entered => Ok(self.compiled(place, method, id)),
            Said::SentAway => Ok(self.interpret(place, method)),
            Said::Refused(Refusal::NotOf | Refusal::Unknown) => Err(Said::Waits),
            other => Err(other),
        }
    }

    fn interpret(&mut self, place: usize, method: u32) -> Said {
        match self.at(place, Act::Enter(method as u64, None)) {
            Said::Entered => Said::Interpreted,
            other => other,
        }
    }

    // Whether the thread is in the code: its top frame shows this and the slot.
    fn compiled(&mut self, place: usize, method: u32, id: CodeId) -> Said {
        let said = self.at(place, Act::Stack);
        match self.frames.last() {
            Some(top) if top.method == method && top.code == Some(id) => {}
            _ => return said,
        }
        match said {
            Said::Frames => Said::Compiled(id.serial),
            other => other,
        }
    }

    // A poll. A poll that would stop the thread for a census isn't made.
    fn polls(&mut self, place: usize, act: Act) -> Result<Said, Said> {
        self.may_go_on(place)?;
        Ok(self.at(place, act))
    }

    // A publication by the thread itself. Only the coordinator publishes a held thread.
    fn published(&mut self, place: usize) -> Result<Said, Said> {
        if self.is_held(place) {
            return Err(Said::Refused(Refusal::Illegal(self.state_at(place))));
        }
        self.publish(place)?;
        Ok(Said::Done)
    }

    // Returns from native code, or from a wait: each state has its own call.
    fn back(&mut self, place: usize, call: ThreadCall) -> Result<Said, Said> {
        match (call, self.state_at(place)) {
            (ThreadCall::FromNative, State::InNative(_)) => self.wake(place),
            (ThreadCall::Unblock, State::Blocked) => self.wake(place),
            (_, state) => Err(Said::Refused(Refusal::Illegal(state))),
        }
    }

    // Wake and Cross. Wake waits while the thread is held.
    fn wake(&mut self, place: usize) -> Result<Said, Said> {
        self.may_go_on(place)?;
        match self.at(place, Act::Wake) {
            Said::Done => Ok(self.at(place, Act::Cross)),
            Said::Refused(Refusal::Held) => Err(Said::Waits),
            other => Err(other),
        }
    }

    // Take, which waits while the thread is held or a census keeps it; a publication; Finish and Clear for each handshake that armed its
    // poll and has no Finish of it; and Cross.
    fn stop(&mut self, place: usize) -> Result<Said, Said> {
        self.take(place)?;
        self.publish(place)?;
        self.finish_all(place)?;
        self.cross(place)?;
        Ok(Said::Done)
    }

    fn take(&mut self, place: usize) -> Result<(), Said> {
        match self.at(place, Act::Take) {
            Said::Done => Ok(()),
            Said::Refused(Refusal::Held | Refusal::NotDone) => Err(Said::Waits),
            other => Err(other),
        }
    }

    // Finishes all handshakes that armed the thread's poll and have no Finish of it, in order.
    pub(super) fn finish_all(&mut self, place: usize) -> Result<(), Said> {
        for _open in 0..OPEN {
            match self.live_at(place) {
                Some(live) if self.undone(live).is_some() => self.finish(place)?,
                _ => break,
            }
        }
        Ok(())
    }

    // Finish and Clear.
    pub(super) fn finish(&mut self, place: usize) -> Result<(), Said> {
        let said = self.at(place, Act::Finish);
        let Said::Reply(reply) = said else {
            return Err(said);
        };
        let op = self.note_finished(place, reply)?;
        self.clear(place, op)
    }

    // Notes that the thread at the place is done with the oldest handshake that armed its poll. Answers the number of that handshake.
    fn note_finished(&mut self, place: usize, reply: u64) -> Result<u64, Said> {
        let Some(live) = self.live_at(place) else {
            return Ok(0);
        };
        let op = self.undone(live).unwrap_or(0);
        self.note_done(op, live.name)?;
        if !self.loses(Lost::Reply) {
            let name = live.name;
            keep(&mut self.replies, Reply { op, name, reply })?;
        }
        Ok(op)
    }

    // Notes that the thread is done with the open request of this number.
    fn note_done(&mut self, op: u64, name: u64) -> Result<(), Said> {
        for open in self.open.iter_mut() {
            if open.number == op {
                keep(&mut open.done, name)?;
            }
        }
        Ok(())
    }

    pub(super) fn clear(&mut self, place: usize, op: u64) -> Result<(), Said> {
        self.done(place, Act::Clear)?;
        self.disarm(place, op);
        Ok(())
    }

    /// A publication; if the poll is armed, a stop and another publication; and Exit. It waits while a census keeps the thread.
    pub(super) fn exit(&mut self, name: u64) -> Result<Said, Said> {
        let Some(place) = self.place_of(name) else {
            return Err(Said::Waits);
        };
        let state = self.state_at(place);
        if self.may_exit(place, state) {
            self.prepare_exit(place, state)?;
        }
        let said = self.at(place, Act::Exit);
        if let Said::Exited(_) = said {
            self.live.retain(|live| live.name != name);
        }
        Ok(said)
    }

    // Whether the thread at the place is in Java or in the VM, and its stack is empty.
    fn may_exit(&mut self, place: usize, state: State) -> bool {
        let runs = matches!(state, State::InJava | State::InVm);
        runs && matches!(self.at(place, Act::Stack), Said::Frames) && self.frames.is_empty()
    }

    fn prepare_exit(&mut self, place: usize, state: State) -> Result<(), Said> {
        if self.is_kept(place) {
            return Err(Said::Waits);
        }
        self.publish(place)?;
        if self.armed_at(place) == 0 {
            return Ok(());
        }
        self.stop_to_exit(place, state)?;
        self.publish(place)
    }

    // A poll that stops the thread, and the stop.
    fn stop_to_exit(&mut self, place: usize, state: State) -> Result<Said, Said> {
        let act = if let State::InVm = state {
            Act::FromVm
        } else {
            Act::Edge
        };
        match self.at(place, act) {
            Said::Stop(_) => {}
            other => return Err(other),
        }
        match self.stop(place) {
            Err(Said::Waits) => Err(Said::Refused(Refusal::OperationPending)),
            said => said,
        }
    }
}
