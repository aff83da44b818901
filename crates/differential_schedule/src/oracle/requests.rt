//! Calls about requests, one step each, played as events.
use super::{Live, Opened, Oracle, Waiting, is_listed};
use crate::calls::{Handshake, RequestCall, StepCall};
use crate::losses::Lost;
use crate::said::Said;
use operations::{Request, Targets};
use system::answers::Refusal;
use system::events::{Act, Event};
use test_tools::keep;
use thread_state::State;

impl Opened {
    /// Whether the request has the live thread as a target: it is a census or lists the name, and the thread was live at its Open.
    pub fn is_of(&self, name: u64) -> bool {
        name <= self.names && is_listed(&self.targets, name)
    }

    /// Whether a live thread is due: the request still has to arm its poll, serve it or count it.
    pub fn is_due(&self, name: u64) -> bool {
        if self.targets.is_none() {
            return !self.operated;
        }
        self.is_of(name) && !self.done.contains(&name)
    }
}

impl Oracle {
    /// The answer to a call about a request.
    pub(super) fn of_request(&mut self, call: RequestCall) -> Result<Said, Said> {
        match call {
            RequestCall::Drive => self.drive(),
            RequestCall::DriveFour => self.drive_four(),
            RequestCall::SubmitCensus => self.ask_census(),
            RequestCall::Submit(handshake) => self.submit(handshake),
            RequestCall::Open => self.open_next(),
            RequestCall::Close => Ok(self.close(None)),
            RequestCall::CloseOf(number) => Ok(self.close(Some(number))),
            RequestCall::Forget => Ok(self.forget()),
        }
    }

    /// The answer to a step of the open requests.
    pub(super) fn step(&mut self, call: StepCall) -> Result<Said, Said> {
        match call {
            StepCall::Tell(name) => Ok(self.tell(name)),
            StepCall::Hold(place) => self.hold(place),
            StepCall::Serve(place) => self.serve(place),
            StepCall::Operate => self.operate(),
            StepCall::Release(place) => self.release(place),
        }
    }

    // Forgets the replies of all operations before the first one that is open or waits. The core has no such event.
    fn forget(&mut self) -> Said {
        if !self.loses(Lost::Forget) {
            self.forgotten = self.first_pending().saturating_sub(1);
        }
        Said::Forgot
    }

    // The first number that is open or waits; if there is none, the next number. Waiting requests have the last numbers.
    fn first_pending(&self) -> u64 {
        let waiting = self.waiting.len() as u64;
        let mut first = self.asked.saturating_add(1).saturating_sub(waiting);
        for open in &self.open {
            first = first.min(open.number);
        }
        first
    }

    fn ask_census(&mut self) -> Result<Said, Said> {
        self.ask_for(Request::Census, None)
    }

    // Notes that the request with these targets waits.
    fn ask_for(&mut self, request: Request, targets: Option<Vec<u64>>) -> Result<Said, Said> {
        let said = self.play(Event::Ask(request));
        if let Said::Asked(_) = said {
            keep(&mut self.waiting, Waiting { targets })?;
        }
        Ok(said)
    }

    // Ask. Jobs that don't fit are refused as bad targets are; the core knows only of bad targets.
    fn submit(&mut self, handshake: Handshake) -> Result<Said, Said> {
        if handshake.fits || handshake.count == 0 {
            return self.ask(handshake);
        }
        self.ask(Handshake {
            step: 0,
            count: 2,
            ..handshake
        })
    }

    pub(super) fn ask(&mut self, handshake: Handshake) -> Result<Said, Said> {
        let request = Request::Handshake {
            targets: Targets::from_vec(handshake.names(self.alloc)?),
            ask: handshake.ask,
        };
        let targets = handshake.names(self.alloc)?;
        self.ask_for(request, Some(targets))
    }

    pub(super) fn open_next(&mut self) -> Result<Said, Said> {
        let said = self.play(Event::Open);
        if let Said::Opened(number) = said {
            self.note_opened(number)?;
        }
        Ok(said)
    }

    fn note_opened(&mut self, number: u64) -> Result<(), Said> {
        if self.waiting.is_empty() {
            return Ok(());
        }
        let Waiting { targets } = self.waiting.remove(0);
        let opened = Opened {
            number,
            targets,
            names: self.names,
            done: Vec::new(self.alloc),
            operated: false,
        };
        keep(&mut self.open, opened)?;
        Ok(())
    }

    // The number of the oldest open request.
    fn oldest(&self) -> u64 {
        match self.open.first() {
            Some(open) => open.number,
            None => 0,
        }
    }

    pub(super) fn tell(&mut self, name: u64) -> Said {
        let said = self.play(Event::Tell(name));
        if let Said::Told = said {
            self.note_told(name);
        }
        said
    }

    fn note_told(&mut self, name: u64) {
        if let Some(place) = self.place_of(name) {
            if let Some(number) = self.untold(Live { name, place }) {
                self.arm(place, number);
            }
        }
    }

    // Hold. In a running system a thread that a poll has stopped is safe only once its `stop` has brought its body.
    pub(super) fn hold(&mut self, place: usize) -> Result<Said, Said> {
        let state = self.state_at(place);
        self.done(place, Act::Hold)?;
        if let State::AtPoll(_) = state {
            self.done(place, Act::Release)?;
            return Err(Said::Refused(Refusal::NotSafe));
        }
        keep(&mut self.held, place)?;
        Ok(Said::Done)
    }

    // Release.
    fn release(&mut self, place: usize) -> Result<Said, Said> {
        self.done(place, Act::Release)?;
        self.held.retain(|held| *held != place);
        Ok(Said::Done)
    }

    // Serves a held thread: a publication, Finish and Clear. To learn whether the serve would be refused it asks with a Clear, which is
    // illegal before the Finish.
    fn serve(&mut self, place: usize) -> Result<Said, Said> {
        if !self.is_held(place) {
            return Err(self.refused_to_serve(place));
        }
        let said = self.at(place, Act::Clear);
        if self.is_census() || !matches!(said, Said::Refused(Refusal::NotDone)) {
            return Err(self.at(place, Act::Finish));
        }
        self.publish(place)?;
        self.finish(place)?;
        Ok(Said::Done)
    }

    // The refusal of a serve at a place that isn't held, by the state of its thread.
    fn refused_to_serve(&mut self, place: usize) -> Said {
        let said = self.at(place, Act::Finish);
        match said {
            Said::Refused(Refusal::Illegal(State::Vacant)) => said,
            Said::Refused(Refusal::Illegal(_)) => Said::Refused(Refusal::NotHeld),
            other => other,
        }
    }

    // Operates the census: a publication of each held thread, Operate, and a Clear of each. If Operate would be refused, it plays Operate
    // alone.
    pub(super) fn operate(&mut self) -> Result<Said, Said> {
        if !self.may_operate() {
            return Ok(self.play(Event::Operate));
        }
        self.publish_held()?;
        let said = self.play(Event::Operate);
        let Said::Counts = said else {
            return Err(said);
        };
        if let Some(open) = self.open.get_mut(0) {
            open.operated = true;
        }
        self.clear_held()?;
        Ok(Said::Census(self.oldest()))
    }

    // Whether an open census isn't operated and all threads are held.
    fn may_operate(&self) -> bool {
        let Some(open) = self.open.first() else {
            return false;
        };
        open.targets.is_none() && !open.operated && self.held.len() == self.live.len()
    }

    fn publish_held(&mut self) -> Result<(), Said> {
        for index in 0..self.held.len() {
            if let Some(place) = self.held.get(index).copied() {
                self.publish(place)?;
            }
        }
        Ok(())
    }

    fn clear_held(&mut self) -> Result<(), Said> {
        let oldest = self.oldest();
        for index in 0..self.held.len() {
            if let Some(place) = self.held.get(index).copied() {
                self.clear(place, oldest)?;
            }
        }
        Ok(())
    }

    pub(super) fn close(&mut self, number: Option<u64>) -> Said {
        let said = self.play(Event::Close(number));
        if let Said::Closed(closed) = said {
            self.open.retain(|open| open.number != closed);
        }
        said
    }
}
