//! `drive`, `drive_four` and `reclaim`, played as events.
use super::{Live, OPEN, Oracle, is_listed};
use crate::calls::Handshake;
use crate::said::Said;
use frames::Frame;
use system::answers::Refusal;
use system::events::{Act, Event};
use test_tools::keep;
use thread_state::State;

impl Oracle {
    /// Drives the oldest open request to its Close; if nothing is open, it opens the oldest waiting one first. It arms the polls of all
    /// live targets of open requests, and serves the threads whose bodies are in their berths.
    pub(super) fn drive(&mut self) -> Result<Said, Said> {
        self.may_drive(false)?;
        self.begin()?;
        self.tell_all()?;
        if self.is_census() {
            return self.drive_census();
        }
        self.serve_all()?;
        match self.close(None) {
            Said::Closed(number) => Ok(Said::Handshake(number)),
            other => Err(other),
        }
    }

    /// Opens as many waiting requests as it may. It arms the polls of the targets of all open requests, serves them, and closes all.
    /// Answers how many it closed.
    pub(super) fn drive_four(&mut self) -> Result<Said, Said> {
        self.may_drive(true)?;
        self.begin()?;
        if self.is_census() {
            return match self.drive()? {
                Said::Census(_) => Ok(Said::Number(1)),
                other => Err(other),
            };
        }
        for _open in 0..OPEN {
            self.open_next()?;
        }
        self.tell_all()?;
        self.serve_all()?;
        self.close_all()
    }

    // Closes all open requests. Answers how many.
    fn close_all(&mut self) -> Result<Said, Said> {
        let mut closed: u64 = 0;
        for _open in 0..OPEN {
            match self.close(None) {
                Said::Closed(_) => closed = closed.saturating_add(1),
                Said::Refused(Refusal::NothingOpen) => break,
                other => return Err(other),
            }
        }
        Ok(Said::Number(closed))
    }

    // Opens the oldest waiting request if nothing is open.
    fn begin(&mut self) -> Result<(), Said> {
        if !self.open.is_empty() {
            return Ok(());
        }
        match self.open_next()? {
            Said::Opened(_) => Ok(()),
            other => Err(other),
        }
    }

    // The live thread at the index, if it is due for an open request.
    fn due_at(&self, index: usize) -> Option<Live> {
        match self.live.get(index) {
            Some(live) if self.is_due(live.name) => Some(*live),
            _ => None,
        }
    }

    fn tell_all(&mut self) -> Result<(), Said> {
        for index in 0..self.live.len() {
            if let Some(live) = self.due_at(index) {
                self.tell_each(live.name)?;
            }
        }
        Ok(())
    }

    // Arms the poll of the thread for every open request that lists it.
    fn tell_each(&mut self, name: u64) -> Result<(), Said> {
        for _open in 0..OPEN + 1 {
            match self.tell(name) {
                Said::Told => {}
                Said::Refused(Refusal::AlreadyTold) => break,
                other => return Err(other),
            }
        }
        Ok(())
    }

    // Answers Waits unless the body of each due thread is in its berth or held. Due counts for the oldest request, or with `all` for all
    // that are open or may be opened.
    fn may_drive(&mut self, all: bool) -> Result<(), Said> {
        for index in 0..self.live.len() {
            if let Some(live) = self.live.get(index).copied() {
                if self.is_awaited(live.name, all) && !self.is_away(live.place) {
                    return Err(Said::Waits);
                }
            }
        }
        Ok(())
    }

    fn is_awaited(&self, name: u64, all: bool) -> bool {
        if all {
            self.is_due(name) || self.will_be_due(name)
        } else {
            self.is_due_first(name)
        }
    }

    // Whether a live thread is due for the oldest open request, or, if nothing is open, for the oldest waiting one.
    fn is_due_first(&self, name: u64) -> bool {
        match self.open.first() {
            Some(open) => open.is_due(name),
            None => match self.waiting.first() {
                Some(oldest) => is_listed(&oldest.targets, name),
                None => false,
            },
        }
    }

    // Whether a live thread will be due for a waiting request that may be opened.
    fn will_be_due(&self, name: u64) -> bool {
        if self.is_census() {
            return false;
        }
        let mut open = self.open.len();
        for waiting in &self.waiting {
            let is_census = waiting.targets.is_none();
            if open >= OPEN || (is_census && open > 0) {
                return false;
            }
            if is_listed(&waiting.targets, name) {
                return true;
            }
            open = open.saturating_add(1);
        }
        false
    }

    // Whether the thread is in native code or blocked, and hasn't its body.
    fn is_away(&mut self, place: usize) -> bool {
        matches!(self.state_at(place), State::InNative(_) | State::Blocked)
    }

    // Releases the held threads. Then it holds, publishes, serves and releases each due thread whose body is in its berth.
    fn serve_all(&mut self) -> Result<(), Said> {
        self.release_all()?;
        for index in 0..self.live.len() {
            if let Some(live) = self.due_at(index) {
                if self.is_away(live.place) {
                    self.hold_and_serve(live.place)?;
                }
            }
        }
        Ok(())
    }

    fn hold_and_serve(&mut self, place: usize) -> Result<(), Said> {
        self.done(place, Act::Hold)?;
        self.publish(place)?;
        self.finish_all(place)?;
        self.done(place, Act::Release)
    }

    // Holds each due thread that isn't held, operates the census, releases all threads, and closes it. If the census was operated before,
    // the list counts the frames of the held threads.
    fn drive_census(&mut self) -> Result<Said, Said> {
        self.hold_all()?;
        self.count_all()?;
        self.release_all()?;
        match self.close(None) {
            Said::Closed(number) => Ok(Said::Census(number)),
            other => Err(other),
        }
    }

    fn hold_all(&mut self) -> Result<(), Said> {
        for index in 0..self.live.len() {
            if let Some(live) = self.due_at(index) {
                if !self.is_held(live.place) {
                    self.hold(live.place)?;
                }
            }
        }
        Ok(())
    }

    fn count_all(&mut self) -> Result<(), Said> {
        if self.is_operated() {
            return self.count_held();
        }
        match self.operate()? {
            Said::Census(_) => Ok(()),
            other => Err(other),
        }
    }

    fn is_operated(&self) -> bool {
        match self.open.first() {
            Some(open) => open.operated,
            None => false,
        }
    }

    fn release_all(&mut self) -> Result<(), Said> {
        for index in 0..self.held.len() {
            if let Some(place) = self.held.get(index).copied() {
                self.done(place, Act::Release)?;
            }
        }
        self.held.clear();
        Ok(())
    }

    // The frames of each code on the stacks of the held threads.
    fn count_held(&mut self) -> Result<(), Said> {
        let frames = self.frames_of_held()?;
        self.counts.clear();
        for made in &self.codes {
            let count = times(&frames, made.id.serial);
            if count > 0 && self.counts.push((made.id.serial, count)).is_err() {
                return Err(Said::NoMemory);
            }
        }
        Ok(())
    }

    fn frames_of_held(&mut self) -> Result<Vec<Frame>, Said> {
        let mut frames = Vec::new(self.alloc);
        for index in 0..self.held.len() {
            if let Some(place) = self.held.get(index).copied() {
                self.at(place, Act::Stack);
                for frame in &self.frames {
                    keep(&mut frames, *frame)?;
                }
            }
        }
        Ok(frames)
    }

    /// Reclaims a code that isn't entrant, while nothing is open or waits: Ask for the jobs' handshake, if there is one; Round; the
    /// handshake from Open to Close; a Look at each place; Weigh; and Free if the code is clear.
    pub(super) fn reclaim(
        &mut self,
        serial: u64,
        handshake: Option<Handshake>,
    ) -> Result<Said, Said> {
        self.may_reclaim(serial)?;
        match handshake {
            Some(handshake) if handshake.count > 0 => self.shake_hands(handshake)?,
            _ => self.round()?,
        }
        Ok(self.look_and_free(serial))
    }

    fn may_reclaim(&mut self, serial: u64) -> Result<(), Said> {
        match self.weighable(serial) {
            Said::Done => {}
            fault => return Err(fault),
        }
        if self.open.is_empty() && self.waiting.is_empty() {
            return Ok(());
        }
        Err(Said::Refused(Refusal::AlreadyOpen))
    }

    fn round(&mut self) -> Result<(), Said> {
        match self.play(Event::Round) {
            Said::Done => Ok(()),
            other => Err(other),
        }
    }

    // Ask, Round, and the handshake to its Close.
    fn shake_hands(&mut self, handshake: Handshake) -> Result<(), Said> {
        self.may_ask(handshake)?;
        match self.ask(handshake)? {
            Said::Asked(_) => {}
            other => return Err(other),
        }
        self.round()?;
        match self.drive()? {
            Said::Handshake(_) => Ok(()),
            other => Err(other),
        }
    }

    // Answers Waits if a target of the handshake has its body.
    fn may_ask(&mut self, handshake: Handshake) -> Result<(), Said> {
        let mut name = handshake.first;
        for _listed in 0..handshake.count {
            if let Some(place) = self.place_of(name) {
                if !self.is_away(place) {
                    return Err(Said::Waits);
                }
            }
            name = name.saturating_add(handshake.step);
        }
        Ok(())
    }

    fn look_and_free(&mut self, serial: u64) -> Said {
        for place in 0..self.armed.len() {
            self.play(Event::Look(serial, place));
        }
        match self.play(Event::Weigh(serial)) {
            Said::Retired => match self.free(serial) {
                Said::Done => Said::Freed,
                other => other,
            },
            other => other,
        }
    }
}

// How many of the frames belong to the code.
fn times(frames: &[Frame], serial: u64) -> u32 {
    let mut count: u32 = 0;
    for frame in frames {
        if let Some(id) = frame.code {
            if id.serial == serial {
                count = count.saturating_add(1);
            }
        }
    }
    count
}
