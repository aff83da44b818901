//! Compares what is visible of both sides after a call.
use crate::play::{Pair, Stopped};
use crate::running::Running;
use crate::said::Said;
use std::alloc::AllocError;
use std::fmt::{Debug, Write};
use test_tools::keep;

impl<R, S: Running<R>> Pair<'_, R, S> {
    // Fails unless both sides have the same value, which the error names by a word and a number.
    fn same<T: PartialEq + Debug>(
        &self,
        word: &str,
        of: u64,
        core: &T,
        running: &T,
    ) -> Result<(), Stopped> {
        if *core == *running {
            return Ok(());
        }
        Err(self.differ(word, of, core, running)?)
    }

    fn differ<T: Debug>(
        &self,
        word: &str,
        of: u64,
        core: &T,
        running: &T,
    ) -> Result<Stopped, AllocError> {
        let number = self.tally.calls;
        let call = self.last;
        let mut told = format!(in self.alloc; "call {number}, {call}, {word} {of}: ")?;
        write!(
            told,
            "the core has {core:?}, the running system {running:?}"
        )?;
        Ok(Stopped::Differ(told))
    }

    /// Compares the answers to a call, and then the state that is visible after it.
    pub fn compare_answers(&mut self, core: Said, said: Said) -> Result<(), Stopped> {
        self.same("answer", 0, &core.parts(), &said.parts())?;
        if let Said::Census(_) = said {
            self.census()?;
        }
        self.compare_seen()?;
        if self.is_turn_of_all() {
            return self.compare_all();
        }
        Ok(())
    }

    // Compares what is cheap to read. Of the threads' stacks it reads one per call, in turn.
    fn compare_seen(&mut self) -> Result<(), Stopped> {
        self.states()?;
        self.polls()?;
        self.hints()?;
        self.codes()?;
        self.live()?;
        self.last_replies()?;
        self.stack_in_turn()?;
        self.counts()
    }

    /// Compares what is too expensive to read after each call: the replies of every operation, including the next number, and the frames
    /// of each thread that is away.
    pub fn compare_all(&mut self) -> Result<(), Stopped> {
        for op in 0..self.oracle.asked.saturating_add(2) {
            self.replies(op)?;
        }
        for index in 0..self.threads.len() {
            self.stack(index)?;
        }
        Ok(())
    }

    fn census(&self) -> Result<(), Stopped> {
        let core = Vec::from_slice(self.alloc, self.oracle.counts.as_slice())?;
        let running = Vec::from_slice(self.alloc, self.running.counted())?;
        self.same("census", 0, &core, &running)
    }

    // Compares the count word of each slot, and their sum.
    fn counts(&mut self) -> Result<(), Stopped> {
        let mut sum: u64 = 0;
        for slot in 0..self.sizes.slots {
            let core = self.oracle.count_in(slot);
            sum = sum.saturating_add(core);
            let running = self.running.count_word(slot);
            self.same("count word of slot", u64::from(slot), &core, &running)?;
        }
        self.same("sum of counts", 0, &sum, &self.running.sum_of_counts())
    }

    fn stack_in_turn(&mut self) -> Result<(), Stopped> {
        match self.threads.len() {
            0 => Ok(()),
            count => self.stack((self.tally.calls % count as u64) as usize),
        }
    }

    // Compares the frames of the thread at the index. Its body is in its berth if it is away and not held.
    fn stack(&mut self, index: usize) -> Result<(), Stopped> {
        let Some(thread) = self.threads.get(index).copied() else {
            return Ok(());
        };
        let Some(frames) = self.running.stack(self.rt, thread)? else {
            return Ok(());
        };
        let said = self.oracle.look_at_stack(thread.place);
        let name = thread.name;
        self.same(
            "stack of thread",
            name,
            &Said::Frames.parts(),
            &said.parts(),
        )?;
        self.same("stack of thread", name, &self.oracle.frames, &frames)
    }

    fn states(&mut self) -> Result<(), Stopped> {
        for index in 0..self.threads.len() {
            if let Some(thread) = self.threads.get(index).copied() {
                let core = self.oracle.state_at(thread.place);
                self.same("state of thread", thread.name, &core, &thread.state)?;
            }
        }
        Ok(())
    }

    fn polls(&self) -> Result<(), Stopped> {
        for place in 0..self.sizes.places {
            let core = self.oracle.armed_at(place);
            let running = self.running.poll_word(place);
            self.same("poll word of place", place as u64, &core, &running)?;
        }
        Ok(())
    }

    fn hints(&self) -> Result<(), Stopped> {
        for method in 0..self.sizes.methods {
            let core = self.oracle.hint(method);
            let running = self.running.hint(method);
            self.same("hint of method", u64::from(method), &core, &running)?;
        }
        Ok(())
    }

    fn codes(&mut self) -> Result<(), Stopped> {
        for serial in 0..(self.oracle.codes.len() as u64).saturating_add(1) {
            let core = self.oracle.weighable(serial);
            let running = self.running.weighable(self.rt, serial);
            self.same("code", serial, &core.parts(), &running.parts())?;
        }
        Ok(())
    }

    fn live(&self) -> Result<(), Stopped> {
        let mut names = Vec::new(self.alloc);
        for live in &self.oracle.live {
            keep(&mut names, live.name)?;
        }
        let found = self.running.live(self.rt)?;
        self.same("live", 0, &names, &found)
    }

    fn last_replies(&self) -> Result<(), Stopped> {
        match self.oracle.replies.last() {
            Some(last) => self.replies(last.op),
            None => Ok(()),
        }
    }

    // Whether both sides have the same replies of the operation, or both have forgotten them.
    fn replies(&self, op: u64) -> Result<(), Stopped> {
        let kept = self.oracle.kept_replies(op)?;
        let found = self.running.kept_replies(self.rt, op)?;
        self.same("replies of operation", op, &kept, &found)?;
        let replies = kept.unwrap_or(Vec::new(self.alloc));
        let found = self.running.replies(self.rt, op)?;
        self.same("replies of operation", op, &replies, &found)
    }
}
