//! The end of a schedule. No call reads entries and moments as words; calls on all codes show them by their answers. Then all threads
//! exit, and all codes are freed.
use crate::calls::{Call, CodeCall, RequestCall, ThreadCall};
use crate::oracle::Live;
use crate::play::{Made, Pair, Stopped};
use crate::running::Running;
use std::alloc::AllocError;
use thread_state::State;

// The most requests at the end: those that wait and those that are open.
const REQUESTS: u32 = 69;

// The number of returns that empty any stack, including the one that is refused.
const RETURNS: u32 = 257;

impl<R, S: Running<R>> Pair<'_, R, S> {
    /// Makes all calls of the end.
    pub fn finish(&mut self) -> Result<(), Stopped> {
        self.call_all()?;
        self.look_for_all()?;
        self.bring_home()?;
        self.free_all()?;
        self.compare_all()
    }

    fn call(&mut self, name: u64, call: ThreadCall) -> Result<Made, Stopped> {
        self.make(Call::Of(name, call))
    }

    fn call_of(&mut self, call: CodeCall) -> Result<Made, Stopped> {
        self.make(Call::Code(call))
    }

    // A thread that can call methods.
    fn one_in_java(&self) -> Option<u64> {
        for thread in &self.threads {
            if let State::InJava = thread.state {
                return Some(thread.name);
            }
        }
        None
    }

    // A thread calls the method of each code with the code as its hint, and returns. The answer shows whether the code is in use.
    fn call_all(&mut self) -> Result<(), Stopped> {
        let Some(name) = self.one_in_java() else {
            return Ok(());
        };
        for index in 0..self.oracle.codes.len() {
            if let Some(code) = self.oracle.codes.get(index).copied() {
                let call = ThreadCall::Call(code.method, Some(code.id));
                if let Made::Done = self.call(name, call)? {
                    self.call(name, ThreadCall::Ret)?;
                }
            }
        }
        Ok(())
    }

    // Looks for each code in a slot at all places, and weighs it.
    fn look_for_all(&mut self) -> Result<(), Stopped> {
        for slot in 0..self.oracle.slots.len() {
            let serial = self.oracle.slots.get(slot).copied().unwrap_or(0);
            if serial != 0 {
                self.look_everywhere(serial)?;
                self.call_of(CodeCall::Weigh(serial))?;
            }
        }
        Ok(())
    }

    // Looks at each place, if the code is not entrant and no zombie.
    fn look_everywhere(&mut self, serial: u64) -> Result<(), Stopped> {
        for place in 0..self.sizes.places {
            if let Made::Refused = self.call_of(CodeCall::Look(serial, place))? {
                break;
            }
        }
        Ok(())
    }

    fn live_threads(&self) -> Result<Vec<Live>, AllocError> {
        Vec::from_slice(self.alloc, self.oracle.live.as_slice())
    }

    // Drives all requests to their Close, and ends all threads. If a census keeps a thread for good, it doesn't.
    fn bring_home(&mut self) -> Result<(), Stopped> {
        let live = self.live_threads()?;
        self.bring_all_home(live.as_slice())
    }

    fn bring_all_home(&mut self, live: &[Live]) -> Result<(), Stopped> {
        for thread in live {
            if let Made::Waits = self.send_away(*thread)? {
                return Ok(());
            }
        }
        if let Made::Waits = self.drive_all()? {
            return Ok(());
        }
        // Now all bodies are in their berths.
        self.compare_all()?;
        for thread in live {
            self.take_home(*thread)?;
        }
        Ok(())
    }

    // Drives all requests to their Close, until one would wait.
    fn drive_all(&mut self) -> Result<Made, Stopped> {
        for request in 0..REQUESTS {
            let call = if request % 2 == 0 {
                RequestCall::DriveFour
            } else {
                RequestCall::Drive
            };
            match self.make(Call::Request(call))? {
                Made::Done => {}
                other => return Ok(other),
            }
        }
        Ok(Made::Done)
    }

    // A thread goes into native code, or stays blocked. It may wait for a census.
    fn send_away(&mut self, thread: Live) -> Result<Made, Stopped> {
        if let State::AtPoll(_) = self.oracle.state_at(thread.place) {
            if let Made::Waits = self.call(thread.name, ThreadCall::Stop)? {
                return Ok(Made::Waits);
            }
        }
        if let State::InJava | State::InVm = self.oracle.state_at(thread.place) {
            self.call(thread.name, ThreadCall::ToNative)?;
        }
        Ok(Made::Done)
    }

    // A thread comes back into Java, returns from all methods and exits.
    fn take_home(&mut self, thread: Live) -> Result<(), Stopped> {
        let back = match self.oracle.state_at(thread.place) {
            State::Blocked => ThreadCall::Unblock,
            _ => ThreadCall::FromNative,
        };
        self.call(thread.name, back)?;
        if let State::InVm = self.oracle.state_at(thread.place) {
            self.call(thread.name, ThreadCall::FromVm)?;
        }
        self.return_all(thread.name)?;
        self.make(Call::Exit(thread.name))?;
        Ok(())
    }

    fn return_all(&mut self, name: u64) -> Result<(), Stopped> {
        for _frame in 0..RETURNS {
            match self.call(name, ThreadCall::Ret)? {
                Made::Done => {}
                _ => break,
            }
        }
        Ok(())
    }

    // Invalidates and reclaims each code, and frees zombies.
    fn free_all(&mut self) -> Result<(), Stopped> {
        for serial in 1..(self.oracle.codes.len() as u64).saturating_add(1) {
            self.call_of(CodeCall::Free(serial))?;
            self.call_of(CodeCall::Invalidate(serial))?;
            self.call_of(CodeCall::Reclaim(serial, None))?;
        }
        Ok(())
    }
}
