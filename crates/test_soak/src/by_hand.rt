//! Requests on which the main thread works step by step.
use crate::answers::{Closed, Held};
use crate::driver::Driver;
use crate::making::Makes;
use crate::wrong::{Step, Wrong};
use bodies::Name;
use coordinator::{OperateFault, ServeFault};
use operations::job::HandshakeOp;
use std::sync::Wait;
use std::thread;
use test_tools::keep;

// How often the main thread yields at most between arming polls and holding threads.
const PAUSE: u64 = 16;

// The least of the numbers and `other`.
fn least_of(ops: &[u64], other: u64) -> u64 {
    let mut least = other;
    for op in ops {
        least = least.min(*op);
    }
    least
}

impl<'c, 'x, 'a, N: Name, J: HandshakeOp, R: Wait, M: Makes<J>> Driver<'c, 'x, 'a, N, J, R, M> {
    // Opens the oldest waiting request.
    fn open(&mut self, op: u64) -> Result<(), Wrong> {
        match self.hands.open() {
            Some(opened) if opened == op => Ok(()),
            _ => Err(Wrong::Answer(Step::Open)),
        }
    }

    fn tell_all(&mut self, names: &[u64]) -> Result<(), Wrong> {
        for name in names {
            if !self.hands.tell(*name) {
                return Err(Wrong::Answer(Step::Tell));
            }
        }
        Ok(())
    }

    fn tell_live(&mut self) -> Result<(), Wrong> {
        let live = self.hands.live()?;
        self.tell_all(live.as_slice())
    }

    // Arms the polls of the handshake's targets.
    fn tell_targets(&mut self, op: u64) -> Result<(), Wrong> {
        let Some(asked) = self.asked.of(op) else {
            return Err(Wrong::Answer(Step::Tell));
        };
        let targets = Vec::from_slice(self.hands.alloc, asked.targets.as_slice())?;
        self.tell_all(targets.as_slice())
    }

    /// Works on a census step by step. While all threads are held, each count word must equal the census's count of the code in the slot.
    pub fn count_by_hand(&mut self) -> Result<(), Wrong> {
        let op = self.submit_census()?;
        self.open(op)?;
        self.tell_live()?;
        self.operate()?;
        let are_counted = self.words.are(self.counted.as_slice(), &self.codes);
        self.release_all();
        self.close(op)?;
        if !are_counted {
            return Err(Wrong::Counts(op));
        }
        self.check_counted(op)
    }

    fn release_all(&mut self) {
        for place in 0..self.plan.sizes.places {
            self.hands.release(place);
        }
    }

    // Closes the oldest request, which must be this one.
    fn close(&mut self, op: u64) -> Result<(), Wrong> {
        match self.hands.close() {
            Closed::Of(closed) if closed == op => Ok(()),
            _ => Err(Wrong::Answer(Step::Close)),
        }
    }

    // Holds threads until all are held, and operates the open census.
    fn operate(&mut self) -> Result<(), Wrong> {
        let rt = self.hands.rt;
        for _ in rt.forever() {
            self.hold_all()?;
            if self.is_operated()? {
                return Ok(());
            }
            thread::yield_now();
        }
        unreachable!()
    }

    fn hold_all(&mut self) -> Result<(), Wrong> {
        for place in 0..self.plan.sizes.places {
            if let Held::NotFor | Held::Wrong = self.hands.hold(place) {
                return Err(Wrong::Answer(Step::Hold));
            }
        }
        Ok(())
    }

    // Tries to operate the open census. Answers whether all threads were held, and it was operated.
    fn is_operated(&mut self) -> Result<bool, Wrong> {
        match self.hands.operate() {
            Ok(list) => {
                self.counted = list;
                Ok(true)
            }
            Err(OperateFault::NoMemory) => Err(Wrong::NoMemory),
            Err(OperateFault::Refused(desk::OperateFault::NotAllHeld)) => Ok(false),
            Err(OperateFault::Refused(_)) => Err(Wrong::Answer(Step::Operate)),
        }
    }

    /// Works on a handshake step by step. Each target serves itself, or it is held and served.
    pub fn shake_by_hand(&mut self) -> Result<(), Wrong> {
        let op = self.submit()?;
        if self.is_census(op) {
            return self.drive(op);
        }
        self.open(op)?;
        self.tell_targets(op)?;
        self.serve_to_close()?;
        self.check_handshake(op)
    }

    fn serve_to_close(&mut self) -> Result<(), Wrong> {
        let rt = self.hands.rt;
        for _ in rt.forever() {
            self.serve_held()?;
            match self.hands.close() {
                Closed::Of(_) => return Ok(()),
                Closed::NotDone => thread::yield_now(),
                Closed::Wrong => return Err(Wrong::Answer(Step::Close)),
            }
        }
        unreachable!()
    }

    /// Works on up to four handshakes at once, step by step, and closes them in any order.
    pub fn shake_four_by_hand(&mut self) -> Result<(), Wrong> {
        let mut left = Vec::new(self.hands.alloc);
        self.submit_four(&mut left)?;
        self.close_each(&mut left)
    }

    // Submits and opens them, and arms the polls of their targets.
    fn submit_four(&mut self, left: &mut Vec<u64>) -> Result<(), Wrong> {
        for _ in 0..4 {
            if let Some(op) = self.submit_handshake()? {
                keep(left, op)?;
            }
        }
        for op in left.as_slice() {
            self.open(*op)?;
        }
        for op in left.as_slice() {
            self.tell_targets(*op)?;
        }
        Ok(())
    }

    fn close_each(&mut self, left: &mut Vec<u64>) -> Result<(), Wrong> {
        let rt = self.hands.rt;
        for _ in rt.forever() {
            if left.is_empty() {
                return Ok(());
            }
            self.serve_held()?;
            self.close_some(left)?;
            let next = self.asked.next();
            self.may_forget(least_of(left.as_slice(), next))?;
            thread::yield_now();
        }
        unreachable!()
    }

    // Closes each request that can be closed. The others stay in `left`, in reverse order.
    fn close_some(&mut self, left: &mut Vec<u64>) -> Result<(), Wrong> {
        let mut rest = std::mem::replace(left, Vec::new(self.hands.alloc));
        while let Some(op) = rest.pop() {
            if self.is_closed(op)? {
                self.check_handshake(op)?;
            } else {
                keep(left, op)?;
            }
        }
        Ok(())
    }

    // Tries to close the handshake of this number. Answers whether it is closed.
    fn is_closed(&mut self, op: u64) -> Result<bool, Wrong> {
        match self.hands.close_of(op) {
            Closed::Of(_) => Ok(true),
            Closed::NotDone => Ok(false),
            Closed::Wrong => Err(Wrong::Answer(Step::Close)),
        }
    }

    // Holds each thread that can be held, serves all its pending operations and releases it.
    fn serve_held(&mut self) -> Result<(), Wrong> {
        for place in 0..self.plan.sizes.places {
            match self.hands.hold(place) {
                Held::Now => self.serve_and_release(place)?,
                Held::Not | Held::NotFor => {}
                Held::Already | Held::Wrong => return Err(Wrong::Answer(Step::Hold)),
            }
        }
        Ok(())
    }

    // Serves a held thread until it is done with all its pending operations, and releases it.
    fn serve_and_release(&mut self, place: usize) -> Result<(), Wrong> {
        self.serve_told(place)?;
        if self.hands.release(place) {
            return Ok(());
        }
        Err(Wrong::Answer(Step::Release))
    }

    fn serve_told(&mut self, place: usize) -> Result<(), Wrong> {
        let rt = self.hands.rt;
        for _ in rt.forever() {
            match self.hands.serve(place) {
                None => {}
                Some(ServeFault::AlreadyDone) => return Ok(()),
                Some(_) => return Err(Wrong::Answer(Step::Serve)),
            }
        }
        unreachable!()
    }

    /// Makes steps of requests, some of which are refused. Then it drives all that is open or waits to its Close, and checks it.
    pub fn step_at_random(&mut self) -> Result<(), Wrong> {
        let first = self.asked.next();
        self.submit_some(2)?;
        self.hands.open();
        self.hands.open();
        self.tell_live_in_vain()?;
        self.give_way(PAUSE);
        self.serve_each();
        let _ = self.hands.operate();
        self.release_all();
        self.hands.close();
        let op = self.choices.below(64);
        self.hands.close_of(op);
        self.drive_all()?;
        for op in first..self.asked.next() {
            self.check_closed(op)?;
        }
        Ok(())
    }

    fn tell_live_in_vain(&mut self) -> Result<(), Wrong> {
        for name in self.hands.live()? {
            self.hands.tell(name);
        }
        Ok(())
    }

    fn serve_each(&mut self) {
        for place in 0..self.plan.sizes.places {
            if let Held::Now = self.hands.hold(place) {
                self.hands.serve(place);
            }
        }
    }
}
