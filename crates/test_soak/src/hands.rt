//! The calls of the coordinator's side, made directly or through a stream that notes them. Each call is a function of its own: a function
//! that makes many of them needn't carry their contracts.
use crate::answers::{Came, Closed, Held};
use bodies::Name;
use coordinator::{Coordinator, DriveFault, Driven, OperateFault, ServeFault};
use desk::CodeFault;
use method_table::table::InvalidateFault;
use operations::Request;
use operations::job::HandshakeOp;
use recorder::Stream;
use std::alloc::{AllocError, Global};
use std::sync::Wait;
use thread_list::Shared;

/// The coordinator, and the stream of its side's calls; None if they aren't noted.
#[derive(Drop)]
pub struct Hands<'c, 'x, 'a, N: Name, J: HandshakeOp, R: Wait> {
    pub rt: &'a R,
    pub alloc: Global,
    pub shared: &'a Shared<N, J>,
    pub coordinator: &'c mut Coordinator<'x, N, J>,
    pub stream: Option<Stream<'a>>,
}

// The number of a request that was submitted or opened; None if that was refused.
fn number_of<T: Drop, F: Drop>(answer: Result<(u64, T), F>) -> Option<u64> {
    match answer {
        Ok((op, _receipt)) => Some(op),
        Err(_) => None,
    }
}

impl<'c, 'x, 'a, N: Name, J: HandshakeOp, R: Wait> Hands<'c, 'x, 'a, N, J, R> {
    /// Submits a request. Answers its number; None if it is refused.
    pub fn submit(&mut self, request: Request, jobs: Vec<J>) -> Option<u64> {
        let asked = match &mut self.stream {
            Some(stream) => stream.submit(self.shared, self.rt, request, jobs),
            None => self.shared.submit(self.rt, request, jobs),
        };
        number_of(asked)
    }

    /// Installs a code. Answers its serial.
    pub fn install(&mut self, method: u32) -> Result<u64, CodeFault> {
        let installed = match &mut self.stream {
            Some(stream) => stream.install(self.shared, self.rt, method),
            None => self.shared.install(self.rt, method),
        };
        match installed {
            Ok((serial, _receipt)) => Ok(serial),
            Err(fault) => Err(fault),
        }
    }

    /// Invalidates a code. Answers why it isn't invalidated, if it is refused.
    pub fn invalidate(&mut self, serial: u64) -> Option<InvalidateFault> {
        let invalidated = match &mut self.stream {
            Some(stream) => stream.invalidate(self.shared, self.rt, serial),
            None => self.shared.invalidate(self.rt, serial),
        };
        invalidated.err()
    }

    pub fn reclaim(&mut self, serial: u64, jobs: Vec<J>) -> Came {
        let by = &mut *self.coordinator;
        let reclaimed = match &mut self.stream {
            Some(stream) => stream.reclaim(by, self.rt, serial, jobs),
            None => by.reclaim(self.rt, serial, jobs),
        };
        match reclaimed {
            Ok(reclaimed) => Came::of(&reclaimed),
            Err(refused) => Came::of_refused(refused.fault),
        }
    }

    pub fn reclaim_alone(&mut self, serial: u64) -> Came {
        let none = Vec::new(self.alloc);
        self.reclaim(serial, none)
    }

    pub fn live(&mut self) -> Result<Vec<u64>, AllocError> {
        match &mut self.stream {
            Some(stream) => stream.live(self.shared, self.rt),
            None => self.shared.live(self.rt),
        }
    }

    pub fn replies(&mut self, op: u64) -> Result<Vec<(u64, u64)>, AllocError> {
        match &mut self.stream {
            Some(stream) => stream.replies(self.shared, self.rt, op),
            None => self.shared.replies(self.rt, op),
        }
    }

    /// Opens the oldest waiting request. Answers its number.
    pub fn open(&mut self) -> Option<u64> {
        let by = &mut *self.coordinator;
        let opened = match &mut self.stream {
            Some(stream) => stream.open(by, self.rt),
            None => by.open(self.rt),
        };
        number_of(opened)
    }

    /// Arms the poll of the thread with this name. Answers whether the thread was armed or gone, and not refused.
    pub fn tell(&mut self, name: u64) -> bool {
        let by = &mut *self.coordinator;
        match &mut self.stream {
            Some(stream) => stream.tell(by, self.rt, name).is_ok(),
            None => by.tell(self.rt, name).is_ok(),
        }
    }

    pub fn hold(&mut self, place: usize) -> Held {
        let by = &mut *self.coordinator;
        let held = match &mut self.stream {
            Some(stream) => stream.hold(by, self.rt, place),
            None => by.hold(self.rt, place),
        };
        Held::of(held)
    }

    /// Serves a held thread. Answers why it isn't served, if it is refused.
    pub fn serve(&mut self, place: usize) -> Option<ServeFault> {
        let by = &mut *self.coordinator;
        let served = match &mut self.stream {
            Some(stream) => stream.serve(by, self.rt, place),
            None => by.serve(self.rt, place),
        };
        served.err()
    }

    /// Operates the open census. Answers its counts.
    pub fn operate(&mut self) -> Result<Vec<(u64, u32)>, OperateFault> {
        let by = &mut *self.coordinator;
        let operated = match &mut self.stream {
            Some(stream) => stream.operate(by, self.rt),
            None => by.operate(self.rt),
        };
        match operated {
            Ok((_, list, _receipt)) => Ok(list),
            Err(fault) => Err(fault),
        }
    }

    /// Releases the thread of a place. Answers whether it was held.
    pub fn release(&mut self, place: usize) -> bool {
        let by = &mut *self.coordinator;
        match &mut self.stream {
            Some(stream) => stream.release(by, self.rt, place).is_ok(),
            None => by.release(self.rt, place).is_ok(),
        }
    }

    pub fn close(&mut self) -> Closed {
        let by = &mut *self.coordinator;
        let closed = match &mut self.stream {
            Some(stream) => stream.close(by, self.rt),
            None => by.close(self.rt),
        };
        match closed {
            Ok((op, _receipt)) => Closed::Of(op),
            Err(fault) => Closed::of_refused(fault),
        }
    }

    pub fn close_of(&mut self, op: u64) -> Closed {
        let by = &mut *self.coordinator;
        let closed = match &mut self.stream {
            Some(stream) => stream.close_of(by, self.rt, op),
            None => by.close_of(self.rt, op),
        };
        match closed {
            Ok(_receipt) => Closed::Of(op),
            Err(fault) => Closed::of_refused(fault),
        }
    }

    /// Drives the oldest request to its Close.
    pub fn drive(&mut self) -> Result<Driven, DriveFault> {
        let by = &mut *self.coordinator;
        let driven = match &mut self.stream {
            Some(stream) => stream.drive(by, self.rt),
            None => by.drive(self.rt),
        };
        match driven {
            Ok((driven, _receipt)) => Ok(driven),
            Err(fault) => Err(fault),
        }
    }

    /// Drives up to four requests to their Close. Answers how many.
    pub fn drive_four(&mut self) -> Result<u32, DriveFault> {
        let by = &mut *self.coordinator;
        match &mut self.stream {
            Some(stream) => stream.drive_four(by, self.rt),
            None => by.drive_four(self.rt),
        }
    }
}
