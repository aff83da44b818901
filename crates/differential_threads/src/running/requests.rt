//! Calls about requests, on a running system.
ghost use Rattle.std.specs.Prelude.{◌<◌, length, IfSome};

use super::Side;
use crate::faults::{
    of_ask, of_close, of_drive, of_hold, of_open, of_operate, of_release, of_serve, of_tell,
};
use bodies::Name;
use coordinator::{Driven, Told};
use desk::Refused;
use differential_schedule::calls::{Handshake, RequestCall, StepCall};
use differential_schedule::said::Said;
use operations::job::HandshakeOp;
use operations::{Ask, Request, Targets};
use std::alloc::AllocError;
use std::sync::Wait;
use system::answers::Refusal;

// The index of a job for the name that has this query.
fn job_at<J: HandshakeOp>(jobs: &[J], name: u64, ask: Ask) -> Option<usize>
    ensures { IfSome result (λ i. i < length jobs.now) }
{
    for index in 0..jobs.len() {
        if jobs[index].target_of() == name && jobs[index].ask_of() == ask {
            return Some(index);
        }
    }
    None
}

// The answer to a step that is done or refused.
fn of_done<T: Drop>(answer: Result<T, Refusal>) -> Said {
    match answer {
        Ok(_receipt) => Said::Done,
        Err(refusal) => Said::Refused(refusal),
    }
}

impl<'a, N: Name, J: HandshakeOp> Side<'a, N, J> {
    // Takes the jobs for the targets, in their order. If they aren't to fit, it takes one less than there are targets, or all there
    // are.
    pub(super) fn take_jobs(&mut self, handshake: Handshake) -> Result<Vec<J>, AllocError> {
        let mut taken = Vec::new(self.alloc);
        let mut name = handshake.first;
        for _listed in 0..handshake.count {
            if let Some(job) = self.take_job(name, handshake.ask) {
                if taken.push(job).is_err() {
                    return Err(AllocError);
                }
            }
            name = name.saturating_add(handshake.step);
        }
        if !handshake.fits && taken.len() as u64 >= handshake.count {
            if let Some(job) = taken.pop() {
                if self.jobs.push(job).is_err() {
                    return Err(AllocError);
                }
            }
        }
        Ok(taken)
    }

    fn take_job(&mut self, name: u64, ask: Ask) -> Option<J> {
        match job_at(self.jobs.as_slice(), name, ask) {
            Some(index) => Some(self.jobs.swap_remove(index)),
            None => None,
        }
    }

    // Returns jobs to the stock, for other requests.
    pub(super) fn put_back(&mut self, jobs: Vec<J>, said: Said) -> Said {
        for job in jobs {
            if self.jobs.push(job).is_err() {
                return Said::NoMemory;
            }
        }
        said
    }

    pub(super) fn of_request<R: Wait>(&mut self, rt: &R, call: RequestCall) -> Said {
        match call {
            RequestCall::SubmitCensus => self.submit(rt, Request::Census, Vec::new(self.alloc)),
            RequestCall::Submit(handshake) => self.submit_handshake(rt, handshake),
            RequestCall::Open => self.open(rt),
            RequestCall::Close => self.close(rt),
            RequestCall::CloseOf(number) => self.close_of(rt, number),
            RequestCall::Drive => self.drive(rt),
            RequestCall::DriveFour => self.drive_four(rt),
            RequestCall::Forget => self.forget(rt),
        }
    }

    pub(super) fn step<R: Wait>(&mut self, rt: &R, call: StepCall) -> Said {
        match call {
            StepCall::Tell(name) => self.tell(rt, name),
            StepCall::Hold(place) => of_done(self.coordinator.hold(rt, place).map_err(of_hold)),
            StepCall::Serve(place) => of_done(self.coordinator.serve(rt, place).map_err(of_serve)),
            StepCall::Operate => self.operate(rt),
            StepCall::Release(place) => {
                of_done(self.coordinator.release(rt, place).map_err(of_release))
            }
        }
    }

    fn submit_handshake<R: Wait>(&mut self, rt: &R, handshake: Handshake) -> Said {
        let Ok(names) = handshake.names(self.alloc) else {
            return Said::NoMemory;
        };
        let request = Request::Handshake {
            targets: Targets::from_vec(names),
            ask: handshake.ask,
        };
        match self.take_jobs(handshake) {
            Ok(jobs) => self.submit(rt, request, jobs),
            Err(_) => Said::NoMemory,
        }
    }

    fn submit<R: Wait>(&mut self, rt: &R, request: Request, jobs: Vec<J>) -> Said {
        match self.tables.shared().submit(rt, request, jobs) {
            Ok((number, _receipt)) => Said::Asked(number),
            Err(refused) => {
                let Refused { fault, jobs } = refused;
                self.put_back(jobs, of_ask(fault))
            }
        }
    }

    fn tell<R: Wait>(&mut self, rt: &R, name: u64) -> Said {
        match self.coordinator.tell(rt, name) {
            Ok(Told::Told(_)) => Said::Told,
            Ok(Told::Gone) => Said::Gone,
            Err(fault) => Said::Refused(of_tell(fault)),
        }
    }

    fn operate<R: Wait>(&mut self, rt: &R) -> Said {
        match self.coordinator.operate(rt) {
            Ok((number, counts, _receipt)) => self.note_census(number, counts),
            Err(fault) => of_operate(fault),
        }
    }

    fn note_census(&mut self, number: u64, counts: Vec<(u64, u32)>) -> Said {
        self.counted = counts;
        Said::Census(number)
    }

    fn open<R: Wait>(&mut self, rt: &R) -> Said {
        match self.coordinator.open(rt) {
            Ok((number, _receipt)) => Said::Opened(number),
            Err(fault) => Said::Refused(of_open(fault)),
        }
    }

    fn close<R: Wait>(&mut self, rt: &R) -> Said {
        match self.coordinator.close(rt) {
            Ok((number, _receipt)) => Said::Closed(number),
            Err(fault) => Said::Refused(of_close(fault)),
        }
    }

    fn close_of<R: Wait>(&mut self, rt: &R, number: u64) -> Said {
        match self.coordinator.close_of(rt, number) {
            Ok(_receipt) => Said::Closed(number),
            Err(fault) => Said::Refused(of_close(fault)),
        }
    }

    fn forget<R: Wait>(&self, rt: &R) -> Said {
        self.tables.shared().forget(rt);
        Said::Forgot
    }

    fn drive_four<R: Wait>(&mut self, rt: &R) -> Said {
        match self.coordinator.drive_four(rt) {
            Ok(closed) => Said::Number(closed as u64),
            Err(fault) => of_drive(fault),
        }
    }

    fn drive<R: Wait>(&mut self, rt: &R) -> Said {
        let driven = match self.coordinator.drive(rt) {
            Ok((driven, _receipt)) => driven,
            Err(fault) => return of_drive(fault),
        };
        match driven {
            Driven::Handshake(number) => Said::Handshake(number),
            Driven::Census(number, counts) => self.note_census(number, counts),
        }
    }
}
