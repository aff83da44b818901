//! Calls about codes, on a running system.
use super::Side;
use crate::faults::{of_code, of_free, of_invalidate, of_reclaim, of_retire};
use board::Weighed;
use bodies::Name;
use coordinator::{NotReclaimed, Reclaimed};
use differential_schedule::calls::{CodeCall, Handshake};
use differential_schedule::said::Said;
use operations::job::HandshakeOp;
use std::sync::Wait;
use system::answers::Refusal;

impl<'a, N: Name, J: HandshakeOp> Side<'a, N, J> {
    pub(super) fn of_code<R: Wait>(&mut self, rt: &R, call: CodeCall) -> Said {
        match call {
            CodeCall::Install(method) => self.install(rt, method),
            CodeCall::Invalidate(serial) => self.invalidate(rt, serial),
            CodeCall::Round => self.round(rt),
            CodeCall::Look(serial, place) => self.tables.look(rt, serial, place),
            CodeCall::Weigh(serial) => self.weigh(rt, serial),
            CodeCall::Free(serial) => self.free(rt, serial),
            CodeCall::Reclaim(serial, handshake) => self.reclaim(rt, serial, handshake),
        }
    }

    fn install<R: Wait>(&self, rt: &R, method: u32) -> Said {
        match self.tables.shared().install(rt, method) {
            Ok((serial, _receipt)) => Said::Code(serial),
            Err(fault) => of_code(fault),
        }
    }

    fn invalidate<R: Wait>(&self, rt: &R, serial: u64) -> Said {
        match self.tables.shared().invalidate(rt, serial) {
            Ok(_receipt) => Said::Done,
            Err(fault) => Said::Refused(of_invalidate(fault)),
        }
    }

    fn round<R: Wait>(&self, rt: &R) -> Said {
        let shared = self.tables.shared();
        let mut desk = shared.desk().lock(rt);
        match desk.round(shared.board()) {
            Ok(()) => Said::Done,
            Err(_) => Said::Refused(Refusal::Spent),
        }
    }

    fn weigh<R: Wait>(&self, rt: &R, serial: u64) -> Said {
        let shared = self.tables.shared();
        let mut desk = shared.desk().lock(rt);
        match desk.weigh(shared.board(), serial) {
            Ok((Weighed::NotLooked(place), _, _)) => Said::NotLooked(place),
            Ok((Weighed::Used(count), _, _)) => Said::Used(count),
            Ok((Weighed::Clear, _, _)) => Said::Retired,
            Err(fault) => Said::Refused(of_retire(fault)),
        }
    }

    fn free<R: Wait>(&self, rt: &R, serial: u64) -> Said {
        let shared = self.tables.shared();
        let mut desk = shared.desk().lock(rt);
        match desk.free(shared.board(), serial) {
            Ok(_receipt) => Said::Done,
            Err(fault) => Said::Refused(of_free(fault)),
        }
    }

    fn reclaim<R: Wait>(&mut self, rt: &R, serial: u64, handshake: Option<Handshake>) -> Said {
        let taken = match handshake {
            Some(handshake) => self.take_jobs(handshake),
            None => Ok(Vec::new(self.alloc)),
        };
        match taken {
            Ok(jobs) => self.reclaim_with(rt, serial, jobs),
            Err(_) => Said::NoMemory,
        }
    }

    fn reclaim_with<R: Wait>(&mut self, rt: &R, serial: u64, jobs: Vec<J>) -> Said {
        match self.coordinator.reclaim(rt, serial, jobs) {
            Ok(Reclaimed::Freed(_receipt)) => Said::Freed,
            Ok(Reclaimed::Used(count, _weighing)) => Said::Used(count),
            Ok(Reclaimed::Late(place, _weighing)) => Said::NotLooked(place),
            Err(refused) => {
                let NotReclaimed { fault, jobs } = refused;
                self.put_back(jobs, of_reclaim(fault))
            }
        }
    }
}
