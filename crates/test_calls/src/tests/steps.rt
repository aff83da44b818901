//! Calls of the coordinator.
use crate::tests::shared::take_back;
use crate::tests::system::System;
use bodies::Name;
use coordinator::{Coordinator, Driven, NotReclaimed, OperateFault, ReclaimFault, Reclaimed, Told};
use operations::job::HandshakeOp;
use std::alloc::Global;
use std::fmt::Debug;
use std::sync::Wait;
use test_support::calls::Call;
use test_support::pop_list;
use test_support::said::{Said, done, number, numbered, shown, word};

// The result of arming a thread's poll by its name.
fn told<N: Name, F: Debug + Drop>(alloc: Global, answer: Result<Told<N>, F>) -> Said {
    match answer {
        Ok(Told::Told(_receipt)) => word(alloc, "told"),
        Ok(Told::Gone) => word(alloc, "gone"),
        Err(fault) => shown(alloc, fault),
    }
}

// The result of operating a census: its codes with their counts.
fn operated<T: Drop>(
    alloc: Global,
    answer: Result<(u64, Vec<(u64, u32)>, T), OperateFault>,
) -> Said {
    match answer {
        Ok((number, list, _receipt)) => shown(alloc, (number, list)),
        Err(OperateFault::Refused(fault)) => shown(alloc, fault),
        Err(OperateFault::NoMemory) => word(alloc, "NoMemory"),
    }
}

fn driven<T: Drop, F: Debug + Drop>(alloc: Global, answer: Result<(Driven, T), F>) -> Said {
    match answer {
        Ok((driven, _receipt)) => match driven {
            Driven::Handshake(number) => format!(in alloc; "handshake {number}"),
            Driven::Census(number, list) => shown(alloc, (number, list)),
        },
        Err(fault) => shown(alloc, fault),
    }
}

// How many requests were driven at once.
fn counted<F: Debug + Drop>(alloc: Global, answer: Result<u32, F>) -> Said {
    match answer {
        Ok(count) => number(alloc, count as u64),
        Err(fault) => shown(alloc, fault),
    }
}

/// Reclaims a code with the last list of jobs. If memory is refused, the jobs come back.
pub fn reclaim<N: Name, J: HandshakeOp, R: Wait>(
    rt: &R,
    alloc: Global,
    coordinator: &mut Coordinator<'_, N, J>,
    serial: u64,
    lists: &mut Vec<Vec<J>>,
) -> Said {
    let jobs = pop_list(alloc, lists);
    match coordinator.reclaim(rt, serial, jobs) {
        Ok(Reclaimed::Freed(_receipt)) => word(alloc, "freed"),
        Ok(Reclaimed::Used(count, _weighing)) => format!(in alloc; "used {count}"),
        Ok(Reclaimed::Late(place, _weighing)) => format!(in alloc; "late {place}"),
        Err(NotReclaimed { fault, jobs }) => {
            if let ReclaimFault::Ask(fault) = &fault {
                take_back(fault, jobs, lists)?;
            }
            shown(alloc, fault)
        }
    }
}

impl<N: Name, J: HandshakeOp> System<'_, N, J> {
    /// A call that makes a step of a request or drives whole requests. None for another call.
    pub fn coordinate<R: Wait>(&mut self, rt: &R, alloc: Global, call: Call<'_>) -> Option<Said> {
        let (number, place) = (call.first as u64, call.first as usize);
        let coordinator = &mut self.coordinator;
        let said = match call.name {
            "open" => numbered(alloc, coordinator.open(rt)),
            "tell" => told(alloc, coordinator.tell(rt, number)),
            "hold" => done(alloc, coordinator.hold(rt, place)),
            "serve" => done(alloc, coordinator.serve(rt, place)),
            "release" => done(alloc, coordinator.release(rt, place)),
            "close" => numbered(alloc, coordinator.close(rt)),
            "close_of" => done(alloc, coordinator.close_of(rt, number)),
            "operate" => operated(alloc, coordinator.operate(rt)),
            "drive" => driven(alloc, coordinator.drive(rt)),
            "drive_four" => counted(alloc, coordinator.drive_four(rt)),
            "reclaim" => {
                let mut none = Vec::new(alloc);
                reclaim(rt, alloc, coordinator, number, &mut none)
            }
            _ => return None,
        };
        Some(said)
    }
}
