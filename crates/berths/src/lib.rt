//! The berths of a running system, one for each place: a room under a lock. The room keeps the body of a thread in a safe state, and the
//! operations that are pending for the thread.
//! `thread_list` puts bodies in and takes them out. `stopped_threads` and `coordinator` do the same for the coordinator.
//! Read `src/room.rt` first, then `src/berth.rt` and `specs/Berths.antt`.
//!
//! A room takes or gives a body only for its name and place, and answers each time with a receipt that only a room can make. The rest is
//! typed so that nothing gets lost: a job that leaves its room has to be run or handed on (`TakenJob`), and its answer has to be entered
//! (`JobResult`). A body that comes out has to be taken over (`TakenBody`), and a seat that comes out has to get a body (`OutgoingSeat`).
//! Whoever changes a berth gets the threads that wait there (`Waiters`), and wakes them at once or later (`Unwoken`). Each call of a
//! `Berth` takes the lock of its room once in each try, and takes no other lock.
#![tactic(auto)]

mod berth;
mod jobs;
mod locking;
mod room;
mod taken_body;
mod taken_job;
mod waiters;

pub use berth::{Berth, CameOut};
pub use locking::{Guarded, Laid};
pub use room::{
    BerthAct, BerthReceipt, BodyAct, BodyReceipt, Holder, JOBS, NotBack, Room, SeatReceipt,
    StopReceipt, ToldJob,
};
pub use taken_body::{BodyOwner, OutgoingSeat, TakenBody};
pub use taken_job::{JobResult, Recorder, TakenJob};
pub use waiters::{Unwoken, Waiters};
