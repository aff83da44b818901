//! Tasks in threads of their own.
ghost use Rattle.std.specs.Prelude.{◌≡◌, ◌≤◌, All, IfOk, vec_len, vec_capacity};
ghost use Rattle.workers.specs.Ended.{IsReport};

use crate::gate::Gate;
use crate::report::Report;
use crate::task::Task;
use bodies::Name;
use operations::job::HandshakeOp;
use script::Code;
use std::alloc::AllocError;
use std::snapshot::Snapshot;
use std::sync::Wait;
use std::thread;
use std::thread::{Promise, PromisedHandle, Scope, Threads};

/// The promise that a report is of a run of this code.
#[derive(Drop)]
pub struct Promised {
    code: Snapshot<Code>,
}

impl<N: Name> Promise<Report<N>> for Promised {
    ghost kept_by = { λ p r. IsReport p.code.value r };
}

/// No thread could be made.
#[derive(Clone, Copy, PartialEq, Eq, Debug, Drop)]
pub struct NoThread;

/// Starts a thread of the scope that finishes the task.
pub fn start<'s, 'a: 's, N: Name + Send, J: HandshakeOp + Send, R: Wait + Sync, G: Gate + Sync, E>(
    scope: &Scope<'s, E>,
    task: Task<'a, N, J, R, G>,
) -> Result<PromisedHandle<Report<N>, Promised>, NoThread>
    ensures { IfOk result (λ h. h.promise.code.value ≡ task.entry.code) }
{
    let promise = Promised {
        code: Snapshot::of(task.code()),
    };
    match scope.spawn_with(promise, move || task.finish()) {
        Ok(handle) => Ok(handle),
        Err(_) => Err(NoThread),
    }
}

/// The thread of a task, still to be joined.
pub type Started<N> = PromisedHandle<Report<N>, Promised>;

/// Starts a thread of the scope for each task. `room` has capacity for all threads.
pub fn start_all<
    's,
    'a: 's,
    N: Name + Send,
    J: HandshakeOp + Send,
    R: Wait + Sync,
    G: Gate + Sync,
    E,
>(
    scope: &Scope<'s, E>,
    code: &Code,
    tasks: Vec<Task<'a, N, J, R, G>>,
    room: Vec<Started<N>>,
) -> Result<Vec<Started<N>>, NoThread>
    requires tasks { All (λ t. t.code ≡ code.now) tasks.items }
    requires room { (vec_len room ≡ 0) × (vec_len tasks ≤ vec_capacity room) }
    ensures len { IfOk result (λ hs. vec_len hs ≡ vec_len tasks.entry) }
    ensures promised { IfOk result (λ hs. All (λ h. h.promise.code.value ≡ code.now) hs.items) }
{
    let mut handles = room;
    for task in tasks {
        handles.push_reserved(start(scope, task)?);
    }
    Ok(handles)
}

/// Waits for all threads. Fails only if memory is refused.
pub fn join_all<N: Name, R: Threads>(
    rt: &R,
    code: &Code,
    handles: Vec<Started<N>>,
) -> Result<Vec<Report<N>>, AllocError>
    requires { All (λ h. h.promise.code.value ≡ code.now) handles.items }
    ensures len { IfOk result (λ rs. vec_len rs ≡ vec_len handles) }
    ensures reports { IfOk result (λ rs. All (IsReport code.now) rs.items) }
{
    match thread::join_promised(rt, handles) {
        Ok(reports) => Ok(reports),
        Err(_) => Err(AllocError),
    }
}
