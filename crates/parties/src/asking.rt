//! The calls of any party at the desk, under the desk's lock.
ghost use Rattle.std.specs.Prelude.{◌≡◌, true, Err, IfOk, IfErr, IfSome};
ghost use Rattle.desk.specs.declared.entries.Entry.{Entry};
ghost use Rattle.desk.specs.Fields.{at};
ghost use Rattle.desk.specs.JobsFit.{are_for, jobs_fit};
ghost use Rattle.desk.specs.Targets.{live_after, open_kind};
ghost use Rattle.operations.specs.declared.Request.{Request as RequestOf};
ghost use Rattle.parties.specs.Asked.{request_for, reclaiming_for, targets_at, targets_behind, number_in, kind_number, pending_number, IsAsk, IsEntry, IsInstall, IsBegun, Submits, Installs, Invalidates, Begins, ReplyAt, FindsReply, FindsNext, FindsKind, FindsPending, Forgets};
ghost use Rattle.parties.specs.Pairs.{or_zero};

use crate::acts::Fault;
use crate::next_targets::NextTargets;
use crate::pairs::first_of;
use crate::system::SharedSystem;
use bodies::Name;
use desk::{AskFault, Desk, NotReclaimed, Receipt, ReclaimFault, Refused};
use operations::job::{HandshakeOp, Query};
use operations::{Ask, Kind, Request, Targets};
use std::alloc::{AllocError, Global};

// One job for each name.
fn queries(alloc: Global, names: &[u64], ask: Ask) -> Result<Vec<Query>, AllocError>
    ensures { IfOk result
        (λ v. are_for ⟦<Query as HandshakeOp>⟧.whom ⟦<Query as HandshakeOp>⟧.asks names.now ask v.items
        ≡ true) }
{
    let mut jobs = Vec::with_capacity(alloc, names.len())?;
    let mut rest = names;
    while let [name, others @ ..] = rest {
        jobs.push(Query::new(*name, ask)).map_err(|_| AllocError)?;
        rest = others;
    }
    Ok(jobs)
}

// A handshake of the names with the ask, and a job for each name. Without an ask, a census.
fn request_for(
    alloc: Global,
    names: Vec<u64>,
    ask: Option<Ask>,
) -> Result<(Request, Vec<Query>), AllocError>
    ensures request { IfOk result (λ r. r.0 ≡ request_for ask names.items) }
    ensures jobs { IfOk result
        (λ r. jobs_fit ⟦<Query as HandshakeOp>⟧.whom ⟦<Query as HandshakeOp>⟧.asks
        (request_for ask names.items) r.1.items ≡ true) }
{
    let Some(ask) = ask else {
        return Ok((Request::Census, Vec::new(alloc)));
    };
    let jobs = queries(alloc, names.as_slice(), ask)?;
    let targets = Targets::from_vec(names);
    Ok((Request::Handshake { targets, ask }, jobs))
}

// The handshake of reclaiming, if there are names.
fn reclaiming_for(
    alloc: Global,
    names: Vec<u64>,
    serial: u64,
) -> Result<(Option<Request>, Vec<Query>), AllocError>
    ensures request { IfOk result (λ r. r.0 ≡ reclaiming_for serial names.items) }
    ensures jobs { IfOk result
        (λ r. (asked : RequestOf) → r.0 ≡ Some asked
        → jobs_fit ⟦<Query as HandshakeOp>⟧.whom ⟦<Query as HandshakeOp>⟧.asks asked r.1.items ≡ true) }
{
    if names.is_empty() {
        return Ok((None, Vec::new(alloc)));
    }
    let (request, jobs) = request_for(alloc, names, Some(Ask::CountOf(serial)))?;
    Ok((Some(request), jobs))
}

// Drops the targets of a refused request, unless memory was refused.
fn forget_targets(targets: &mut NextTargets, fault: AskFault)
    ensures { targets.new ≡ targets_behind (Err (Fault.Ask fault)) targets.old }
{
    match fault {
        AskFault::NoMemory => {}
        AskFault::Spent
        | AskFault::QueueFull
        | AskFault::NoTargets
        | AskFault::BadTargets
        | AskFault::HistoryFull => targets.clear(),
    }
}

fn forget_targets_of(targets: &mut NextTargets, fault: ReclaimFault)
    ensures { targets.new ≡ targets_behind (Err (Fault.Reclaim fault)) targets.old }
{
    match fault {
        ReclaimFault::Ask(fault) => forget_targets(targets, fault),
        ReclaimFault::Code(_) | ReclaimFault::AlreadyOpen | ReclaimFault::Spent => targets.clear(),
    }
}

/// Queues a request: a handshake of the targets with the ask, or a census. Returns its number. The targets are dropped,
/// unless the call is to be tried again or memory was refused.
pub(crate) fn submit<'s, 'n, N: Name>(
    system: &'s SharedSystem<N>,
    alloc: Global,
    targets: &'n mut NextTargets,
    ask: Option<Ask>,
) -> Result<(u64, Receipt<N>), Fault>
    ensures entered { IfOk result
        (λ r. IsAsk ask targets.old r.0 r.1) }
    ensures refused { IfErr result (λ e. Submits ask targets.old (Err e)) }
    ensures targets { targets.new ≡ targets_behind (number_in result) targets.old }
{
    let Some(mut desk) = system.try_desk() else {
        return Err(Fault::Again);
    };
    desk.value.history_is_legal();
    let Ok(names) = targets.at(&*desk.value, alloc) else {
        return Err(Fault::NoMemory);
    };
    let Ok((request, jobs)) = request_for(alloc, names, ask) else {
        return Err(Fault::NoMemory);
    };
    match desk.value.submit(request, jobs) {
        Ok((number, receipt)) => {
            targets.clear();
            Ok((number, receipt))
        }
        Err(refused) => {
            let Refused { fault, jobs: _ } = refused;
            forget_targets(targets, fault);
            Err(Fault::Ask(fault))
        }
    }
}

/// Does the first step of reclaiming a code: makes a round and, if there are targets, queues a handshake that asks for
/// the code's frames. Returns the handshake's number, 0 without one. The targets are dropped as in `submit`.
pub(crate) fn reclaim<'s, 'n, N: Name>(
    system: &'s SharedSystem<N>,
    alloc: Global,
    targets: &'n mut NextTargets,
    serial: u64,
) -> Result<(u64, Option<Receipt<N>>), Fault>
    ensures begun { IfOk result (λ r. IsBegun serial targets.old r.0 r.1) }
    ensures refused { IfErr result (λ e. Begins serial targets.old (Err e)) }
    ensures targets { targets.new ≡ targets_behind (number_in result) targets.old }
{
    let Some(mut desk) = system.try_desk() else {
        return Err(Fault::Again);
    };
    desk.value.history_is_legal();
    let Ok(names) = targets.at(&*desk.value, alloc) else {
        return Err(Fault::NoMemory);
    };
    let Ok((request, jobs)) = reclaiming_for(alloc, names, serial) else {
        return Err(Fault::NoMemory);
    };
    match desk
        .value
        .begin_reclaim(system.board(), serial, request, jobs)
    {
        Ok(asked) => {
            targets.clear();
            match asked {
                Some((number, receipt)) => Ok((number, Some(receipt))),
                None => Ok((0, None)),
            }
        }
        Err(refused) => {
            let NotReclaimed { fault, jobs: _ } = refused;
            forget_targets_of(targets, fault);
            Err(Fault::Reclaim(fault))
        }
    }
}

/// Installs a code for the method. Returns its serial.
pub(crate) fn install<N: Name>(
    system: &SharedSystem<N>,
    method: u32,
) -> Result<(u64, Receipt<N>), Fault>
    ensures installed { IfOk result (λ r. IsInstall method r.0 r.1) }
    ensures refused { IfErr result (λ e. Installs method (Err e)) }
{
    let Some(mut desk) = system.try_desk() else {
        return Err(Fault::Again);
    };
    desk.value.history_is_legal();
    match desk.value.install(system.board(), method as u64) {
        Ok((installed, receipt)) => {
            system.set_hint(method, installed.code);
            Ok((installed.code.serial, receipt))
        }
        Err(fault) => Err(Fault::Code(fault)),
    }
}

/// Makes the code of the serial not entrant.
pub(crate) fn invalidate<N: Name>(
    system: &SharedSystem<N>,
    serial: u64,
) -> Result<Receipt<N>, Fault>
    ensures entered { IfOk result (λ r. IsEntry (Entry.Invalidate serial) r) }
    ensures refused { IfErr result (λ e. Invalidates serial (Err e)) }
{
    let Some(mut desk) = system.try_desk() else {
        return Err(Fault::Again);
    };
    desk.value.history_is_legal();
    match desk.value.invalidate(system.board(), serial) {
        Ok(receipt) => Ok(receipt),
        Err(fault) => Err(Fault::Invalidate(fault)),
    }
}

// The name's reply in the operation, if the desk stores it.
fn reply_at<N: Name>(desk: &Desk<N, Query>, op: u64, name: u64) -> Result<u64, Fault>
    ensures { ReplyAt desk.now op name result }
{
    let Ok(list) = desk.replies(op) else {
        return Err(Fault::NoMemory);
    };
    match first_of(list.as_slice(), name) {
        Some(reply) => Ok(reply),
        None if op >= desk.least_pending() => Err(Fault::Pending),
        None => Err(Fault::NotAnswered),
    }
}

pub(crate) fn reply<N: Name>(system: &SharedSystem<N>, op: u64, name: u64) -> Result<u64, Fault>
    ensures { FindsReply op name result }
{
    let Some(desk) = system.try_desk() else {
        return Err(Fault::Again);
    };
    desk.value.history_is_legal();
    reply_at(&*desk.value, op, name)
}

// The least live name above this one at the desk, 0 for none.
fn next_at<N: Name>(desk: &Desk<N, Query>, name: u64) -> u64
    ensures { result ≡ or_zero (live_after name (at desk.now).live) }
{
    match desk.live_after(name) {
        Some(next) => next,
        None => 0,
    }
}

pub(crate) fn live_after<N: Name>(system: &SharedSystem<N>, name: u64) -> Result<u64, Fault>
    ensures { FindsNext name result }
{
    let Some(desk) = system.try_desk() else {
        return Err(Fault::Again);
    };
    desk.value.history_is_legal();
    Ok(next_at(&*desk.value, name))
}

// The kind of the open requests at the desk, as a number, 0 without any.
fn kind_at<N: Name>(desk: &Desk<N, Query>) -> u64
    ensures { result ≡ kind_number (open_kind (at desk.now)) }
{
    match desk.open_kind() {
        None => 0,
        Some(Kind::Handshake) => 1,
        Some(Kind::Census) => 2,
    }
}

pub(crate) fn open_kind<N: Name>(system: &SharedSystem<N>) -> Result<u64, Fault>
    ensures { FindsKind result }
{
    let Some(desk) = system.try_desk() else {
        return Err(Fault::Again);
    };
    desk.value.history_is_legal();
    Ok(kind_at(&*desk.value))
}

// The least number of an open or waiting request at the desk, 0 without one.
fn pending_at<N: Name>(desk: &Desk<N, Query>) -> u64
    ensures { result ≡ pending_number (at desk.now) }
{
    if desk.is_idle() {
        0
    } else {
        desk.least_pending()
    }
}

pub(crate) fn pending<N: Name>(system: &SharedSystem<N>) -> Result<u64, Fault>
    ensures { FindsPending result }
{
    let Some(desk) = system.try_desk() else {
        return Err(Fault::Again);
    };
    desk.value.history_is_legal();
    Ok(pending_at(&*desk.value))
}

pub(crate) fn forget<N: Name>(system: &SharedSystem<N>) -> Result<u64, Fault>
    ensures { Forgets result }
{
    let Some(mut desk) = system.try_desk() else {
        return Err(Fault::Again);
    };
    desk.value.history_is_legal();
    desk.value.forget();
    Ok(0)
}
