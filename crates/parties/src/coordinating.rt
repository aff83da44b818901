//! The steps of the coordinator. Each tries the desk's lock and, after it, the lock of one room if it needs the room.
//! It returns the receipt of what it did.
ghost use Rattle.std.specs.Prelude.{◌≡◌, Ok, Err, IfOk, IfErr, OnErr, IfSome, IfNone};
ghost use Rattle.desk.specs.declared.entries.Entry.{Entry};
ghost use Rattle.coordinator_core.specs.Done as done;
ghost use Rattle.parties.specs.Asked.{IsEntry};
ghost use Rattle.parties.specs.Coordinated.{Opens, Tells, Arms, IsGone, KeepsHand, Holds, IsHold, Serves, IsServed, Releases, Operates, IsOperate, SameCounts, Closes, IsClose, Weighs, IsWeighed};

use crate::acts::Fault;
use crate::system::SharedSystem;
use berths::{BerthReceipt, BodyReceipt};
use bodies::Name;
use coordinator_core::{
    CoordinatorCore, HoldFault, Reclaimed, ReleaseFault, ServeFault, weigh as weigh_code,
};
use desk::{Closing, Finished, Operating, Receipt};
use operations::job::{HandshakeOp, Query};
use std::alloc::Global;

/// Opens the oldest waiting request. Returns its number.
pub(crate) fn open<N: Name>(system: &SharedSystem<N>) -> Result<(u64, Receipt<N>), Fault>
    ensures entered { IfOk result (λ r. IsEntry (Entry.Open r.0) r.1) }
    ensures refused { IfErr result (λ e. Opens (Err e)) }
{
    let Some(mut desk) = system.try_desk() else {
        return Err(Fault::Again);
    };
    desk.value.history_is_legal();
    match desk.value.open() {
        Ok((number, receipt)) => Ok((number, receipt)),
        Err(fault) => Err(Fault::Open(fault)),
    }
}

/// Arms the named thread for its oldest pending request. Returns the number with which its place is armed, or None if
/// the name is gone.
pub(crate) fn tell<'s, 'c, 'h, N: Name>(
    system: &'s SharedSystem<N>,
    keeps: &'c mut CoordinatorCore<N>,
    name: u64,
    hand: &'h mut Option<Query>,
) -> Result<Option<(u64, BerthReceipt<N>)>, Fault>
    ensures told { IfOk result (λ o. IfSome o (λ r. Arms name keeps.old r.0 r.1 keeps.new)) }
    ensures gone { IfOk result (λ o. IfNone o (IsGone name keeps.old keeps.new)) }
    ensures refused { IfErr result (λ e. Tells name keeps.old (Err e) keeps.new) }
    ensures hand { IfOk result
        (λ o. IfSome o
        (λ r. KeepsHand ⟦<Query as HandshakeOp>⟧.number ⟦<Query as HandshakeOp>⟧.whom name (Ok r.0) hand.old
        hand.new)) }
    ensures hand_stays { IfOk result (λ o. IfNone o (hand.new ≡ hand.old)) }

    ensures hand_kept { IfErr result
        (λ e. KeepsHand ⟦<Query as HandshakeOp>⟧.number ⟦<Query as HandshakeOp>⟧.whom name (Err e) hand.old
        hand.new) }
{
    let Some(mut desk) = system.try_desk() else {
        return Err(Fault::Again);
    };
    desk.value.history_is_legal();
    let untold = match keeps.look_up(&*desk.value, name) {
        Ok(Some(untold)) => untold,
        Ok(None) => return Err(Fault::Again),
        Err(Ok(_gone)) => return Ok(None),
        Err(Err(fault)) => return Err(Fault::Tell(fault)),
    };
    let Some(mut room) = system.try_room(untold.target.place) else {
        return Err(Fault::Again);
    };
    match keeps.put(
        &mut *desk.value,
        &mut *room.value,
        system.row(),
        &untold,
        hand,
    ) {
        Some(receipt) => Ok(Some((untold.number, receipt))),
        None => Err(Fault::Again),
    }
}

/// Holds the thread of a place. Returns the number of the oldest operation that the thread owes.
pub(crate) fn hold<'s, 'c, N: Name>(
    system: &'s SharedSystem<N>,
    keeps: &'c mut CoordinatorCore<N>,
    place: usize,
) -> Result<(u64, BodyReceipt<N>), Fault>
    ensures held { IfOk result (λ r. IsHold place keeps.old r.0 r.1 keeps.new) }
    ensures refused { IfErr result (λ e. Holds N.board.places place keeps.old (Err e) keeps.new) }
{
    if place >= system.places() {
        return Err(Fault::Hold(HoldFault::NoSuchPlace));
    }
    let Some(desk) = system.try_desk() else {
        return Err(Fault::Again);
    };
    desk.value.history_is_legal();
    let Some(mut room) = system.try_room(place) else {
        return Err(Fault::Again);
    };
    match keeps.hold(&*desk.value, &mut *room.value, place) {
        Ok((number, receipt)) => Ok((number, receipt)),
        Err(fault) => Err(Fault::Hold(fault)),
    }
}

/// Serves the held thread of a place. Returns the number of the operation.
pub(crate) fn serve<'s, 'c, N: Name>(
    system: &'s SharedSystem<N>,
    keeps: &'c mut CoordinatorCore<N>,
    place: usize,
) -> Result<(u64, Finished<N>), Fault>
    ensures served { IfOk result (λ r. IsServed place keeps.old r.0 r.1 keeps.new) }
    ensures refused { IfErr result (λ e. Serves N.board.places place keeps.old (Err e) keeps.new) }
{
    if place >= system.places() {
        return Err(Fault::Serve(ServeFault::NoSuchPlace));
    }
    let Some(mut desk) = system.try_desk() else {
        return Err(Fault::Again);
    };
    desk.value.history_is_legal();
    let Some(mut room) = system.try_room(place) else {
        return Err(Fault::Again);
    };
    match keeps.serve(
        &mut *desk.value,
        &mut *room.value,
        system.board(),
        system.row(),
        place,
    ) {
        Ok(Ok((number, finished))) => Ok((number, finished)),
        Ok(Err(_)) => Err(Fault::Again),
        Err(fault) => Err(Fault::Serve(fault)),
    }
}

/// Releases the held thread of a place.
pub(crate) fn release<'s, 'c, N: Name>(
    system: &'s SharedSystem<N>,
    keeps: &'c mut CoordinatorCore<N>,
    place: usize,
) -> Result<BodyReceipt<N>, Fault>
    ensures released { IfOk result (λ r. done.Releases keeps.old keeps.new place r) }
    ensures refused { IfErr result
        (λ e. Releases N.board.places place keeps.old (Err e) keeps.new) }
{
    if place >= system.places() {
        return Err(Fault::Release(ReleaseFault::NoSuchPlace));
    }
    let Some(mut room) = system.try_room(place) else {
        return Err(Fault::Again);
    };
    match keeps.release_held(&mut *room.value, place) {
        Some(Some(receipt)) => Ok(receipt),
        Some(None) => Err(Fault::Again),
        None => {
            let Some(desk) = system.try_desk() else {
                return Err(Fault::Again);
            };
            desk.value.history_is_legal();
            Err(Fault::Release(keeps.unheld(&*desk.value, place)))
        }
    }
}

/// Operates the open census over the held threads. Returns its number. Its counts replace the list.
pub(crate) fn operate<'s, 'c, 'l, N: Name>(
    system: &'s SharedSystem<N>,
    keeps: &'c mut CoordinatorCore<N>,
    alloc: Global,
    counts: &'l mut Vec<(u64, u32)>,
) -> Result<(u64, Operating<N>), Fault>
    ensures operated { IfOk result
        (λ r. IsOperate keeps.old r.0 r.1.stands counts.new.items keeps.new) }
    ensures shown { IfOk result (λ r. r.1.list ≡ counts.new.items) }
    ensures refused { IfErr result (λ e. Operates keeps.old (Err e) counts.new.items keeps.new) }
    ensures same { OnErr result (keeps.new ≡ keeps.old) }
    ensures counts { SameCounts result counts.old.items counts.new.items }
{
    let Some(mut desk) = system.try_desk() else {
        return Err(Fault::Again);
    };
    desk.value.history_is_legal();
    match keeps.operate(&mut *desk.value, system.board(), system.row(), alloc) {
        Ok((number, list, receipt)) => {
            *counts = list;
            Ok((number, receipt))
        }
        Err(fault) => Err(Fault::Operate(fault)),
    }
}

/// Closes the open request of the number or, without one, the oldest. Returns its number.
pub(crate) fn close<'s, 'c, N: Name>(
    system: &'s SharedSystem<N>,
    keeps: &'c mut CoordinatorCore<N>,
    number: Option<u64>,
) -> Result<(u64, Closing<N>), Fault>
    ensures closed { IfOk result (λ r. IsClose number keeps.old r.0 r.1.stands keeps.new) }
    ensures refused { IfErr result (λ e. Closes number keeps.old (Err e) keeps.new) }
{
    let Some(mut desk) = system.try_desk() else {
        return Err(Fault::Again);
    };
    desk.value.history_is_legal();
    match keeps.close(&mut *desk.value, number) {
        Ok((number, receipt)) => Ok((number, receipt)),
        Err(fault) => Err(Fault::Close(fault)),
    }
}

/// Weighs a code, and frees it if it has no activation.
pub(crate) fn weigh<N: Name>(system: &SharedSystem<N>, serial: u64) -> Result<Reclaimed<N>, Fault>
    ensures weighed { IfOk result (IsWeighed N.board.places serial) }
    ensures refused { IfErr result (λ e. Weighs N N.board.places serial (Err e)) }
{
    let Some(mut desk) = system.try_desk() else {
        return Err(Fault::Again);
    };
    desk.value.history_is_legal();
    if let Some(_why) = desk.value.weigh_fault(serial) {
        return Err(Fault::NotWeighed);
    }
    match weigh_code(&mut *desk.value, system.board(), serial, system.places()) {
        Some(reclaimed) => Ok(reclaimed),
        None => Err(Fault::Again),
    }
}
