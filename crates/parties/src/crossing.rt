//! The steps of a thread that take a lock. Each tries one: its room's or the desk's.
ghost use Rattle.std.specs.Prelude.{◌≡◌, ◌≢◌, ◌<◌, true, Ok, Err, IfOk, IfErr, IfSome};
ghost use Rattle.desk.specs.declared.entries.Entry.{Entry};
ghost use Rattle.thread_list.specs.Moves.{SameThread};
ghost use Rattle.parties.specs.Asked.{IsEntry, IsStart};
ghost use Rattle.parties.specs.Acted.{number_of, StartFails, IntoNative, OutOfNative, Blocks, Unblocks, Next, Serves, IsEnded, Started, GivesUp, StaysOn};

use crate::acts::Fault;
use crate::system::SharedSystem;
use berths::BodyReceipt;
use bodies::Name;
use desk::{Finished, Receipt};
use thread_list::{Entered, ExitFault, Poll, RunningThread, VacateFault};

/// The result of a poll, as a number.
#[inline(always)]
pub(crate) fn number_of(poll: Poll) -> u64
    ensures { result ≡ number_of poll }
{
    match poll {
        Poll::Go => 0,
        Poll::Stop(n) => n,
    }
}

#[inline(always)]
pub(crate) fn to_native<'s, 'r, N: Name>(
    system: &'s SharedSystem<N>,
    runner: &'r mut RunningThread<N>,
) -> Result<u64, Fault>
    ensures said { IntoNative runner.old result runner.new }
    ensures same { SameThread runner.old runner.new }
{
    let Some(mut room) = system.try_room(runner.place()) else {
        return Err(Fault::Again);
    };
    match runner.to_native(&mut *room.value) {
        Ok(true) => Ok(0),
        Ok(false) => Err(Fault::Again),
        Err(_state) => Err(Fault::Illegal),
    }
}

#[inline(always)]
pub(crate) fn from_native<'s, 'r, N: Name>(
    system: &'s SharedSystem<N>,
    runner: &'r mut RunningThread<N>,
) -> Result<u64, Fault>
    ensures said { OutOfNative runner.old result runner.new }
    ensures same { SameThread runner.old runner.new }
{
    let Some(mut room) = system.try_room(runner.place()) else {
        return Err(Fault::Again);
    };
    match runner.from_native(&mut *room.value, system.row()) {
        Ok(Some(Poll::Go)) => Ok(0),
        Ok(Some(Poll::Stop(n))) => Ok(n),
        Ok(None) => Err(Fault::Again),
        Err(_state) => Err(Fault::Illegal),
    }
}

pub(crate) fn block<'s, 'r, N: Name>(
    system: &'s SharedSystem<N>,
    runner: &'r mut RunningThread<N>,
) -> Result<u64, Fault>
    ensures said { Blocks runner.old result runner.new }
    ensures same { SameThread runner.old runner.new }
{
    let Some(mut room) = system.try_room(runner.place()) else {
        return Err(Fault::Again);
    };
    match runner.block(&mut *room.value) {
        Ok(true) => Ok(0),
        Ok(false) => Err(Fault::Again),
        Err(_state) => Err(Fault::Illegal),
    }
}

pub(crate) fn unblock<'s, 'r, N: Name>(
    system: &'s SharedSystem<N>,
    runner: &'r mut RunningThread<N>,
) -> Result<u64, Fault>
    ensures said { Unblocks runner.old result runner.new }
    ensures same { SameThread runner.old runner.new }
{
    let Some(mut room) = system.try_room(runner.place()) else {
        return Err(Fault::Again);
    };
    match runner.unblock(&mut *room.value, system.row()) {
        Ok(Some(poll)) => Ok(number_of(poll)),
        Ok(None) => Err(Fault::Again),
        Err(_state) => Err(Fault::Illegal),
    }
}

pub(crate) fn stop_next<'s, 'r, N: Name>(
    system: &'s SharedSystem<N>,
    runner: &'r mut RunningThread<N>,
) -> Result<u64, Fault>
    ensures said { Next N runner.old result runner.new }
    ensures same { SameThread runner.old runner.new }
{
    let Some(mut room) = system.try_room(runner.place()) else {
        return Err(Fault::Again);
    };
    match runner.stop_next(&mut *room.value, system.board(), system.row()) {
        Ok(Some(number)) => Ok(number),
        Ok(None) => Err(Fault::Again),
        Err(_state) => Err(Fault::Illegal),
    }
}

pub(crate) fn stop_serve<'s, 'r, N: Name>(
    system: &'s SharedSystem<N>,
    runner: &'r mut RunningThread<N>,
) -> Result<(u64, Finished<N>), Fault>
    ensures ended { IfOk result (λ r. IsEnded runner.old r.0 r.1 runner.new) }
    ensures refused { IfErr result (λ e. Serves runner.old (Err e) runner.new) }
    ensures same { SameThread runner.old runner.new }
{
    let Some(mut desk) = system.try_desk() else {
        return Err(Fault::Again);
    };
    match runner.stop_serve(&mut *desk.value, system.row()) {
        Ok(Some((poll, finished))) => Ok((number_of(poll), finished)),
        Ok(None) => Err(Fault::Again),
        Err(_state) => Err(Fault::Illegal),
    }
}

/// Enters a Start. Returns the name and the place of the thread.
pub(crate) fn enter_start<N: Name>(
    system: &SharedSystem<N>,
    has_image: bool,
) -> Result<(u64, usize, Receipt<N>), Fault>
    ensures named { IfOk result (λ r. (0 < r.0) × (r.1 < N.board.places) × (has_image ≡ true)) }
    ensures entered { IfOk result (λ r. IsStart r.0 r.1 r.2) }
    ensures refused { IfErr result (StartFails N.board.places) }
{
    let Some(mut desk) = system.try_desk() else {
        return Err(Fault::Again);
    };
    desk.value.history_is_legal();
    match desk.value.start(has_image) {
        Ok((name, place, receipt)) => Ok((name, place, receipt)),
        Err(fault) => Err(Fault::Start(fault)),
    }
}

pub(crate) fn move_in<N: Name>(
    system: &SharedSystem<N>,
    entered: Entered<N>,
) -> Result<RunningThread<N>, Entered<N>>
    ensures started { IfOk result (Started entered (Ok entered.name)) }
    ensures handed_back { IfErr result (λ e. e ≡ entered) }
{
    let Some(mut room) = system.try_room(entered.place()) else {
        return Err(entered);
    };
    entered.move_in(&mut *room.value, system.board(), system.row())
}

/// Gives up the thread's place. Otherwise returns the result of the exit, and the thread.
pub(crate) fn vacate<N: Name>(
    system: &SharedSystem<N>,
    runner: RunningThread<N>,
) -> Result<BodyReceipt<N>, (Result<u64, Fault>, RunningThread<N>)>
    ensures vacated { IfOk result (GivesUp runner) }
    ensures refused { IfErr result (λ e. StaysOn runner e.0 e.1) }
{
    let Some(mut room) = system.try_room(runner.place()) else {
        return Err((Err(Fault::Again), runner));
    };
    match runner.vacate(&mut *room.value, system.board(), system.row()) {
        Ok(vacated) => Ok(vacated),
        Err((fault, runner)) => {
            let said = match fault {
                VacateFault::Refused(ExitFault::Illegal(_)) => Err(Fault::Illegal),
                VacateFault::Refused(ExitFault::StackNotEmpty) => Err(Fault::StackNotEmpty),
                VacateFault::Told(Poll::Go) => Err(Fault::Again),
                VacateFault::Told(Poll::Stop(n)) => Ok(n),
            };
            Err((said, runner))
        }
    }
}

/// Enters the Exit of the name. None if the desk doesn't enter it.
pub(crate) fn enter_exit<N: Name>(system: &SharedSystem<N>, name: u64) -> Option<Receipt<N>>
    ensures { IfSome result (IsEntry (Entry.Exit name)) }
{
    let mut desk = system.try_desk()?;
    desk.value.history_is_legal();
    match desk.value.exit(name) {
        Ok(receipt) => Some(receipt),
        Err(_) => None,
    }
}
