// The numbers that C gets.
ghost use Rattle.std.specs.Prelude.{◌≡◌, Ok};
ghost use Rattle.safepoint.specs.Codes.{code_of, fault_code};

use coordinator_core::{HoldFault, OperateFault, ReleaseFault, ServeFault, TellFault};
use desk::{AskFault, CloseFault, CodeFault, OpenFault, ReclaimFault, StartFault};
use method_table::table::{InstallFault, InvalidateFault, RetireFault};
use parties::acts::Fault;

pub(crate) const NO_MEMORY: i64 = -2;

pub(crate) const MADE: i64 = -40;

pub(crate) const BAD_SIZE: i64 = -41;

pub(crate) const BAD_ASK: i64 = -42;

fn start_code(fault: StartFault) -> i64
    ensures { result ≡ Rattle.safepoint.specs.Codes.start_code fault }
{
    match fault {
        StartFault::SafepointOpen => -9,
        StartFault::PlacesFull => -10,
        StartFault::Spent => -11,
        StartFault::HistoryFull => -12,
        StartFault::NoMemory => -2,
    }
}

fn ask_code(fault: AskFault) -> i64
    ensures { result ≡ Rattle.safepoint.specs.Codes.ask_code fault }
{
    match fault {
        AskFault::Spent => -11,
        AskFault::QueueFull => -13,
        AskFault::NoTargets => -14,
        AskFault::BadTargets => -15,
        AskFault::HistoryFull => -12,
        AskFault::NoMemory => -2,
    }
}

fn install_code(fault: InstallFault) -> i64
    ensures { result ≡ Rattle.safepoint.specs.Codes.install_code fault }
{
    match fault {
        InstallFault::NoSuchMethod => -5,
        InstallFault::TableFull => -28,
        InstallFault::SerialsSpent => -11,
        InstallFault::NoMemory => -2,
    }
}

fn invalidate_code(fault: InvalidateFault) -> i64
    ensures { result ≡ Rattle.safepoint.specs.Codes.invalidate_code fault }
{
    match fault {
        InvalidateFault::Unknown => -29,
        InvalidateFault::NotInUse => -30,
    }
}

fn retire_code(fault: RetireFault) -> i64
    ensures { result ≡ Rattle.safepoint.specs.Codes.retire_code fault }
{
    match fault {
        RetireFault::Unknown => -29,
        RetireFault::NotNotEntrant => -34,
    }
}

fn open_code(fault: OpenFault) -> i64
    ensures { result ≡ Rattle.safepoint.specs.Codes.open_code fault }
{
    match fault {
        OpenFault::AlreadyOpen => -16,
        OpenFault::QueueEmpty => -17,
    }
}

fn tell_code(fault: TellFault) -> i64
    ensures { result ≡ Rattle.safepoint.specs.Codes.tell_code fault }
{
    match fault {
        TellFault::NothingOpen => -18,
        TellFault::NotOf => -19,
        TellFault::AlreadyTold => -21,
    }
}

fn hold_code(fault: HoldFault) -> i64
    ensures { result ≡ Rattle.safepoint.specs.Codes.hold_code fault }
{
    match fault {
        HoldFault::NoSuchPlace => -26,
        HoldFault::Vacant => -25,
        HoldFault::NothingOpen => -18,
        HoldFault::NotOf => -19,
        HoldFault::NotTold => -20,
        HoldFault::AlreadyDone => -22,
        HoldFault::Held => -23,
        HoldFault::NotSafe => -31,
    }
}

fn serve_code(fault: ServeFault) -> i64
    ensures { result ≡ Rattle.safepoint.specs.Codes.serve_code fault }
{
    match fault {
        ServeFault::NoSuchPlace => -26,
        ServeFault::Vacant => -25,
        ServeFault::NotHeld => -24,
        ServeFault::NothingOpen => -18,
        ServeFault::NotOf => -19,
        ServeFault::NotTold => -20,
        ServeFault::AlreadyDone => -22,
    }
}

fn release_code(fault: ReleaseFault) -> i64
    ensures { result ≡ Rattle.safepoint.specs.Codes.release_code fault }
{
    match fault {
        ReleaseFault::NoSuchPlace => -26,
        ReleaseFault::Vacant => -25,
        ReleaseFault::NotHeld => -24,
    }
}

fn census_code(fault: desk::OperateFault) -> i64
    ensures { result ≡ Rattle.safepoint.specs.Codes.census_code fault }
{
    match fault {
        desk::OperateFault::NothingOpen => -18,
        desk::OperateFault::NotOf => -19,
        desk::OperateFault::AlreadyDone => -22,
        desk::OperateFault::NotAllHeld => -32,
    }
}

fn close_code(fault: CloseFault) -> i64
    ensures { result ≡ Rattle.safepoint.specs.Codes.close_code fault }
{
    match fault {
        CloseFault::NothingOpen => -18,
        CloseFault::NotOf => -19,
        CloseFault::Held => -23,
        CloseFault::NotDone => -27,
    }
}

fn install_refusal(fault: CodeFault) -> i64
    ensures { result ≡ Rattle.safepoint.specs.Codes.install_refusal fault }
{
    match fault {
        CodeFault::Install(fault) => install_code(fault),
        CodeFault::HistoryFull => -12,
        CodeFault::NoMemory => NO_MEMORY,
    }
}

fn reclaim_refusal(fault: ReclaimFault) -> i64
    ensures { result ≡ Rattle.safepoint.specs.Codes.reclaim_refusal fault }
{
    match fault {
        ReclaimFault::Code(fault) => retire_code(fault),
        ReclaimFault::AlreadyOpen => -16,
        ReclaimFault::Spent => -11,
        ReclaimFault::Ask(fault) => ask_code(fault),
    }
}

fn operate_refusal(fault: OperateFault) -> i64
    ensures { result ≡ Rattle.safepoint.specs.Codes.operate_refusal fault }
{
    match fault {
        OperateFault::Refused(fault) => census_code(fault),
        OperateFault::NoMemory => NO_MEMORY,
    }
}

fn fault_code(fault: Fault) -> i64
    ensures { result ≡ fault_code fault }
{
    match fault {
        Fault::Again => -1,
        Fault::NoMemory => NO_MEMORY,
        Fault::NotThis => -3,
        Fault::Illegal => -4,
        Fault::NoSuchMethod => -5,
        Fault::DepthFull => -6,
        Fault::EmptyStack => -7,
        Fault::StackNotEmpty => -8,
        Fault::NotAnswered => -33,
        Fault::NotWeighed => -35,
        Fault::Late(_) => -36,
        Fault::Runs => -37,
        Fault::Awaits => -38,
        Fault::AtSafepoint => -39,
        Fault::Pending => -43,
        Fault::Start(fault) => start_code(fault),
        Fault::Ask(fault) => ask_code(fault),
        Fault::Code(fault) => install_refusal(fault),
        Fault::Invalidate(fault) => invalidate_code(fault),
        Fault::Open(fault) => open_code(fault),
        Fault::Tell(fault) => tell_code(fault),
        Fault::Hold(fault) => hold_code(fault),
        Fault::Serve(fault) => serve_code(fault),
        Fault::Release(fault) => release_code(fault),
        Fault::Operate(fault) => operate_refusal(fault),
        Fault::Close(fault) => close_code(fault),
        Fault::Reclaim(fault) => reclaim_refusal(fault),
    }
}

const GREATEST: u64 = 0x7fff_ffff_ffff_ffff;

#[inline(always)]
fn number_code(n: u64) -> i64
    ensures { result ≡ code_of (Ok n) }
{
    if n > GREATEST { i64::MAX } else { n as i64 }
}

#[inline(always)]
pub(crate) fn code_of(said: Result<u64, Fault>) -> i64
    ensures { result ≡ code_of said }
{
    match said {
        Ok(n) => number_code(n),
        Err(fault) => fault_code(fault),
    }
}

// The reasons of a thread's most frequent calls come first, each with its number, so that such a call has only its own.
#[inline(always)]
fn fault_code_of_step(fault: Fault) -> i64
    ensures { result ≡ fault_code fault }
{
    match fault {
        Fault::Again => -1,
        Fault::NotThis => -3,
        Fault::Illegal => -4,
        Fault::NoSuchMethod => -5,
        Fault::DepthFull => -6,
        Fault::EmptyStack => -7,
        other => fault_code(other),
    }
}

/// Returns the code of a frequent call that doesn't poll.
#[inline(always)]
pub(crate) fn code_of_step(said: Result<u64, Fault>) -> i64
    ensures { result ≡ code_of said }
{
    match said {
        Ok(n) => number_code(n),
        Err(fault) => fault_code_of_step(fault),
    }
}

// A function of its own, since few polls stop.
#[cold]
#[inline(never)]
fn code_of_stop(n: u64) -> i64
    ensures { result ≡ code_of (Ok n) }
{
    number_code(n)
}

/// Returns the code of a call that polls. Mostly the thread continues.
#[inline(always)]
pub(crate) fn code_of_poll(said: Result<u64, Fault>) -> i64
    ensures { result ≡ code_of said }
{
    match said {
        Ok(0) => 0,
        Ok(n) => code_of_stop(n),
        Err(fault) => fault_code_of_step(fault),
    }
}
