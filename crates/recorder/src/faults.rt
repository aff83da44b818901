//! The faults of calls as words of a log. A fault that the core doesn't have gets no word: the history is full, or memory was refused.
ghost use Rattle.std.specs.Prelude.{◌≡◌};
ghost use Rattle.recorder.specs.Faults as faults;

use call_log::word::Word;
use desk::{AskFault, CloseFault, CodeFault, OpenFault, ReclaimFault, StartFault};
use method_table::table::{InstallFault, InvalidateFault, RetireFault};
use stopped_threads::{HoldFault, OperateFault, ReleaseFault, ServeFault, TellFault};
use thread_list::{CallFault, ExitFault, ReturnFault};

pub fn call_fault(fault: CallFault) -> Word
    ensures { result ≡ faults.call_fault fault }
{
    match fault {
        CallFault::Illegal(_) => Word::Illegal,
        CallFault::NoSuchMethod => Word::NoSuchMethod,
        CallFault::DepthFull => Word::DepthFull,
    }
}

pub fn return_fault(fault: ReturnFault) -> Word
    ensures { result ≡ faults.return_fault fault }
{
    match fault {
        ReturnFault::Illegal(_) => Word::Illegal,
        ReturnFault::EmptyStack => Word::EmptyStack,
    }
}

pub fn exit_fault(fault: ExitFault) -> Word
    ensures { result ≡ faults.exit_fault fault }
{
    match fault {
        ExitFault::Illegal(_) => Word::Illegal,
        ExitFault::StackNotEmpty => Word::StackNotEmpty,
    }
}

pub fn start_fault(fault: StartFault) -> Option<Word>
    ensures { result ≡ faults.start_fault fault }
{
    match fault {
        StartFault::SafepointOpen => Some(Word::SafepointOpen),
        StartFault::PlacesFull => Some(Word::PlacesFull),
        StartFault::Spent => Some(Word::Spent),
        StartFault::HistoryFull => None,
        StartFault::NoMemory => None,
    }
}

pub fn ask_fault(fault: AskFault) -> Option<Word>
    ensures { result ≡ faults.ask_fault fault }
{
    match fault {
        AskFault::Spent => Some(Word::Spent),
        AskFault::QueueFull => Some(Word::QueueFull),
        AskFault::NoTargets => Some(Word::NoTargets),
        AskFault::BadTargets => Some(Word::BadTargets),
        AskFault::HistoryFull => None,
        AskFault::NoMemory => None,
    }
}

pub fn install_fault(fault: CodeFault) -> Option<Word>
    ensures { result ≡ faults.install_fault fault }
{
    match fault {
        CodeFault::Install(InstallFault::NoSuchMethod) => Some(Word::NoSuchMethod),
        CodeFault::Install(InstallFault::TableFull) => Some(Word::TableFull),
        CodeFault::Install(InstallFault::SerialsSpent) => Some(Word::SerialsSpent),
        CodeFault::Install(InstallFault::NoMemory) => None,
        CodeFault::HistoryFull => None,
        CodeFault::NoMemory => None,
    }
}

pub fn invalidate_fault(fault: InvalidateFault) -> Word
    ensures { result ≡ faults.invalidate_fault fault }
{
    match fault {
        InvalidateFault::Unknown => Word::Unknown,
        InvalidateFault::NotInUse => Word::NotInUse,
    }
}

pub fn open_fault(fault: OpenFault) -> Word
    ensures { result ≡ faults.open_fault fault }
{
    match fault {
        OpenFault::AlreadyOpen => Word::AlreadyOpen,
        OpenFault::QueueEmpty => Word::QueueEmpty,
    }
}

pub fn close_fault(fault: CloseFault) -> Word
    ensures { result ≡ faults.close_fault fault }
{
    match fault {
        CloseFault::NothingOpen => Word::NothingOpen,
        CloseFault::NotOf => Word::NotOf,
        CloseFault::Held => Word::Held,
        CloseFault::NotDone => Word::NotDone,
    }
}

pub fn tell_fault(fault: TellFault) -> Word
    ensures { result ≡ faults.tell_fault fault }
{
    match fault {
        TellFault::NothingOpen => Word::NothingOpen,
        TellFault::NotOf => Word::NotOf,
        TellFault::AlreadyTold => Word::AlreadyTold,
    }
}

pub fn hold_fault(fault: HoldFault) -> Word
    ensures { result ≡ faults.hold_fault fault }
{
    match fault {
        HoldFault::NoSuchPlace => Word::NoSuchPlace,
        HoldFault::Vacant => Word::Vacant,
        HoldFault::NothingOpen => Word::NothingOpen,
        HoldFault::NotOf => Word::NotOf,
        HoldFault::NotTold => Word::NotTold,
        HoldFault::AlreadyDone => Word::AlreadyDone,
        HoldFault::Held => Word::Held,
        HoldFault::NotSafe => Word::NotSafe,
    }
}

pub fn release_fault(fault: ReleaseFault) -> Word
    ensures { result ≡ faults.release_fault fault }
{
    match fault {
        ReleaseFault::NoSuchPlace => Word::NoSuchPlace,
        ReleaseFault::Vacant => Word::Vacant,
        ReleaseFault::NotHeld => Word::NotHeld,
    }
}

pub fn serve_fault(fault: ServeFault) -> Word
    ensures { result ≡ faults.serve_fault fault }
{
    match fault {
        ServeFault::NoSuchPlace => Word::NoSuchPlace,
        ServeFault::Vacant => Word::Vacant,
        ServeFault::NotHeld => Word::NotHeld,
        ServeFault::NothingOpen => Word::NothingOpen,
        ServeFault::NotOf => Word::NotOf,
        ServeFault::NotTold => Word::NotTold,
        ServeFault::AlreadyDone => Word::AlreadyDone,
    }
}

pub fn operate_fault(fault: OperateFault) -> Option<Word>
    ensures { result ≡ faults.operate_fault fault }
{
    match fault {
        OperateFault::NoMemory => None,
        OperateFault::Refused(desk::OperateFault::NothingOpen) => Some(Word::NothingOpen),
        OperateFault::Refused(desk::OperateFault::NotOf) => Some(Word::NotOf),
        OperateFault::Refused(desk::OperateFault::AlreadyDone) => Some(Word::AlreadyDone),
        OperateFault::Refused(desk::OperateFault::NotAllHeld) => Some(Word::NotAllHeld),
    }
}

pub fn reclaim_fault(fault: ReclaimFault) -> Option<Word>
    ensures { result ≡ faults.reclaim_fault fault }
{
    match fault {
        ReclaimFault::Code(RetireFault::Unknown) => Some(Word::Unknown),
        ReclaimFault::Code(RetireFault::NotNotEntrant) => Some(Word::NotNotEntrant),
        ReclaimFault::AlreadyOpen => Some(Word::AlreadyOpen),
        ReclaimFault::Spent => Some(Word::Spent),
        ReclaimFault::Ask(fault) => ask_fault(fault),
    }
}
