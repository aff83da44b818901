//! Translates the faults of the running layer into refusals of the core, or into a `Said` where a fault may be another answer.
use coordinator::{
    DriveFault, HoldFault, OperateFault, ReclaimFault, ReleaseFault, ServeFault, TellFault,
};
use desk::{AskFault, CloseFault, CodeFault, OpenFault, StartFault};
use differential_schedule::said::Said;
use method_table::table::{FreeFault, InstallFault, InvalidateFault, RetireFault};
use system::answers::Refusal;
use thread_list::{CallFault, ExitFault, ReturnFault};
use thread_state::State;

pub fn of_start(fault: StartFault) -> Said {
    Said::Refused(match fault {
        StartFault::SafepointOpen => Refusal::SafepointOpen,
        StartFault::PlacesFull => Refusal::PlacesFull,
        StartFault::Spent => Refusal::Spent,
        StartFault::HistoryFull => return Said::HistoryFull,
        StartFault::NoMemory => return Said::NoMemory,
    })
}

pub fn of_code(fault: CodeFault) -> Said {
    Said::Refused(match fault {
        CodeFault::Install(InstallFault::NoSuchMethod) => Refusal::NoSuchMethod,
        CodeFault::Install(InstallFault::TableFull) => Refusal::TableFull,
        CodeFault::Install(InstallFault::SerialsSpent) => Refusal::SerialsSpent,
        CodeFault::HistoryFull => return Said::HistoryFull,
        CodeFault::Install(InstallFault::NoMemory) | CodeFault::NoMemory => return Said::NoMemory,
    })
}

pub fn of_ask(fault: AskFault) -> Said {
    Said::Refused(match fault {
        AskFault::Spent => Refusal::Spent,
        AskFault::QueueFull => Refusal::QueueFull,
        AskFault::NoTargets => Refusal::NoTargets,
        AskFault::BadTargets => Refusal::BadTargets,
        AskFault::HistoryFull => return Said::HistoryFull,
        AskFault::NoMemory => return Said::NoMemory,
    })
}

pub fn of_reclaim(fault: ReclaimFault) -> Said {
    match fault {
        ReclaimFault::Code(fault) => Said::Refused(of_retire(fault)),
        ReclaimFault::AlreadyOpen => Said::Refused(Refusal::AlreadyOpen),
        ReclaimFault::Spent => Said::Refused(Refusal::Spent),
        ReclaimFault::Ask(fault) => of_ask(fault),
    }
}

pub fn of_operate(fault: OperateFault) -> Said {
    match fault {
        OperateFault::Refused(fault) => Said::Refused(of_census(fault)),
        OperateFault::NoMemory => Said::NoMemory,
    }
}

pub fn of_drive(fault: DriveFault) -> Said {
    match fault {
        DriveFault::QueueEmpty => Said::Refused(Refusal::QueueEmpty),
        DriveFault::NoMemory => Said::NoMemory,
    }
}

pub fn of_call(fault: CallFault) -> Refusal {
    match fault {
        CallFault::Illegal(state) => Refusal::Illegal(state),
        CallFault::NoSuchMethod => Refusal::NoSuchMethod,
        CallFault::DepthFull => Refusal::DepthFull,
    }
}

pub fn of_return(fault: ReturnFault) -> Refusal {
    match fault {
        ReturnFault::Illegal(state) => Refusal::Illegal(state),
        ReturnFault::EmptyStack => Refusal::EmptyStack,
    }
}

pub fn of_exit(fault: ExitFault) -> Refusal {
    match fault {
        ExitFault::Illegal(state) => Refusal::Illegal(state),
        ExitFault::StackNotEmpty => Refusal::StackNotEmpty,
    }
}

pub fn of_invalidate(fault: InvalidateFault) -> Refusal {
    match fault {
        InvalidateFault::Unknown => Refusal::Unknown,
        InvalidateFault::NotInUse => Refusal::NotInUse,
    }
}

pub fn of_retire(fault: RetireFault) -> Refusal {
    match fault {
        RetireFault::Unknown => Refusal::Unknown,
        RetireFault::NotNotEntrant => Refusal::NotNotEntrant,
    }
}

pub fn of_free(fault: FreeFault) -> Refusal {
    match fault {
        FreeFault::Unknown => Refusal::Unknown,
        FreeFault::NotZombie => Refusal::NotZombie,
    }
}

pub fn of_open(fault: OpenFault) -> Refusal {
    match fault {
        OpenFault::AlreadyOpen => Refusal::AlreadyOpen,
        OpenFault::QueueEmpty => Refusal::QueueEmpty,
    }
}

pub fn of_close(fault: CloseFault) -> Refusal {
    match fault {
        CloseFault::NothingOpen => Refusal::NothingOpen,
        CloseFault::NotOf => Refusal::NotOf,
        CloseFault::Held => Refusal::Held,
        CloseFault::NotDone => Refusal::NotDone,
    }
}

pub fn of_tell(fault: TellFault) -> Refusal {
    match fault {
        TellFault::NothingOpen => Refusal::NothingOpen,
        TellFault::NotOf => Refusal::NotOf,
        TellFault::AlreadyTold => Refusal::AlreadyTold,
    }
}

pub fn of_hold(fault: HoldFault) -> Refusal {
    match fault {
        HoldFault::NoSuchPlace => Refusal::NoSuchPlace,
        HoldFault::Vacant => Refusal::Illegal(State::Vacant),
        HoldFault::NothingOpen => Refusal::NothingOpen,
        HoldFault::NotOf => Refusal::NotOf,
        HoldFault::NotTold => Refusal::NotTold,
        HoldFault::AlreadyDone => Refusal::AlreadyDone,
        HoldFault::Held => Refusal::Held,
        HoldFault::NotSafe => Refusal::NotSafe,
    }
}

pub fn of_release(fault: ReleaseFault) -> Refusal {
    match fault {
        ReleaseFault::NoSuchPlace => Refusal::NoSuchPlace,
        ReleaseFault::Vacant => Refusal::Illegal(State::Vacant),
        ReleaseFault::NotHeld => Refusal::NotHeld,
    }
}

pub fn of_serve(fault: ServeFault) -> Refusal {
    match fault {
        ServeFault::NoSuchPlace => Refusal::NoSuchPlace,
        ServeFault::Vacant => Refusal::Illegal(State::Vacant),
        ServeFault::NotHeld => Refusal::NotHeld,
        ServeFault::NothingOpen => Refusal::NothingOpen,
        ServeFault::NotOf => Refusal::NotOf,
        ServeFault::NotTold => Refusal::NotTold,
        ServeFault::AlreadyDone => Refusal::AlreadyDone,
    }
}

fn of_census(fault: desk::OperateFault) -> Refusal {
    match fault {
        desk::OperateFault::NothingOpen => Refusal::NothingOpen,
        desk::OperateFault::NotOf => Refusal::NotOf,
        desk::OperateFault::AlreadyDone => Refusal::AlreadyDone,
        desk::OperateFault::NotAllHeld => Refusal::NotAllHeld,
    }
}
