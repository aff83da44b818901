//! Results of calls, as far as a run checks them.
use bodies::Name;
use coordinator::{HoldFault, ReclaimFault, Reclaimed};
use desk::CloseFault;

/// The result of a try to close a request.
#[derive(Clone, Copy, Drop)]
pub enum Closed {
    Of(u64),
    NotDone,
    Wrong,
}

impl Closed {
    pub fn of_refused(fault: CloseFault) -> Closed {
        match fault {
            CloseFault::NotDone => Closed::NotDone,
            _ => Closed::Wrong,
        }
    }
}

/// The result of a try to hold a thread.
#[derive(Clone, Copy, Drop)]
pub enum Held {
    Now,
    /// No thread has the place, or its thread isn't safe yet.
    Not,
    /// No open handshake lists the thread any more.
    NotFor,
    Already,
    Wrong,
}

impl Held {
    pub fn of<T: Drop>(held: Result<T, HoldFault>) -> Held {
        match held {
            Ok(_receipt) => Held::Now,
            Err(fault) => Held::of_refused(fault),
        }
    }

    fn of_refused(fault: HoldFault) -> Held {
        match fault {
            HoldFault::Held => Held::Already,
            HoldFault::Vacant | HoldFault::NotSafe => Held::Not,
            HoldFault::NotOf | HoldFault::AlreadyDone => Held::NotFor,
            _ => Held::Wrong,
        }
    }
}

/// The result of a call to reclaim.
#[derive(Clone, Copy, Drop)]
pub enum Came {
    Freed,
    Used(u64),
    Late(usize),
    /// Refused, since a request is open or waits.
    Open,
    /// Refused, since the code is in use, a zombie, freed or unknown.
    Unready,
    Wrong,
}

impl Came {
    pub fn of<N: Name>(reclaimed: &Reclaimed<N>) -> Came {
        match reclaimed {
            Reclaimed::Freed(_) => Came::Freed,
            Reclaimed::Used(count, _) => Came::Used(*count),
            Reclaimed::Late(place, _) => Came::Late(*place),
        }
    }

    pub fn of_refused(fault: ReclaimFault) -> Came {
        match fault {
            ReclaimFault::AlreadyOpen => Came::Open,
            ReclaimFault::Code(_) => Came::Unready,
            _ => Came::Wrong,
        }
    }
}
