//! What is measured.
ghost use Rattle.std.specs.Prelude.{◌≤◌, IfSome};

use std::alloc::{AllocError, Global};
use test_tools::keep;

/// What one turn is.
#[derive(Clone, Copy, PartialEq, Eq, Drop)]
pub enum Kind {
    /// A back edge.
    BackEdge,
    /// A call of a method by its hint, and the return.
    Call,
    /// The same, in a loop that has the thread by reference.
    Lent,
    /// So many calls of methods in turn by their hints, and their returns, without a publication.
    Deep,
    /// Calls of so many methods, a publication, their returns, and a publication.
    Publish,
    /// Into native code and back.
    Native,
    /// A handshake of all threads, which asks how deep their stacks are, from its Ask to its Close.
    Handshake,
    /// Such a handshake, whose jobs are boxed callbacks.
    BoxedHandshake,
    /// A census, from its Ask to its Close.
    Census,
    /// Invalidating a code and reclaiming it with such a handshake.
    Reclaim,
    /// A call by a hint and the return, by so many threads at once.
    Together,
    /// A call without a hint, and the return.
    Interpreted,
    /// The replies of the first handshake, after a history of so many entries.
    Replies,
    /// Installing a code, after a history of so many entries.
    InstallLate,
    /// Invalidating and reclaiming a code, after a history of so many entries.
    ReclaimLate,
    /// So many handshakes of one native thread, after which the history so far is forgotten.
    Forgetting,
    /// Installing a code in the last free slot of so many.
    InstallAmong,
    /// Invalidating and reclaiming a code when so many slots are taken.
    ReclaimAmong,
    /// A handshake of one native thread when so many slots are taken.
    HandshakeAmong,
    /// A census of one native thread when so many slots are taken.
    CensusAmong,
    /// A handshake of one native thread whose stack has so many codes.
    HandshakeOver,
    /// A census of one native thread whose stack has so many codes.
    CensusOver,
}

/// All kinds.
pub const KINDS: [Kind; 22] = [
    Kind::BackEdge,
    Kind::Call,
    Kind::Lent,
    Kind::Deep,
    Kind::Publish,
    Kind::Native,
    Kind::Handshake,
    Kind::BoxedHandshake,
    Kind::Census,
    Kind::Reclaim,
    Kind::Together,
    Kind::Interpreted,
    Kind::Replies,
    Kind::InstallLate,
    Kind::ReclaimLate,
    Kind::Forgetting,
    Kind::InstallAmong,
    Kind::ReclaimAmong,
    Kind::HandshakeAmong,
    Kind::CensusAmong,
    Kind::HandshakeOver,
    Kind::CensusOver,
];

impl Kind {
    /// The kind that an argument of the program names.
    pub fn of(number: u64) -> Option<Kind> {
        match number {
            1 => Some(Kind::BackEdge),
            2 => Some(Kind::Call),
            3 => Some(Kind::Deep),
            4 => Some(Kind::Publish),
            5 => Some(Kind::Native),
            6 => Some(Kind::Handshake),
            7 => Some(Kind::Census),
            8 => Some(Kind::Reclaim),
            9 => Some(Kind::Together),
            10 => Some(Kind::BoxedHandshake),
            12 => Some(Kind::Interpreted),
            13 => Some(Kind::Lent),
            20 => Some(Kind::Replies),
            21 => Some(Kind::InstallLate),
            22 => Some(Kind::ReclaimLate),
            23 => Some(Kind::Forgetting),
            31 => Some(Kind::InstallAmong),
            32 => Some(Kind::ReclaimAmong),
            33 => Some(Kind::HandshakeAmong),
            34 => Some(Kind::CensusAmong),
            41 => Some(Kind::HandshakeOver),
            42 => Some(Kind::CensusOver),
            _ => None,
        }
    }
}

const MOST_THREADS: u64 = 64;

const DEEPEST: u64 = 256;

/// How many slots there are, unless the kind says how many.
pub const SLOTS: usize = 1024;

/// What is measured, how often, and with how many threads.
#[derive(Clone, Copy, Drop)]
pub struct Plan {
    pub kind: Kind,
    pub threads: usize,
    pub turns: u64,
    /// The kind gives its meaning. Calls of methods in turn: the depth. Publications: how many codes change. Stops: whether the threads
    /// make back edges (0) or are in native code (1). Many threads: after how many pairs each thread publishes, 0 for never. Other kinds:
    /// how many entries the history has, how many handshakes a turn has, how many slots there are, or how many codes the stack has, as the
    /// kind says.
    pub arg: u64,
}

impl Plan {
    /// A plan; None unless there are 1 to 64 threads, the stack isn't too deep, and the slots are 2 to 1024 for the kinds that set them.
    pub fn new(kind: Kind, threads: u64, turns: u64, arg: u64) -> Option<Plan> {
        if threads == 0 || threads > MOST_THREADS {
            return None;
        }
        let plan = Plan {
            kind,
            threads: threads as usize,
            turns,
            arg,
        };
        if plan.is_deep() && arg > DEEPEST {
            return None;
        }
        if plan.is_among() && (arg < 2 || arg > SLOTS as u64) {
            return None;
        }
        Some(plan)
    }

    /// Whether threads other than the main thread make calls.
    pub fn has_threads(&self) -> bool {
        matches!(
            self.kind,
            Kind::Handshake | Kind::BoxedHandshake | Kind::Census | Kind::Reclaim | Kind::Together
        )
    }

    // Whether `arg` is how many frames a stack has.
    fn is_deep(&self) -> bool {
        matches!(
            self.kind,
            Kind::Deep | Kind::Publish | Kind::HandshakeOver | Kind::CensusOver
        )
    }

    // Whether `arg` is how many slots there are, of which at most one is free.
    fn is_among(&self) -> bool {
        matches!(
            self.kind,
            Kind::InstallAmong | Kind::ReclaimAmong | Kind::HandshakeAmong | Kind::CensusAmong
        )
    }

    /// Whether the plan's turns are measured after a long history, among many codes, or over a deep stack.
    pub fn is_grown(&self) -> bool {
        matches!(
            self.kind,
            Kind::Replies
                | Kind::InstallLate
                | Kind::ReclaimLate
                | Kind::Forgetting
                | Kind::HandshakeOver
                | Kind::CensusOver
        ) || self.is_among()
    }

    /// How many entries the history has before the plan's turns.
    pub fn entries(&self) -> u64 {
        match self.kind {
            Kind::Replies | Kind::InstallLate | Kind::ReclaimLate => self.arg,
            _ => 0,
        }
    }

    /// How many slots there are.
    pub fn slots(&self) -> usize {
        if self.is_among() {
            self.arg as usize
        } else {
            SLOTS
        }
    }

    /// How many slots are taken before the plan's turns.
    pub fn taken(&self) -> usize {
        match self.kind {
            Kind::InstallAmong | Kind::ReclaimAmong => self.slots().saturating_sub(1),
            Kind::HandshakeAmong | Kind::CensusAmong => self.slots(),
            _ => 0,
        }
    }

    /// How many codes the one thread has on its stack during the plan's turns.
    pub fn depth(&self) -> u64 {
        match self.kind {
            Kind::HandshakeOver | Kind::CensusOver => self.arg,
            _ => 0,
        }
    }

    /// How many methods have a code.
    pub fn codes(&self) -> u32 {
        match self.kind {
            Kind::Handshake | Kind::BoxedHandshake | Kind::Census | Kind::Reclaim => 1,
            Kind::HandshakeOver | Kind::CensusOver => 256,
            _ if self.is_grown() => 0,
            _ => 256,
        }
    }

    /// How many places there are.
    pub fn places(&self) -> usize {
        if self.has_threads() { 64 } else { 4 }
    }
}

/// What is measured, and the times so far.
#[derive(Drop)]
pub struct Times {
    pub alloc: Global,
    pub plan: Plan,
    pub all: Vec<u64>,
}

impl Times {
    pub fn new(alloc: Global, plan: Plan) -> Times {
        Times {
            alloc,
            plan,
            all: Vec::new(alloc),
        }
    }

    /// Notes how long a turn took.
    pub fn note(&mut self, time: u64) -> Result<(), AllocError> {
        keep(&mut self.all, time)
    }
}
