// The events of the core.
ghost use Rattle.std.specs.Prelude.{◌≡◌, true, IfOk, IsOk};
ghost use Rattle.operations.specs.Requests.{is_census};
ghost use Rattle.system.specs.Memory.{copies_freely};

use operations::Request;
use std::alloc::{AllocError, Global};

/// An act of the thread at a place, or of the coordinator on that thread.
#[derive(Clone, Copy, Debug, PartialEq, Eq, Drop)]
pub enum Act {
    Begin,
    Change,
    End,
    Wake,
    Cross,
    Enter(u64, Option<u64>),
    Leave,
    Edge,
    ToVm,
    FromVm,
    ToNative,
    Block,
    Exit,
    Take,
    Finish,
    Clear,
    Hold,
    Release,
    Stack,
}

/// An event: an act at a place, or an event of the whole system.
#[derive(Debug, Drop)]
pub enum Event {
    At(usize, Act),
    Start,
    Install(u64),
    Invalidate(u64),
    Round,
    Look(u64, usize),
    Weigh(u64),
    Free(u64),
    Ask(Request),
    Open,
    Tell(u64),
    Operate,
    /// Closes the open operation of this number, or the oldest one.
    Close(Option<u64>),
    Count(u64),
    CodeState(u64),
    Resolve(u64),
}

impl Event {
    /// Copies the event. Only the names of a handshake need memory.
    pub fn copied(&self, alloc: Global) -> Result<Event, AllocError>
        ensures same { IfOk result (λ event. event ≡ self.now) }
        ensures succeeds { copies_freely self.now ≡ true → IsOk result }
    {
        Ok(match self {
            Event::At(place, act) => Event::At(*place, *act),
            Event::Start => Event::Start,
            Event::Install(method) => Event::Install(*method),
            Event::Invalidate(serial) => Event::Invalidate(*serial),
            Event::Round => Event::Round,
            Event::Look(serial, place) => Event::Look(*serial, *place),
            Event::Weigh(serial) => Event::Weigh(*serial),
            Event::Free(serial) => Event::Free(*serial),
            Event::Ask(request) => Event::Ask(request.copied(alloc)?),
            Event::Open => Event::Open,
            Event::Tell(name) => Event::Tell(*name),
            Event::Operate => Event::Operate,
            Event::Close(number) => Event::Close(*number),
            Event::Count(serial) => Event::Count(*serial),
            Event::CodeState(serial) => Event::CodeState(*serial),
            Event::Resolve(method) => Event::Resolve(*method),
        })
    }
}
