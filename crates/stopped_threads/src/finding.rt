//! What the desk says about a name or a place: which operation to arm next, and why a thread isn't held or served.
ghost use Rattle.std.specs.Prelude.{◌≡◌, None, Some, length, IfNone, IfSome};
ghost use Rattle.desk.specs.Targets.{standing, progress, name_at};
ghost use Rattle.desk.specs.Fields.{at};
ghost use Rattle.stopped_threads.specs.Refused.{IsFound, hold_fault, serve_fault, serve_fault_in, unserved};

use crate::faults::{HoldFault, ReleaseFault, ServeFault, TellFault, Told};
use crate::poll_armer::PollArmer;
use bodies::Name;
use desk::{Desk, Progress, Standing, Target};
use operations::Kind;
use operations::job::HandshakeOp;

/// What the desk says about a name whose poll is to be armed.
pub enum Found<N: Name> {
    /// The oldest open request that lists the name and whose job or mark isn't in its berth yet: how the name is a target of it,
    /// and the request's number.
    Untold(Target, u64),
    /// The desk names a place that doesn't exist.
    NoPlace,
    /// Nothing is to be armed, and this is the result of `tell`.
    Said(Result<Told<N>, TellFault>),
}

/// Finds what is to be put into the named thread's berth.
pub fn look_up<N: Name, J: HandshakeOp>(
    desk: &Desk<N, J>,
    armer: &PollArmer,
    places: usize,
    name: u64,
) -> Found<N>
    requires places { places ≡ length armer.now.seen.armed }
    ensures { IsFound (at desk.now) name armer.now.seen result }
{
    let target = match desk.standing(name) {
        Standing::NothingOpen => return Found::Said(Err(TellFault::NothingOpen)),
        Standing::NotOf => return Found::Said(Err(TellFault::NotOf)),
        Standing::Gone => return Found::Said(Ok(Told::Gone)),
        Standing::Asked(target) => target,
    };
    if target.place >= places {
        return Found::NoPlace;
    }
    match desk.untold(name, armer.last(target.place)) {
        Some(number) => Found::Untold(target, number),
        None => Found::Said(Err(TellFault::AlreadyTold)),
    }
}

// Why a thread isn't held, by its standing to the open requests and its progress with the operations that are in its berth.
fn hold_fault(said: Standing, progress: Progress) -> Option<HoldFault>
    ensures { result ≡ hold_fault said progress }
{
    match said {
        Standing::NothingOpen => Some(HoldFault::NothingOpen),
        Standing::NotOf => Some(HoldFault::NotOf),
        Standing::Gone => Some(HoldFault::NotTold),
        Standing::Asked(_) => match progress {
            Progress::NotTold => Some(HoldFault::NotTold),
            Progress::Done => Some(HoldFault::AlreadyDone),
            Progress::Undone(_) => None,
        },
    }
}

/// The name that is live at the place, and why the desk refuses to have the thread held, if it does. `last` is the number with
/// which the place was last armed.
pub fn hold_fault_at<N: Name, J: HandshakeOp>(
    desk: &Desk<N, J>,
    place: usize,
    last: u64,
) -> Option<(u64, Option<HoldFault>)>
    ensures some { IfSome result (λ r. (name_at place (at desk.now).live ≡ Some r.0)
        × (hold_fault (standing (at desk.now) r.0) (progress (at desk.now) r.0 last) ≡ r.1)) }
    ensures none { IfNone result (name_at place (at desk.now).live ≡ None) }
{
    let name = desk.name_at(place)?;
    Some((
        name,
        hold_fault(desk.standing(name), desk.progress(name, last)),
    ))
}

// Why a held target isn't served, by the kind of its request and its progress.
fn serve_fault_in(kind: Kind, progress: Progress) -> Option<ServeFault>
    ensures { result ≡ serve_fault_in kind progress }
{
    match kind {
        Kind::Census => Some(ServeFault::NotOf),
        Kind::Handshake => match progress {
            Progress::NotTold => Some(ServeFault::NotTold),
            Progress::Done => Some(ServeFault::AlreadyDone),
            Progress::Undone(_) => None,
        },
    }
}

// Why a held thread isn't served, by its standing to the open requests and its progress.
fn serve_fault(said: Standing, progress: Progress) -> Option<ServeFault>
    ensures { result ≡ serve_fault said progress }
{
    match said {
        Standing::NothingOpen => Some(ServeFault::NothingOpen),
        Standing::NotOf => Some(ServeFault::NotOf),
        Standing::Gone => Some(ServeFault::NotTold),
        Standing::Asked(target) => serve_fault_in(target.kind, progress),
    }
}

/// Why the named held thread isn't served. `last` is the number with which its place was last armed.
pub fn serve_fault_of<N: Name, J: HandshakeOp>(
    desk: &Desk<N, J>,
    name: u64,
    last: u64,
) -> Option<ServeFault>
    ensures { result
        ≡ serve_fault (standing (at desk.now) name) (progress (at desk.now) name last) }
{
    serve_fault(desk.standing(name), desk.progress(name, last))
}

/// Why a place isn't served whose thread isn't held.
pub fn unserved(fault: ReleaseFault) -> ServeFault
    ensures { result ≡ unserved fault }
{
    match fault {
        ReleaseFault::NoSuchPlace => ServeFault::NoSuchPlace,
        ReleaseFault::Vacant => ServeFault::Vacant,
        ReleaseFault::NotHeld => ServeFault::NotHeld,
    }
}
