// One line after another: what it does, and the reply to it.
ghost use Rattle.std.specs.Prelude.{◌≡◌, Option, Some, None, IfOk, OnErr};
ghost use Rattle.system.specs.World.{World};
ghost use Rattle.replay.specs.Room.{TakesIn};
ghost use Rattle.replay.specs.Text.{IsAt, Replied};

use crate::grammar::Command;
use std::alloc::{AllocError, Global};
use system::answers::Answer;
use system::events::Event;
use system::{NewFault, System};

/// The reply to a line.
#[derive(Debug, Drop)]
pub enum Reply {
    BadLine,
    BadSize,
    Answered(Answer),
}

/// Does what a line says, and replies. There is no system before the first size that is accepted.
///
/// It is inlined into its caller, so that neither the event nor the answer goes through memory.
#[inline(always)]
pub fn obey(
    system: &mut Option<System>,
    alloc: Global,
    command: Option<Command>,
) -> Result<Reply, AllocError>
    ensures replied { IfOk result (λ said. Replied system.old command said system.new) }
    ensures no_memory { (world : Option World) → IsAt system.old world
        → OnErr result (TakesIn world command) }
    ensures kept { OnErr result (system.new ≡ system.old) }
{
    match command {
        None => Ok(Reply::BadLine),
        Some(Command::Size(x, y, z)) => size(system, alloc, x, y, z),
        Some(Command::Do(event)) => event_reply(system, alloc, event),
    }
}

fn size(
    system: &mut Option<System>,
    alloc: Global,
    x: u64,
    y: u64,
    z: u64,
) -> Result<Reply, AllocError>
    ensures replied { IfOk result
        (λ said. Replied system.old (Some (Command.Size x y z)) said system.new) }
    ensures no_memory { (world : Option World) → IsAt system.old world
        → OnErr result (TakesIn world (Some (Command.Size x y z))) }
    ensures kept { OnErr result (system.new ≡ system.old) }
{
    if system.is_some() {
        return Ok(Reply::BadLine);
    }
    match System::new(alloc, x as usize, y as usize, z as usize) {
        Ok(made) => {
            *system = Some(made);
            Ok(Reply::Answered(Answer::Done))
        }
        Err(NewFault::BadSize) => Ok(Reply::BadSize),
        Err(NewFault::NoMemory) => Err(AllocError),
    }
}

#[inline(always)]
fn event_reply(
    system: &mut Option<System>,
    alloc: Global,
    event: Event,
) -> Result<Reply, AllocError>
    ensures replied { IfOk result
        (λ said. Replied system.old (Some (Command.Do event)) said system.new) }
    ensures no_memory { (world : Option World) → IsAt system.old world
        → OnErr result (TakesIn world (Some (Command.Do event))) }
    ensures kept { OnErr result (system.new ≡ system.old) }
{
    match system {
        None => Ok(Reply::BadLine),
        Some(system) => Ok(Reply::Answered(system.apply(alloc, event)?)),
    }
}
