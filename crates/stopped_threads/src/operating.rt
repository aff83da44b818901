//! Operating a census over held bodies and a desk that is lent.
ghost use Rattle.std.specs.Prelude.{◌≡◌, true, IfOk, IfErr, OnOk};
ghost use Rattle.bodies.specs.Bodies.{IsPublished};
ghost use Rattle.bodies.specs.Census.{IsCensus};
ghost use Rattle.desk.specs.declared.entries.Entry.{Entry};
ghost use Rattle.desk.specs.Fields.{Enters, at};
ghost use Rattle.desk.specs.Refusals.{are_all, MayOperate};
ghost use Rattle.stopped_threads.specs.Held.{AreEach};
ghost use Rattle.stopped_threads.specs.Refused.{census_refused};

use crate::faults::OperateFault;
use crate::held::HeldBodies;
use board::Board;
use bodies::{Name, census_of};
use desk::{Desk, Operating};
use operations::job::HandshakeOp;
use std::alloc::Global;

/// Operates the open census, if it may be operated over these bodies and there is memory for its list: counts their frames,
/// publishes each body, and enters that the census is operated over them. The receipt of that entry shows the list.
pub fn operate_over<N: Name, J: HandshakeOp>(
    desk: &mut Desk<N, J>,
    bodies: &mut HeldBodies<N>,
    board: &Board,
    alloc: Global,
) -> Result<(u64, Vec<(u64, u32)>, Operating<N>), OperateFault>
    requires board { board.now ≡ N.board }

    ensures entered { IfOk result (λ r. Enters desk.old desk.new (Entry.Operate r.0) r.2.stands) }
    ensures shown { IfOk result (λ r. r.2.list ≡ r.1.items) }
    ensures may { OnOk result (MayOperate (at desk.old) bodies.old) }
    ensures all { OnOk result (are_all (at desk.old).live bodies.new ≡ true) }
    ensures published { OnOk result (AreEach IsPublished bodies.old bodies.new) }
    ensures counted { IfOk result (λ r. IsCensus bodies.new r.1.items) }

    ensures refused { IfErr result (λ e. (desk.new ≡ desk.old) × (bodies.new ≡ bodies.old)
        × census_refused (at desk.old) bodies.old e) }
{
    if let Some(fault) = desk.operate_fault(bodies.as_slice()) {
        return Err(OperateFault::Refused(fault));
    }
    let Ok(list) = census_of(alloc, bodies.as_slice()) else {
        return Err(OperateFault::NoMemory);
    };
    bodies.publish_all(board);
    match desk.operate(bodies.as_slice(), &list) {
        Ok((number, receipt)) => Ok((number, list, receipt)),
        Err(_) => unreachable!(),
    }
}
