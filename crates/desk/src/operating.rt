//! Operates the open census, and has the evidence of its Operate.
ghost use Rattle.std.specs.Prelude.{◌≡◌, ◌+◌, true, Some, None, IfOk, IfErr, OnOk};
ghost use Rattle.bodies.specs.Census.{IsCensus};
ghost use Rattle.desk.specs.Refusals.{operate_refused, AreSettled, are_all, MayOperate, operate_said};
ghost use Rattle.desk.specs.Fields.{at, Enters};

use crate::desk::Desk;
use crate::entries::Entry;
use crate::faults::OperateFault;
use crate::lists::{are_all, is_census, operate_at};
use crate::log::Receipt;
use bodies::{Body, Name};
use operations::job::HandshakeOp;
use std::marker::Model;
use std::snapshot::Snapshot;

/// Evidence of an Operate in the history of N's desk, with the census of the bodies over which it was entered. Only the
/// desk makes it, when it enters the Operate. It can't be copied.
#[derive(Drop)]
pub struct Operating<N: Name> {
    receipt: Receipt<N>,
    list: Snapshot<Vec<(u64, u32)>>,
}

impl<N: Name> Model for Operating<N> {
    ghost use Rattle.desk.specs.Operatings.{OperatingSeen};

    ghost Value = { OperatingSeen };

    ghost view = { λ o. record { stands = o.receipt; list = o.list.value.items } };
}

impl<N: Name> Operating<N> {
    pub(crate) fn of(receipt: Receipt<N>, list: &Vec<(u64, u32)>) -> Operating<N>
        ensures { result ≡ record { stands = receipt; list = list.now.items } }
    {
        Operating {
            receipt,
            list: Snapshot::of(list),
        }
    }

    /// Returns the receipt of the entry.
    pub fn receipt(self) -> Receipt<N>
        ensures { result ≡ self.stands }
    {
        self.receipt
    }
}

impl<N: Name, J: HandshakeOp> Desk<N, J> {
    /// Enters the Operate of the open census over these bodies, which are settled and exactly those of all live
    /// threads. `list` is the census of their stacks, which the receipt shows. Returns the census's number and the
    /// receipt. Refusals in the order of `OperateFault`.
    pub fn operate(
        &mut self,
        bodies: &[Body<N>],
        list: &Vec<(u64, u32)>,
    ) -> Result<(u64, Operating<N>), OperateFault>
        requires settled { AreSettled bodies.now }
        requires counted { IsCensus bodies.now list.now.items }

        ensures ok { IfOk result (λ r. Enters self.old self.new (Entry.Operate r.0) r.1.stands) }
        ensures seen { IfOk result (λ r. r.1.list ≡ list.now.items) }
        ensures accepted { OnOk result (MayOperate (at self.old) bodies.now) }
        ensures all { OnOk result (are_all (at self.old).live bodies.now ≡ true) }
        ensures reserved { OnOk result
            ((self.new.book.reserved + 1 ≡ self.old.book.reserved)
            × (self.new.keeper ≡ self.old.keeper)) }
        ensures jobs { self.new.jobs ≡ self.old.jobs }

        ensures err { IfErr result (λ e.
            (self.new ≡ self.old) × operate_refused (at self.old) bodies.now e) }
    {
        if let Some(fault) = self.operate_fault(bodies) {
            return Err(fault);
        }
        let number = self.opened[0].number;
        operate_at(&mut self.opened, 0);
        Ok((
            number,
            Operating::of(self.log.enter(Entry::Operate(number)), list),
        ))
    }

    /// Returns why `operate` over these bodies is refused, or None.
    pub fn operate_fault(&self, bodies: &[Body<N>]) -> Option<OperateFault>
        ensures { operate_said (at self.now) bodies.now result }
    {
        if self.opened.is_empty() {
            return Some(OperateFault::NothingOpen);
        }
        if !is_census(&self.opened[0].request) {
            return Some(OperateFault::NotOf);
        }
        if self.opened[0].operated {
            return Some(OperateFault::AlreadyDone);
        }
        if are_all(self.live.as_slice(), bodies) {
            None
        } else {
            Some(OperateFault::NotAllHeld)
        }
    }
}
