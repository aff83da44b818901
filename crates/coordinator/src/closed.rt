//! A closed request, and the evidence of the work on it.
ghost use Rattle.std.specs.Prelude.{◌≡◌, false, Some, true, IfSome, IfNone};
ghost use Rattle.operations.specs.declared.Kind.TheVariants as kind;
ghost use Rattle.desk.specs.declared.entries.Entry.{Entry};
ghost use Rattle.desk.specs.Machine.{Current};
ghost use Rattle.desk.specs.Fields.{Enters, at};
ghost use Rattle.desk.specs.Targets.{number_of as number_in};
ghost use Rattle.desk.specs.Refusals.{oldest_of, holds_target};
ghost use Rattle.stopped_threads.specs.Holding.{Holding};
ghost use Rattle.coordinator.specs.Driving.{number_of, WasOldest, IsWorked, IsListed, IsCounted};

use crate::counted::Counted;
use crate::faults::Driven;
use bodies::{Body, Name};
use desk::{Closing, Desk, Operating, Receipt};
use operations::Kind;
use operations::job::HandshakeOp;
use std::marker::Model;

/// A closed request. It isn't `Drop`, so the code that closes a request must return it.
pub struct Closed<N: Name> {
    number: u64,
    receipt: Closing<N>,
}

impl<N: Name> Model for Closed<N> {
    ghost use Rattle.coordinator.specs.Driving.{ClosedSeen};

    ghost Value = { ClosedSeen };

    ghost view = { λ c. record { number = c.number; shown = c.receipt } };
}

/// The evidence of the work on a request: the receipt of its Close and, if `drive` operated it, its number and the
/// receipt of its Operate.
#[derive(Drop)]
pub struct Worked<N: Name> {
    closing: Closing<N>,
    operated: Option<(u64, Operating<N>)>,
}

impl<N: Name> Model for Worked<N> {
    ghost use Rattle.coordinator.specs.Driving.{WorkedSeen};

    ghost Value = { WorkedSeen };

    ghost view = { λ w. record { closing = w.closing; operated = w.operated } };
}

impl<N: Name> Worked<N> {
    /// Returns the receipt of the Close.
    pub fn receipt(self) -> Receipt<N>
        ensures { result ≡ self.closing.stands }
    {
        let Worked {
            closing,
            operated: _,
        } = self;
        closing.receipt()
    }
}

// Whether the oldest open request has this number, if one is given.
fn has_number<N: Name, J: HandshakeOp>(desk: &Desk<N, J>, number: Option<u64>) -> bool
    ensures { result ≡ true → IfSome number (λ n.
        number_in (oldest_of (at desk.now).opened) ≡ Some n) }
{
    match (number, desk.open_number()) {
        (None, _) => true,
        (Some(number), Some(oldest)) => number == oldest,
        (Some(_), None) => false,
    }
}

impl<N: Name> Closed<N> {
    /// Closes the oldest open request if it is of this kind, and of this number if one is given. Returns it with the
    /// jobs that weren't taken.
    pub fn close<J: HandshakeOp>(
        desk: &mut Desk<N, J>,
        held: &[Body<N>],
        kind: Kind,
        number: Option<u64>,
    ) -> Option<(Closed<N>, Vec<J>)>
        ensures entered { IfSome result (λ r.
            Enters desk.old desk.new (Entry.Close r.0.number) r.0.shown.stands) }
        ensures free { IfSome result (λ r. (o : Current)
            × (oldest_of (at desk.old).opened ≡ Some o) × (r.0.number ≡ o.number)
            × (holds_target o.request held.now ≡ false)) }
        ensures oldest { IfSome result (λ r. WasOldest kind r.0.number r.0.shown) }
        ensures numbered { IfSome result (λ r. IfSome number (λ n. r.0.number ≡ n)) }
    {
        let open = desk.open_kind()?;
        if open != kind || !has_number(desk, number) {
            return None;
        }
        match desk.close(None, held) {
            Ok((number, jobs, receipt)) => Some((Closed { number, receipt }, jobs)),
            Err(_) => None,
        }
    }

    /// Returns the closed request as a handshake.
    pub fn handshake(self) -> (Driven, Worked<N>)
        requires { WasOldest kind.Handshake self.number self.shown }
        ensures number { number_of result.0 ≡ self.number }
        ensures worked { IsWorked result.0 result.1.closing }
        ensures listed { (old : Holding) → IsListed old result.0 result.1 }
        ensures closed { result.1.closing ≡ self.shown }
    {
        let Closed { number, receipt } = self;
        let worked = Worked {
            closing: receipt,
            operated: None,
        };
        (Driven::Handshake(number), worked)
    }

    /// Returns the closed request as a census, with its counts.
    pub fn census(self, counted: Counted<N>) -> (Driven, Worked<N>)
        requires oldest { WasOldest kind.Census self.number self.shown }
        requires numbered { IfSome counted.operated (λ o. o.0 ≡ self.number) }

        ensures number { number_of result.0 ≡ self.number }
        ensures worked { IsWorked result.0 result.1.closing }
        ensures listed { (old : Holding) → IsCounted old counted → IsListed old result.0 result.1 }
        ensures closed { result.1.closing ≡ self.shown }
    {
        let Closed { number, receipt } = self;
        let Counted { list, operated } = counted;
        let worked = Worked {
            closing: receipt,
            operated,
        };
        (Driven::Census(number, list), worked)
    }
}
