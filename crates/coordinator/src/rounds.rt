//! The steps of reclaiming before the weighing, as values. Only its own step makes a value, and the next step takes it.
//! So the code is weighed after the Close of the handshake, which is worked on after the round.
ghost use Rattle.std.specs.Prelude.{◌≡◌, ◌≢◌, true, false, None, Some, IfOk, IfErr, IfSome};
ghost use Rattle.desk.specs.declared.entries.Entry.{Entry};
ghost use Rattle.desk.specs.Fields.{at};
ghost use Rattle.desk.specs.JobsFit.{jobs_fit};
ghost use Rattle.desk.specs.Refusals.{reclaim_refused};
ghost use Rattle.coordinator.specs.Rounds.{Begins, IsClosed, IsOver, IsReclaimedBehind};

use board::Board;
use bodies::Name;
use desk::{Desk, NotReclaimed, Receipt};
use operations::Request;
use operations::job::HandshakeOp;
use std::marker::Model;
use std::snapshot::Snapshot;
use stopped_threads::{Reclaimed, weigh};

/// The first step of reclaiming: a round, and the Ask of the handshake if there is one. It isn't `Drop`, so that the
/// handshake is worked on.
pub struct RoundDone<N: Name, J: HandshakeOp> {
    before: Snapshot<Desk<N, J>>,
    after: Snapshot<Desk<N, J>>,
    asked: Option<(u64, Receipt<N>)>,
}

impl<N: Name, J: HandshakeOp> Model for RoundDone<N, J> {
    ghost use Rattle.std.specs.Prelude.{◌≡◌};
    ghost use Rattle.frames.specs.BoardViews.{went_round};
    ghost use Rattle.coordinator.specs.Rounds.{Beginning};

    ghost Value = { Beginning };

    ghost view = { λ b.
        record { before = b.before.value; after = b.after.value; asked = b.asked } };

    ghost invariant = { λ b.
        b.after.value.keeper ≡ went_round b.before.value.keeper b.before.value.keeper.moment };
}

/// Reclaiming after its handshake is closed, if there is one, with the receipt of the Close.
pub struct HandshakeClosed<N: Name, J: HandshakeOp> {
    begun: RoundDone<N, J>,
    closed: Option<Receipt<N>>,
}

impl<N: Name, J: HandshakeOp> Model for HandshakeClosed<N, J> {
    ghost use Rattle.coordinator.specs.Rounds.{Shaking, IsClosed};

    ghost Value = { Shaking };

    ghost view = { λ s. record { begun = s.begun; closed = s.closed } };

    ghost invariant = { λ s. IsClosed s.begun.asked s.closed };
}

impl<N: Name, J: HandshakeOp> RoundDone<N, J> {
    /// Makes the round, and queues the request if there is one. Refusals in the order of `ReclaimFault`.
    pub fn begin(
        desk: &mut Desk<N, J>,
        board: &Board,
        serial: u64,
        request: Option<Request>,
        jobs: Vec<J>,
    ) -> Result<RoundDone<N, J>, NotReclaimed<J>>
        requires board { board.now ≡ N.board }
        ensures step { IfOk result (λ b. (b.before ≡ desk.old) × (b.after ≡ desk.new)) }
        ensures begins { IfOk result (Begins request) }
        ensures refused { IfErr result (λ e.
            reclaim_refused (at desk.old) serial request (λ asked.
            jobs_fit J.whom J.asks asked jobs.items) desk.old.book desk.old.keeper.moment e.fault) }
        ensures handed_back { IfErr result (λ e. e.jobs ≡ jobs) }
    {
        let before = Snapshot::of(desk);
        let asked = match desk.begin_reclaim(board, serial, request, jobs) {
            Ok(asked) => asked,
            Err(refused) => return Err(refused),
        };
        let after = Snapshot::of(desk);
        Ok(RoundDone {
            before,
            after,
            asked,
        })
    }

    // Whether the handshake has this number.
    fn asked_for(&self, number: u64) -> bool
        ensures { result ≡ true → (asked : _) × (self.now.asked ≡ Some asked) × (asked.0 ≡ number) }
    {
        match &self.asked {
            Some((asked, _)) => *asked == number,
            None => false,
        }
    }

    // Whether the handshake, if there is one, is closed at the desk: no request up to its number is open or waits.
    fn is_over(&self, desk: &Desk<N, J>) -> bool
        ensures { result ≡ true → IsOver self.now.asked desk.now }
    {
        match &self.asked {
            Some((asked, _)) => *asked < desk.least_pending(),
            None => true,
        }
    }

    /// Returns whether there is no handshake.
    pub fn is_alone(&self) -> bool
        ensures yes { result ≡ true → self.now.asked ≡ None }
        ensures no { result ≡ false → self.now.asked ≢ None }
    {
        match &self.asked {
            Some(_) => false,
            None => true,
        }
    }

    /// Continues without a handshake.
    pub fn alone(self) -> HandshakeClosed<N, J>
        requires { self.asked ≡ None }
        ensures begun { result.begun ≡ self }
        ensures closed { IsClosed result.begun.asked result.closed }
    {
        HandshakeClosed {
            begun: self,
            closed: None,
        }
    }

    /// Continues after the Close of its handshake. After another Close, returns itself.
    pub fn shaken(
        self,
        number: u64,
        receipt: Receipt<N>,
    ) -> Result<HandshakeClosed<N, J>, RoundDone<N, J>>
        requires closed { receipt.entry ≡ Entry.Close number }
        ensures ok { IfOk result (λ s. (s.begun ≡ self) × IsClosed s.begun.asked s.closed) }
        ensures err { IfErr result (λ b. b ≡ self) }
    {
        if !self.asked_for(number) {
            return Err(self);
        }
        Ok(HandshakeClosed {
            begun: self,
            closed: Some(receipt),
        })
    }
}

impl<N: Name, J: HandshakeOp> HandshakeClosed<N, J> {
    /// Looks at each place, weighs the code, and frees it if it has no activation. None if the code can't be weighed,
    /// or the handshake isn't closed at the desk.
    pub fn weigh(
        &self,
        desk: &mut Desk<N, J>,
        board: &Board,
        serial: u64,
        places: usize,
    ) -> Option<Reclaimed<N>>
        requires board { board.now ≡ N.board }
        requires places { places ≡ N.board.places }
        ensures { IfSome result (IsReclaimedBehind self.now.begun.asked N.board.places serial) }
    {
        if !self.begun.is_over(desk) {
            return None;
        }
        weigh(desk, board, serial, places)
    }

    /// Ends reclaiming with the result of the weighing.
    pub fn end(self, said: Reclaimed<N>) -> Reclaimed<N>
        ensures { result ≡ said }
    {
        let HandshakeClosed { begun, closed: _ } = self;
        let RoundDone {
            before: _,
            after: _,
            asked: _,
        } = begun;
        said
    }
}
