//! Serves a held thread.
ghost use Rattle.std.specs.Prelude.{◌≡◌, ◌<◌, ℕ, None, length, IfOk, IfErr};
ghost use Rattle.bodies.specs.Bodies.{BodyView};
ghost use Rattle.stopped_threads.specs.Held.{StandsAt};
ghost use Rattle.stopped_threads.specs.Refused.{IsServeFault, serve_refused};
ghost use Rattle.coordinator.specs.Refused.{Serves};

use crate::coordinator::Coordinator;
use bodies::Name;
use desk::Receipt;
use operations::job::HandshakeOp;
use std::sync::Wait;
use stopped_threads::{ServeFault, serve_fault_of, unserved};

impl<'a, N: Name, J: HandshakeOp> Coordinator<'a, N, J> {
    /// Serves the held thread of a place that was armed for an open handshake and isn't done with it: publishes its
    /// stack, runs its oldest job, enters the job's reply, and clears the operation. Returns the receipt of the Finish.
    /// Refusals in the order of `ServeFault`.
    pub fn serve<R: Wait>(&mut self, rt: &R, place: usize) -> Result<Receipt<N>, ServeFault>
        ensures served { IfOk result (λ r. (index : ℕ) × (body : BodyView)
            × StandsAt self.old.held index place body × IsServeFault self.old index place None
            × Serves J.number J.whom J.asks J.may_answer self.old self.new index r) }
        ensures refused { IfErr result (λ e. serve_refused self.old N.board.places place e
            × (self.new ≡ self.old)) }
    {
        let Some(index) = self.bodies.index_of(place) else {
            return Err(unserved(self.unheld(rt, place)));
        };
        if let Some(fault) = self.serve_refusal(rt, index, place) {
            return Err(fault);
        }
        Ok(self.bodies.serve(rt, self.shared, index))
    }

    // Why the held thread at this index and place isn't served.
    fn serve_refusal<R: Wait>(&self, rt: &R, index: usize, place: usize) -> Option<ServeFault>
        requires index { index < length self.now.held }
        requires place { place < N.board.places }
        ensures { IsServeFault self.now index place result }
    {
        let name = self.bodies.as_slice()[index].name();
        let last = self.armer.last(place);
        let desk = self.shared.desk().lock(rt);
        let fault = serve_fault_of(&desk, name, last);
        drop(desk);
        fault
    }
}
