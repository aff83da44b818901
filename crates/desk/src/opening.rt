//! Opens and closes requests.
ghost use Rattle.std.specs.Prelude.{◌≡◌, ◌+◌, length, false, Some, None, IfOk, IfErr, OnOk, map};
ghost use Rattle.operations.specs.Requests.{kind_of};
ghost use Rattle.desk.specs.Machine.{Current as CurrentOf, steps_of};
ghost use Rattle.desk.specs.Refusals.{open_refused, close_refused, chosen, oldest_of, holds_target};
ghost use Rattle.desk.specs.Fields.{at, Enters};
ghost use Rattle.desk.specs.Targets.{number_of, open_kind};
ghost use Rattle.desk.specs.JobsFit.{left_of, jobs_closed, jobs_opened};

use crate::closing::Closing;
use crate::desk::Desk;
use crate::entries::{Carried, Entry, Opened};
use crate::faults::{CloseFault, OpenFault};
use crate::lists::{
    holds_target, may_close, may_open_more, number_of_oldest, place_chosen, steps_of,
};
use crate::log::Receipt;
use crate::names::Awaited;
use bodies::{Body, Name};
use operations::Kind;
use operations::job::HandshakeOp;
use operations::queue::Waiting;
use std::collections::VecDeque;

impl<N: Name, J: HandshakeOp> Desk<N, J> {
    /// Opens the oldest waiting request, and returns its number and the receipt. At most four handshakes are open, or
    /// one census alone. Refusals in the order of `OpenFault`.
    pub fn open(&mut self) -> Result<(u64, Receipt<N>), OpenFault>
        ensures ok { IfOk result (λ r. Enters self.old self.new (Entry.Open r.0) r.1) }
        ensures reserved { OnOk result
            ((self.new.book.reserved + 1 ≡ self.old.book.reserved)
            × (self.new.keeper ≡ self.old.keeper)) }
        ensures jobs { OnOk result
            (self.new.jobs ≡ jobs_opened (at self.old).waiting self.old.jobs) }
        ensures err { IfErr result (λ e. (self.new ≡ self.old) × open_refused (at self.old) e) }
    {
        if !may_open_more(&self.queue, self.opened.as_slice()) {
            return Err(OpenFault::AlreadyOpen);
        }
        let Some(first) = self.queue.pop() else {
            return Err(OpenFault::QueueEmpty);
        };
        let Waiting {
            number,
            request,
            load,
        } = first;
        let Carried { room, jobs } = load;
        let left = steps_of(&request);
        let due = Awaited::live_targets(room, &request, self.live.as_slice());
        self.opened.push_reserved(Opened {
            number,
            request,
            before: self.next_name,
            left,
            due,
            operated: false,
            jobs: VecDeque::from_vec(jobs),
        });
        Ok((number, self.log.enter(Entry::Open(number))))
    }

    /// Closes the open request of this number or, without a number, the oldest. Returns its number, its jobs that
    /// weren't taken, and the receipt, which shows the kind of the request and the number of the oldest request open
    /// then. `held` are the held bodies. Refusals in the order of `CloseFault`.
    pub fn close(
        &mut self,
        number: Option<u64>,
        held: &[Body<N>],
    ) -> Result<(u64, Vec<J>, Closing<N>), CloseFault>
        ensures ok { IfOk result (λ r. Enters self.old self.new (Entry.Close r.0) r.2.stands) }
        ensures chosen { IfOk result (λ r.
            (c : CurrentOf)
            × (chosen number (at self.old).opened ≡ Some c)
            × (r.0 ≡ c.number)
            × (r.2.kind ≡ kind_of c.request)
            × (holds_target c.request held.now ≡ false)
            × (self.new.book.reserved + (1 + c.left) ≡ self.old.book.reserved)) }
        ensures oldest { IfOk result (λ r.
            (c : CurrentOf)
            × (oldest_of (at self.old).opened ≡ Some c)
            × (r.2.oldest ≡ c.number)) }
        ensures keeper { OnOk result (self.new.keeper ≡ self.old.keeper) }
        ensures handed_back { IfOk result (λ r. map J.whom r.1.items ≡ left_of r.0 self.old.jobs) }
        ensures jobs { IfOk result (λ r. self.new.jobs ≡ jobs_closed r.0 self.old.jobs) }

        ensures err { IfErr result (λ e.
            (self.new ≡ self.old) × close_refused (at self.old) number held.now e) }
    {
        if self.opened.is_empty() {
            return Err(CloseFault::NothingOpen);
        }
        let Some(place) = place_chosen(self.opened.as_slice(), number) else {
            return Err(CloseFault::NotOf);
        };
        if holds_target(&self.opened[place].request, held) {
            return Err(CloseFault::Held);
        }
        if !may_close(&self.opened[place], self.live.as_slice()) {
            return Err(CloseFault::NotDone);
        }
        let oldest = number_of_oldest(self.opened.as_slice());
        let Opened {
            number,
            request,
            before: _,
            left,
            due,
            operated: _,
            jobs,
        } = self.opened.remove(place);
        self.spare = due.into_room();
        self.log.give_back(left);
        Ok((
            number,
            Vec::from(jobs),
            Closing::of(self.log.enter(Entry::Close(number)), request.kind(), oldest),
        ))
    }

    /// Returns the kind of the oldest open request; None if no request is open.
    #[inline(always)]
    pub fn open_kind(&self) -> Option<Kind>
        ensures { result ≡ open_kind (at self.now) }
    {
        if self.opened.is_empty() {
            return None;
        }
        Some(self.opened[0].request.kind())
    }

    /// Returns how many requests are open.
    #[inline(always)]
    pub fn open_count(&self) -> usize
        ensures { result ≡ length (at self.now).opened }
    {
        self.opened.len()
    }

    /// Returns the number of the oldest open request; None if no request is open.
    #[inline(always)]
    pub fn open_number(&self) -> Option<u64>
        ensures { result ≡ number_of (oldest_of (at self.now).opened) }
    {
        if self.opened.is_empty() {
            return None;
        }
        Some(self.opened[0].number)
    }
}
