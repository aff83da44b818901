// The acts of one thread, and its start.
ghost use Rattle.std.specs.Prelude.{◌≡◌, ◌≤◌, true, IfOk, OnErr};
ghost use Rattle.system.specs.declared.events.Event.TheVariants as events;
ghost use Rattle.system.specs.declared.events.Act.TheVariants as acts;
ghost use Rattle.system.specs.Kept.Acts.{is_plain};
ghost use Rattle.system.specs.Memory.{Accepts};
ghost use Rattle.system.specs.Stands.{Does};

use crate::answers::{Answer, Refusal};
use crate::events::Act;
use crate::keeping::Core;
use crate::places::{act_at, exit_at, stack_at, vacant_place};
use crate::thread::Thread;
use frames::LAST;
use std::alloc::{AllocError, Global};

impl Core {
    /// Does a plain act of the thread at the place.
    pub fn act(&mut self, place: usize, act: Act) -> Answer
        requires plain { is_plain act ≡ true }
        requires few { self.old.table.methods ≤ 256 }
        ensures { Does (events.At place act) self.old result self.new }
    {
        act_at(
            &mut self.places,
            place,
            act,
            &self.table,
            self.requests.opens.as_slice(),
            self.moment,
        )
    }

    /// Lets the thread at the place exit. The refusals are those of `exit_at`.
    #[inline(always)]
    pub fn exit(&mut self, place: usize) -> Answer
        ensures { Does (events.At place acts.Exit) self.old result self.new }
    {
        exit_at(&mut self.places, place)
    }

    /// Answers the frames of the thread at the place. Refusals in this order: `NoSuchPlace`, `Illegal` for a vacant
    /// place.
    ///
    /// # Errors
    /// Memory is refused.
    #[inline(always)]
    pub fn stack(&self, alloc: Global, place: usize) -> Result<Answer, AllocError>
        ensures does { IfOk result
            (λ answer. Does (events.At place acts.Stack) self.now answer self.now) }
        ensures no_memory { OnErr result (Accepts self.now (events.At place acts.Stack)) }
    {
        stack_at(alloc, &self.places, place)
    }

    /// Starts a thread in the least vacant place. Refusals in this order: `SafepointOpen`, `PlacesFull`, `Spent`.
    ///
    /// # Errors
    /// Memory is refused, and the event would be accepted.
    pub fn start(&mut self, alloc: Global) -> Result<Answer, AllocError>
        ensures does { IfOk result (λ answer. Does events.Start self.old answer self.new) }
        ensures refused { OnErr result (self.new ≡ self.old) }
        ensures no_memory { OnErr result (Accepts self.old events.Start) }
    {
        if self.requests.is_safepoint() {
            return Ok(Answer::Refused(Refusal::SafepointOpen));
        }
        let Some(place) = vacant_place(&self.places) else {
            return Ok(Answer::Refused(Refusal::PlacesFull));
        };
        if self.names >= LAST {
            return Ok(Answer::Refused(Refusal::Spent));
        }
        let name = self.names + 1;
        let thread = Thread::new(alloc, name)?;
        self.places[place] = Some(thread);
        self.names = name;
        Ok(Answer::Thread(name, place))
    }
}
