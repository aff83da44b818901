// The events that use the index: a change of the open publication, and a census.
ghost use Rattle.std.specs.Prelude.{◌≡◌, ◌≤◌, length, map, IfOk, OnErr};
ghost use Rattle.system.specs.declared.events.Act.TheVariants as acts;
ghost use Rattle.system.specs.declared.events.Event.TheVariants as events;
ghost use Rattle.system.specs.Kept.Censuses.{operate_refusal, IsCensus, named};
ghost use Rattle.system.specs.Memory.{Accepts};
ghost use Rattle.system.specs.Stands.{Does, OfWorld};

use crate::answers::{Answer, CodeCount, CountList, Refusal};
use crate::keeping::Core;
use crate::places::change_at;
use crate::safepoints::census_refusal;
use std::alloc::{AllocError, Global};

fn code_counts(alloc: Global, counts: &[(u64, u32)]) -> Result<Vec<CodeCount>, AllocError>
    ensures { IfOk result (λ list. list.items ≡ map named counts.now) }
{
    counts
        .iter()
        .map(|counted| CodeCount {
            serial: counted.0,
            count: counted.1,
        })
        .collect(alloc)
}

impl Core {
    /// Does the next change of the thread's open publication, and adds the difference to the index. Refusals in this
    /// order: `NoSuchPlace`, `Illegal` for a vacant place, `NotBegun`.
    #[inline(always)]
    pub fn change(&mut self, place: usize) -> Answer
        requires few { length self.old.places.items ≤ 64 }
        requires world { OfWorld self.old }
        ensures { Does (events.At place acts.Change) self.old result self.new }
    {
        match change_at(&mut self.places, place) {
            Ok(Some(change)) => {
                self.index
                    .add(change.code.slot as usize, change.code.serial, change.by);
                Answer::Changed(change.code.serial, change.by)
            }
            Ok(None) => Answer::NoChange,
            Err(refusal) => Answer::Refused(refusal),
        }
    }

    // Why a census is refused: the first test that fails.
    fn operate_refusal(&self) -> Option<Refusal>
        ensures { result ≡ operate_refusal self.now.requests.opens self.now.places.items }
    {
        let Some(open) = self.requests.opens.oldest() else {
            return Some(Refusal::NothingOpen);
        };
        if !open.is_census() {
            return Some(Refusal::NotOf);
        }
        if open.operated {
            return Some(Refusal::AlreadyDone);
        }
        census_refusal(&self.places)
    }

    fn census(&self, alloc: Global) -> Result<CountList, AllocError>
        ensures { IfOk result (λ counts. IsCensus self.now.index counts) }
    {
        let counts = self.index.census(alloc)?;
        let list = CountList::from_vec(alloc, code_counts(alloc, &counts)?)?;
        Ok(list)
    }

    /// Operates the open census: answers the number of frames of each code over all stacks.
    /// Refusals in this order: `NothingOpen`, `NotOf`, `AlreadyDone`, `NotAllHeld`, `Publishing`, `Unpublished`.
    ///
    /// # Errors
    /// Memory is refused, and the event would be accepted.
    pub fn operate(&mut self, alloc: Global) -> Result<Answer, AllocError>
        ensures does { IfOk result (λ answer. Does events.Operate self.old answer self.new) }
        ensures refused { OnErr result (self.new ≡ self.old) }
        ensures no_memory { OnErr result (Accepts self.old events.Operate) }
    {
        if let Some(refusal) = self.operate_refusal() {
            return Ok(Answer::Refused(refusal));
        }
        let counts = self.census(alloc)?;
        self.requests.opens.set_operated();
        Ok(Answer::Census(counts))
    }
}
