// The events that install and reclaim codes.
ghost use Rattle.std.specs.Prelude.{◌≡◌, ◌<◌, ◌≤◌, length, slice_set, IfOk, OnErr, IfSome, IfNone};
ghost use Rattle.method_table.specs.Codes.{unfreed};
ghost use Rattle.system.specs.declared.events.Event.TheVariants as events;
ghost use Rattle.system.specs.Memory.{Accepts};
ghost use Rattle.system.specs.Kept.Records.{new_record, not_entrant, is_clear};
ghost use Rattle.system.specs.Stands.{Does, OfWorld};

use crate::answers::{Answer, Refusal};
use crate::keeping::Core;
use crate::records::Record;
use crate::thread::Thread;
use frames::{CodeId, LAST};
use method_table::table::{FreeFault, InstallFault, InvalidateFault, RetireFault};
use method_table::{Code, CodeState};
use std::alloc::AllocError;

// Records the invalidation of a code that an install replaced.
fn note_replaced(records: &mut Vec<Record>, replaced: Option<CodeId>, moment: u64)
    requires { IfSome replaced (λ id. id.slot < length records.old.items) }
    ensures some { IfSome replaced
        (λ id. records.new.items ≡ slice_set records.old.items id.slot (new_record moment)) }
    ensures none { IfNone replaced (records.new.items ≡ records.old.items) }
{
    if let Some(old) = replaced {
        records[old.slot as usize] = Record::of(moment);
    }
}

impl Core {
    /// Installs a new code for the method in the least free slot. The code that it replaces becomes not entrant, as by
    /// an Invalidate at this moment.
    /// Refusals in this order: `NoSuchMethod`, `TableFull`, `SerialsSpent`.
    ///
    /// # Errors
    /// Memory is refused, and the event would be accepted.
    pub fn install(&mut self, method: u64) -> Result<Answer, AllocError>
        requires world { OfWorld self.old }
        requires few { length self.old.places.items ≤ 64 }
        requires recorded { length self.old.records.items ≡ self.old.table.slots }

        ensures does { IfOk result
            (λ answer. Does (events.Install method) self.old answer self.new) }
        ensures refused { OnErr result (self.new ≡ self.old) }
        ensures no_memory { OnErr result (Accepts self.old (events.Install method)) }
    {
        match self.table.install(method) {
            Ok(installed) => {
                note_replaced(&mut self.records, installed.replaced, self.moment);
                let code = installed.code;
                self.index.place(code.slot as usize, code.serial);
                Ok(Answer::Code(code.serial))
            }
            Err(InstallFault::NoSuchMethod) => Ok(Answer::Refused(Refusal::NoSuchMethod)),
            Err(InstallFault::TableFull) => Ok(Answer::Refused(Refusal::TableFull)),
            Err(InstallFault::SerialsSpent) => Ok(Answer::Refused(Refusal::SerialsSpent)),
            Err(InstallFault::NoMemory) => Err(AllocError),
        }
    }

    /// Makes a code in use not entrant, and records the moment. Refusals in this order: `Unknown`, `NotInUse`.
    pub fn invalidate(&mut self, serial: u64) -> Answer
        requires few { length self.old.places.items ≤ 64 }
        requires recorded { length self.old.records.items ≡ self.old.table.slots }
        ensures { Does (events.Invalidate serial) self.old result self.new }
    {
        let Some(code) = self.table.find(serial) else {
            return Answer::Refused(Refusal::Unknown);
        };
        match self.table.invalidate(serial) {
            Ok(()) => {
                self.records[code.slot as usize] = Record::of(self.moment);
                Answer::Done
            }
            Err(InvalidateFault::NotInUse) => Answer::Refused(Refusal::NotInUse),
            Err(InvalidateFault::Unknown) => Answer::Refused(Refusal::Unknown),
        }
    }

    /// Begins the next moment. Refused with `Spent` after the last moment.
    pub fn round(&mut self) -> Answer
        ensures { Does events.Round self.old result self.new }
    {
        if self.moment >= LAST {
            return Answer::Refused(Refusal::Spent);
        }
        self.moment += 1;
        Answer::Done
    }

    /// Answers whether every frame of the code at the place is published, and records a `Clear`. That holds if the
    /// place is vacant, its thread ended no publication yet, or its last ended publication began in a later moment than
    /// the invalidation.
    /// Refusals in this order: `Unknown`, `NotNotEntrant`, `NoSuchPlace`.
    pub fn look(&mut self, serial: u64, place: usize) -> Answer
        requires few { length self.old.places.items ≤ 64 }
        requires recorded { length self.old.records.items ≡ self.old.table.slots }
        ensures { Does (events.Look serial place) self.old result self.new }
    {
        let code = match self.not_entrant(serial) {
            Ok(code) => code,
            Err(refusal) => return Answer::Refused(refusal),
        };
        if place >= self.places.len() {
            return Answer::Refused(Refusal::NoSuchPlace);
        }
        let slot = code.slot as usize;
        if !is_clear(self.records[slot].left, &self.places[place]) {
            return Answer::Late;
        }
        self.records[slot].look(place);
        Answer::Clear
    }

    /// Answers the least place without a `Clear` look, or else the code's count if it isn't 0. Otherwise the code
    /// becomes a zombie. Refusals in this order: `Unknown`, `NotNotEntrant`.
    pub fn weigh(&mut self, serial: u64) -> Answer
        requires few { length self.old.places.items ≤ 64 }
        requires recorded { length self.old.records.items ≡ self.old.table.slots }
        ensures { Does (events.Weigh serial) self.old result self.new }
    {
        let code = match self.not_entrant(serial) {
            Ok(code) => code,
            Err(refusal) => return Answer::Refused(refusal),
        };
        if let Some(place) = self.records[code.slot as usize].unlooked(self.places.len()) {
            return Answer::NotLooked(place);
        }
        let count = self.index.count(code.slot as usize, serial);
        if count != 0 {
            return Answer::Used(count);
        }
        match self.table.retire(serial) {
            Ok(()) => Answer::Retired,
            Err(RetireFault::Unknown) => Answer::Refused(Refusal::Unknown),
            Err(RetireFault::NotNotEntrant) => Answer::Refused(Refusal::NotNotEntrant),
        }
    }

    /// Frees a zombie and its slot. Refusals in this order: `Unknown`, `NotZombie`.
    pub fn free(&mut self, serial: u64) -> Answer
        ensures { Does (events.Free serial) self.old result self.new }
    {
        match self.table.free(serial) {
            Ok(()) => Answer::Done,
            Err(FreeFault::Unknown) => Answer::Refused(Refusal::Unknown),
            Err(FreeFault::NotZombie) => Answer::Refused(Refusal::NotZombie),
        }
    }

    /// Answers how many frames of the code are published. Refused with `Unknown` for a freed code too.
    pub fn count(&self, serial: u64) -> Answer
        ensures { Does (events.Count serial) self.now result self.now }
    {
        match self.table.find(serial) {
            Some(code) => Answer::Count(self.index.count(code.slot as usize, serial)),
            None => Answer::Refused(Refusal::Unknown),
        }
    }

    /// Answers the code's state, also of a freed code. Refused with `Unknown` if the serial was never given out.
    pub fn code_state(&self, serial: u64) -> Answer
        ensures { Does (events.CodeState serial) self.now result self.now }
    {
        match self.table.state(serial) {
            Some(state) => Answer::State(state),
            None => Answer::Refused(Refusal::Unknown),
        }
    }

    /// Answers the method's code in use. Refused with `NoSuchMethod`.
    pub fn resolve(&self, method: u64) -> Answer
        ensures { Does (events.Resolve method) self.now result self.now }
    {
        if method >= self.table.methods() as u64 {
            return Answer::Refused(Refusal::NoSuchMethod);
        }
        match self.table.current(method) {
            Some(code) => Answer::Code(code.serial),
            None => Answer::NoCode,
        }
    }

    // The code of the serial if it is not entrant.
    fn not_entrant(&self, serial: u64) -> Result<Code, Refusal>
        ensures value { result ≡ not_entrant (unfreed self.now.table.codes serial) }
        ensures slot { IfOk result (λ code. code.slot < self.now.table.slots) }
    {
        let Some(code) = self.table.find(serial) else {
            return Err(Refusal::Unknown);
        };
        match code.state {
            CodeState::NotEntrant => Ok(code),
            CodeState::InUse | CodeState::Zombie | CodeState::Freed => Err(Refusal::NotNotEntrant),
        }
    }
}

// The place has no published stack, or the last ended publication began in a later moment.
fn is_clear(left: u64, place: &Option<Thread>) -> bool
    ensures { result ≡ is_clear left place.now }
{
    match place {
        None => true,
        Some(thread) => !thread.published || left < thread.moments.stored,
    }
}
