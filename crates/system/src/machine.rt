// The system, which does events and answers them.
ghost use Rattle.std.specs.Prelude.{◌≡◌, ◌≤◌, ◌⊎◌, ℕ, List, [], ◌∷◌, ◌++◌, length, take, true, false, IfOk, IsOk, OnOk, OnErr, IfErr, IfSome, IfNone};
ghost use Rattle.system.specs.declared.events.Event.{Event as TheEvent};
ghost use Rattle.system.specs.declared.machine.NewFault.TheVariants as NewFaults;
ghost use Rattle.system.specs.declared.answers.Answer.TheVariants as Answers;
ghost use Rattle.system.specs.Laws.{AllHeldAreSafe, NoRetiredCodeStands};
ghost use Rattle.system.specs.Ran.{RunAtMostOnce};
ghost use Rattle.system.specs.Memory.{Accepts, NeedsMemory, StopsAt, copies_freely};
ghost use Rattle.system.specs.Runs.{answers};
ghost use Rattle.system.specs.Safepoints.{FinishesAtSafePoints, OperatesAtSafepoints};
ghost use Rattle.system.specs.Stands.{StandsFor, Next, SameSizes, Does, OfWorld, IsSized, are_sizes, places_of, slots_of, methods_of, world_by, takes_no_memory};

use crate::answers::{Answer, Refusal};
use crate::events::{Act, Event};
use crate::keeping::Core;
use crate::opens::Opens;
use crate::places::vacant_places;
use crate::records::blank_records;
use crate::requests::Requests;
use activation_index::dense::DenseIndex;
use method_table::table::MethodTable;
use operations::queue::Queue;
use std::alloc::{AllocError, Global};
use std::error::Error;
use std::fmt;
use std::marker::Model;

/// The coordinator's core. It does one event at a time and gives the answers of the definitions.
#[derive(Drop)]
pub struct System {
    core: Core,
}

impl Model for System {
    ghost use Rattle.std.specs.Prelude.{List};
    ghost use Rattle.system.specs.declared.events.Event.{Event as TheEvent};
    ghost use Rattle.system.specs.declared.keeping.Core.{Core as TheCore};
    ghost use Rattle.system.specs.Stands.{StandsFor, IsSized};

    ghost Value = { TheCore };

    ghost view = { λ s. s.core };

    ghost invariant = { λ s. (events : List TheEvent) × StandsFor s.core events × IsSized s.core };
}

/// Why a system isn't made.
#[derive(Clone, Copy, Debug, PartialEq, Eq, Drop)]
pub enum NewFault {
    /// A size is 0 or above its limit: 64 places, 1024 slots, 256 methods.
    BadSize,
    /// Memory was refused.
    NoMemory,
}

impl fmt::Display for NewFault {
    fn fmt<W: fmt::Write>(&self, f: &mut fmt::Formatter<W>) -> fmt::Result {
        f.write_str(match self {
            NewFault::BadSize => "a size is 0, or above its limit",
            NewFault::NoMemory => "there is no memory",
        })
    }
}

impl Error for NewFault {}

/// A run that stopped since memory was refused: for the event at this position or, at position 0, perhaps for the list
/// of answers. The events before the position are done and answered, and no others.
#[derive(Debug, Drop)]
pub struct Stopped {
    pub answers: Vec<Answer>,
    pub at: usize,
}

impl System {
    /// Makes a system with vacant places, no codes and no requests.
    ///
    /// # Errors
    /// `BadSize`, then `NoMemory`.
    pub fn new(
        alloc: Global,
        places: usize,
        slots: usize,
        methods: usize,
    ) -> Result<System, NewFault>
        ensures stands { IfOk result (λ system. StandsFor system [] × (places_of system ≡ places)
            × (slots_of system ≡ slots) × (methods_of system ≡ methods)) }
        ensures sized { OnOk result (are_sizes places slots methods ≡ true) }
        ensures bad_size { IfErr result (λ fault. fault ≡ NewFaults.BadSize
            → are_sizes places slots methods ≡ false) }
        ensures no_memory { IfErr result (λ fault. fault ≡ NewFaults.NoMemory
            → are_sizes places slots methods ≡ true) }
    {
        if !are_sizes(places, slots, methods) {
            return Err(NewFault::BadSize);
        }
        match new_core(alloc, places, slots, methods) {
            Ok(core) => Ok(System { core }),
            Err(_) => Err(NewFault::NoMemory),
        }
    }

    /// Does the event and returns its answer. A refused event changes nothing, and its answer names the refusal.
    ///
    /// # Errors
    /// Memory is refused, and nothing is done. Only Start, Install, Ask, Operate and Stack need memory, and only if
    /// they would be accepted.
    pub fn apply(&mut self, alloc: Global, event: Event) -> Result<Answer, AllocError>
        ensures answered { IfOk result (λ answer. Next self.old event answer self.new) }
        ensures refused { OnErr result (self.new ≡ self.old) }
        ensures no_memory { (before : List TheEvent) → StandsFor self.old before
            → OnErr result (NeedsMemory (world_by self.old before) event) }
        ensures sizes { SameSizes self.old self.new }
        ensures succeeds { takes_no_memory event ≡ true → IsOk result }
    {
        apply_to(&mut self.core, alloc, event)
    }

    /// Does the events in order and returns their answers. Memory for the answers is reserved first.
    ///
    /// # Errors
    /// `Stopped`: memory is refused for the answers, and nothing is done; or for an event that needs memory and would
    /// be accepted, and the events before it are done.
    ///
    /// # Example
    /// `system.run(alloc, &[Event::Start, Event::Install(0), Event::Count(1)])` on a new system returns `Thread(1, 0)`,
    /// `Code(1)` and `Count(0)`: the thread 1 at place 0, the code of serial 1, and no frames of it.
    pub fn run(&mut self, alloc: Global, events: &[Event]) -> Result<Vec<Answer>, Stopped>
        ensures answered { (before : List TheEvent) → StandsFor self.old before →
            IfOk result (λ said. (said.items ≡ answers (world_by self.old before) events.now)
            × StandsFor self.new (before ++ events.now)) }
        ensures stopped { (before : List TheEvent) → StandsFor self.old before →
            IfErr result (λ stop. (stop.at ≤ length events.now)
            × (stop.answers.items ≡ answers (world_by self.old before) (take stop.at events.now))
            × StandsFor self.new (before ++ take stop.at events.now)) }
        ensures no_memory { (before : List TheEvent) → StandsFor self.old before →
            IfErr result (λ stop. ((stop.at ≡ 0) × (self.new ≡ self.old))
            ⊎ StopsAt (world_by self.old before) events.now stop.at) }
        ensures sizes { SameSizes self.old self.new }

        ensures once { (all : List TheEvent) → StandsFor self.new all
            → RunAtMostOnce (places_of self.new) (slots_of self.new) (methods_of self.new) all }
        ensures handshakes { (all : List TheEvent) → StandsFor self.new all
            → FinishesAtSafePoints (places_of self.new) (slots_of self.new) (methods_of self.new)
            all }
        ensures safepoints { (all : List TheEvent) → StandsFor self.new all
            → OperatesAtSafepoints (places_of self.new) (slots_of self.new) (methods_of self.new)
            all }
        ensures held { (all : List TheEvent) → StandsFor self.new all
            → AllHeldAreSafe (world_by self.new all) }
        ensures reclaimed { (all : List TheEvent) → StandsFor self.new all
            → NoRetiredCodeStands (world_by self.new all) }
    {
        let mut said = Vec::new(alloc);
        if said.reserve(events.len()).is_err() {
            return Err(Stopped {
                answers: said,
                at: 0,
            });
        }
        for (at, event) in events.iter().enumerate() {
            match self.apply_copy(alloc, event) {
                Ok(answer) => said.push_reserved(answer),
                Err(_) => return Err(Stopped { answers: said, at }),
            }
        }
        Ok(said)
    }

    // Does a borrowed event. The event is copied only if it isn't refused.
    fn apply_copy(&mut self, alloc: Global, event: &Event) -> Result<Answer, AllocError>
        ensures answered { IfOk result (λ answer. Next self.old event.now answer self.new) }
        ensures refused { OnErr result (self.new ≡ self.old) }
        ensures no_memory { (before : List TheEvent) → StandsFor self.old before
            → OnErr result (NeedsMemory (world_by self.old before) event.now) }
        ensures sizes { SameSizes self.old self.new }
    {
        if let Some(refusal) = refusal_before_copy(&self.core, event) {
            return Ok(Answer::Refused(refusal));
        }
        let copy = event.copied(alloc)?;
        self.apply(alloc, copy)
    }
}

fn are_sizes(places: usize, slots: usize, methods: usize) -> bool
    ensures { result ≡ are_sizes places slots methods }
{
    1 <= places && places <= 64 && 1 <= slots && slots <= 1024 && 1 <= methods && methods <= 256
}

// The state of a new system of these sizes.
fn new_core(alloc: Global, places: usize, slots: usize, methods: usize) -> Result<Core, AllocError>
    requires { are_sizes places slots methods ≡ true }
    ensures { IfOk result (λ core. StandsFor core [] × (places_of core ≡ places)
        × (slots_of core ≡ slots) × (methods_of core ≡ methods)) }
{
    Ok(Core {
        places: vacant_places(alloc, places)?,
        table: MethodTable::new(alloc, slots as u32, methods as u32)?,
        records: blank_records(alloc, slots)?,
        index: DenseIndex::new(alloc, slots)?,
        names: 0,
        moment: 1,
        requests: Requests {
            numbers: 0,
            waiting: Queue::new(alloc),
            opens: Opens::new(alloc)?,
        },
    })
}

// The refusal of an event whose copy needs memory.
fn refusal_before_copy(core: &Core, event: &Event) -> Option<Refusal>
    ensures refused { IfSome result
        (λ refusal. Does event.now core.now (Answers.Refused refusal) core.now) }
    ensures none { IfNone result ((copies_freely event.now ≡ true) ⊎ Accepts core.now event.now) }
{
    match event {
        Event::Ask(request) => core.ask_refusal(request),
        _ => None,
    }
}

fn apply_to(core: &mut Core, alloc: Global, event: Event) -> Result<Answer, AllocError>
    requires world { OfWorld core.old }
    requires sized { IsSized core.old }

    ensures does { IfOk result (λ answer. Does event core.old answer core.new) }
    ensures refused { OnErr result (core.new ≡ core.old) }
    ensures no_memory { OnErr result (Accepts core.old event) }
    ensures succeeds { takes_no_memory event ≡ true → IsOk result }
{
    match event {
        Event::At(place, Act::Change) => Ok(core.change(place)),
        Event::At(place, Act::Exit) => Ok(core.exit(place)),
        Event::At(place, Act::Stack) => core.stack(alloc, place),
        Event::At(place, act) => Ok(core.act(place, act)),
        Event::Start => core.start(alloc),
        Event::Install(method) => core.install(method),
        Event::Invalidate(serial) => Ok(core.invalidate(serial)),
        Event::Round => Ok(core.round()),
        Event::Look(serial, place) => Ok(core.look(serial, place)),
        Event::Weigh(serial) => Ok(core.weigh(serial)),
        Event::Free(serial) => Ok(core.free(serial)),
        Event::Ask(request) => core.ask(request),
        Event::Open => Ok(core.open_next()),
        Event::Tell(name) => Ok(core.tell(name)),
        Event::Operate => core.operate(alloc),
        Event::Close(number) => Ok(core.close(number)),
        Event::Count(serial) => Ok(core.count(serial)),
        Event::CodeState(serial) => Ok(core.code_state(serial)),
        Event::Resolve(method) => Ok(core.resolve(method)),
    }
}
