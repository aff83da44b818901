// The core, stepped by lines of text.
ghost use Rattle.std.specs.Prelude.{◌≡◌, ◌≤◌, ◌<◌, ◌^◌, true, false, Option, Some, None, IfOk, IfErr, OnOk, OnErr, is_some, length, take, drop};
ghost use Rattle.system.specs.World.{World, start_world};
ghost use Rattle.system.specs.Stands.{are_sizes};
ghost use Rattle.system.specs.declared.machine.NewFault.TheVariants as NewFaults;
ghost use Rattle.replay.specs.Room.{LineTakes};
ghost use Rattle.replay.specs.Text.{IsAt};
ghost use Rattle.model.specs.Stepped.{Answered, Plays, Kept, Gives, NeedsRoom, WhyWaits, WhyUnknown, taken};

use crate::writing::{write_into, write_text};
use replay::engine::{Reply, obey};
use replay::grammar::parse;
use std::alloc::{AllocError, Global};
use std::marker::Model;
use system::{NewFault, System};

/// Room for the text of each answer that is no list, with its newline.
const SHORT: usize = 128;

/// A model of a runtime: it plays the lines of a run one after another, and answers each.
#[derive(Drop)]
pub struct LineModel {
    system: Option<System>,
    text: Vec<u8>,
    waits: Option<Reply>,
}

impl Model for LineModel {
    ghost use Rattle.std.specs.Prelude.{◌≤◌, vec_capacity};
    ghost use Rattle.model.specs.Stepped.{Stepped};

    ghost Value = { Stepped };

    ghost view = { λ m. record { system = m.system; waits = m.waits } };

    ghost invariant = { λ m. 128 ≤ vec_capacity m.text };
}

/// Why a line has no answer yet.
#[derive(Clone, Copy, Debug, PartialEq, Eq, Drop)]
pub enum LineFault {
    /// Memory was refused. The line wasn't played, and nothing changed.
    NoMemory,
    /// The answer to an earlier line waits. The line wasn't played, and nothing changed.
    AnswerWaits,
    /// The line was played. Its answer has this many bytes, more than there is room for, and waits.
    TooLong(usize),
    /// The line was played. Its answer is a list, memory for its text was refused, and it waits.
    Unwritten,
}

/// Why the answer that waits isn't given.
#[derive(Clone, Copy, Debug, PartialEq, Eq, Drop)]
pub enum AnswerFault {
    /// No answer waits.
    NothingWaits,
    /// The answer has this many bytes, more than there is room for. It waits on.
    TooLong(usize),
    /// The answer is a list, and memory for its text was refused. It waits on.
    Unwritten,
}

impl LineModel {
    /// A model of these sizes, on which no line was played yet: `size` makes the same one.
    pub fn new(
        alloc: Global,
        places: usize,
        slots: usize,
        methods: usize,
    ) -> Result<LineModel, NewFault>
        ensures stands { IfOk result
            (λ model. IsAt model.system (Some (start_world places slots methods))) }
        ensures nothing_waits { IfOk result (λ model. model.waits ≡ None) }
        ensures sized { OnOk result (are_sizes places slots methods ≡ true) }
        ensures bad_size { IfErr result (λ fault. fault ≡ NewFaults.BadSize
            → are_sizes places slots methods ≡ false) }
        ensures no_memory { IfErr result (λ fault. fault ≡ NewFaults.NoMemory
            → are_sizes places slots methods ≡ true) }
    {
        let system = System::new(alloc, places, slots, methods)?;
        match Vec::with_capacity(alloc, SHORT) {
            Ok(text) => Ok(LineModel {
                system: Some(system),
                text,
                waits: None,
            }),
            Err(_) => Err(NewFault::NoMemory),
        }
    }

    /// Plays a line, and puts its answer, without a newline, at the front of the room. Returns the answer's length.
    pub fn line(
        &mut self,
        alloc: Global,
        line: &[u8],
        answer: &mut [u8],
    ) -> Result<usize, LineFault>
        ensures answered { IfOk result
            (λ n. Answered self.old line.now (take n answer.new) self.new) }
        ensures room { IfOk result (λ n. n ≤ length answer.new) }
        ensures behind { IfOk result (λ n. drop n answer.new ≡ drop n answer.old) }
        ensures kept { IfErr result
            (λ fault. Kept fault self.old line.now (length answer.old) self.new) }
        ensures unwritten { OnErr result (answer.new ≡ answer.old) }
    {
        if self.has_answer() {
            return Err(LineFault::AnswerWaits);
        }
        match self.play(alloc, line) {
            Ok(()) => {}
            Err(_) => return Err(LineFault::NoMemory),
        }
        match self.take_answer(answer) {
            Ok(n) => Ok(n),
            Err(AnswerFault::TooLong(n)) => Err(LineFault::TooLong(n)),
            Err(AnswerFault::Unwritten) => Err(LineFault::Unwritten),
            Err(AnswerFault::NothingWaits) => unreachable!(),
        }
    }

    /// Puts the answer that waits, without a newline, at the front of the room. Returns its length; the answer waits no more.
    pub fn take_answer(&mut self, answer: &mut [u8]) -> Result<usize, AnswerFault>
        ensures given { IfOk result (λ n. Gives self.old.waits (take n answer.new)) }
        ensures taken { OnOk result (self.new ≡ taken self.old) }
        ensures room { IfOk result (λ n. n ≤ length answer.new) }
        ensures behind { IfOk result (λ n. drop n answer.new ≡ drop n answer.old) }

        ensures why { IfErr result (λ fault. WhyWaits fault self.old.waits (length answer.old)) }
        ensures kept { OnErr result (self.new ≡ self.old) }
        ensures unwritten { OnErr result (answer.new ≡ answer.old) }
    {
        let n = match &self.waits {
            None => return Err(AnswerFault::NothingWaits),
            Some(said) => write_into(&mut self.text, said, answer)?,
        };
        self.waits = None;
        Ok(n)
    }

    /// The length of the answer that waits. It waits on.
    pub fn needs(&mut self) -> Result<usize, AnswerFault>
        ensures length { IfOk result (λ n. NeedsRoom self.old.waits n) }
        ensures small { IfOk result (λ n. n < 2 ^ 63) }
        ensures why { IfErr result (λ fault. WhyUnknown fault self.old.waits) }
        ensures kept { self.new ≡ self.old }
    {
        match &self.waits {
            None => Err(AnswerFault::NothingWaits),
            Some(said) => write_text(&mut self.text, said),
        }
    }

    // Whether an answer waits.
    fn has_answer(&self) -> bool
        ensures { result ≡ is_some self.now.waits }
    {
        self.waits.is_some()
    }

    // Plays a line, and keeps its reply.
    fn play(&mut self, alloc: Global, line: &[u8]) -> Result<(), AllocError>
        requires none_waits { is_some self.old.waits ≡ false }
        ensures played { OnOk result (Plays self.old line.now self.new) }
        ensures kept { OnErr result (self.new ≡ self.old) }
        ensures no_memory { (world : Option World) → IsAt self.old.system world
            → OnErr result (LineTakes world line.now) }
    {
        let command = parse(alloc, line)?;
        let said = obey(&mut self.system, alloc, command)?;
        self.waits = Some(said);
        Ok(())
    }
}
