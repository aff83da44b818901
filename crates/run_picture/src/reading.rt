// Turns bytes into a run: cuts them into lines, and lets the core do and answer each line, as `monitor replay` does.
ghost use Rattle.std.specs.Prelude.{◌≡◌, ◌<◌, ◌≤◌, ◌+◌, ◌^◌, ◌∷◌, [], None, length, vec_len, IfOk, OnOk};
ghost use Rattle.run_picture.specs.Runs.{seen, shown_by};
ghost use Rattle.run_picture.specs.Reading.{Read, Noted, Finished, Marked, FailedReads};

use crate::part::Part;
use crate::run::Run;
use crate::shapes::deed_of;
use replay::device::Source;
use replay::engine::obey;
use replay::grammar::parse;
use replay::held::Held;
use replay::stream::ReplayFault;
use run_lanes::subject::Subject;
use std::alloc::{AllocError, Global};
use system::System;

/// How many bytes are read at a time.
const BLOCK: usize = 65_536;

/// The greatest number of reads in one call.
const READS: u64 = 1_099_511_627_775;

/// A run that is being read: the core, the part that matters of the line whose end wasn't read yet, and the run before that line.
#[derive(Drop)]
struct Reading {
    system: Option<System>,
    held: Held,
    run: Run,
}

impl Reading {
    fn new(alloc: Global, part: Part) -> Reading
        ensures system { result.system ≡ None }
        ensures held { result.held ≡ [] }
        ensures part { result.run.part ≡ part }
        ensures lines { result.run.lines ≡ 0 }
        ensures marks { result.run.marks.items ≡ [] }
    {
        Reading {
            system: None,
            held: Held::new(),
            run: Run::new(alloc, part),
        }
    }

    /// Takes one more byte.
    fn take(&mut self, alloc: Global, byte: u8) -> Result<(), AllocError>
        requires few { self.old.run.lines < 2 ^ 62 }
        ensures read { OnOk result (Read self.old.system self.old.held (seen self.old.run) (byte
            ∷ []) self.new.system self.new.held (seen self.new.run)) }
        ensures few { OnOk result (self.new.run.lines ≤ self.old.run.lines + 1) }
    {
        if byte == b'\n' {
            self.end_line(alloc)?;
            return Ok(());
        }
        self.held.add(&[byte]);
        Ok(())
    }

    /// Ends the held line.
    fn end_line(&mut self, alloc: Global) -> Result<(), AllocError>
        requires few { self.old.run.lines < 2 ^ 62 }
        ensures noted { OnOk result
            (Noted self.old.system self.old.held (seen self.old.run) self.new.system
            (seen self.new.run)) }
        ensures held { OnOk result (self.new.held ≡ []) }
        ensures lines { OnOk result (self.new.run.lines ≡ self.old.run.lines + 1) }
    {
        let command = parse(alloc, self.held.as_slice())?;
        let deed = deed_of(&command);
        let subject = Subject::of(alloc, &command)?;
        let reply = obey(&mut self.system, alloc, command)?;
        self.run
            .note(alloc, self.held.as_slice(), deed, subject, &reply)?;
        self.held.clear();
        Ok(())
    }

    /// Takes the bytes, one after another.
    fn take_all(&mut self, alloc: Global, bytes: &[u8]) -> Result<(), AllocError>
        requires few { self.old.run.lines + length bytes.now < 2 ^ 62 }
        ensures read { OnOk result
            (Read self.old.system self.old.held (seen self.old.run) bytes.now self.new.system
            self.new.held (seen self.new.run)) }
        ensures few { OnOk result (self.new.run.lines ≤ self.old.run.lines + length bytes.now) }
    {
        for byte in bytes {
            self.take(alloc, *byte)?;
        }
        Ok(())
    }

    /// Ends the input. A last line without a newline is a line too.
    fn finish(mut self, alloc: Global) -> Result<Run, AllocError>
        requires few { self.run.lines < 2 ^ 62 }
        ensures { IfOk result (λ run. Finished self.system self.held (seen self.run) (seen run)) }
    {
        if self.held.is_empty() {
            return Ok(self.run);
        }
        self.end_line(alloc)?;
        Ok(self.run)
    }
}

/// Reads the source to its end, and keeps the marks of a part. Only the beginning of a line that is too long is kept.
pub fn read_run<R: Source>(alloc: Global, source: &mut R, part: Part) -> Result<Run, ReplayFault>
    requires source { R.failures source.old ≡ 0 }
    requires unread { R.reads source.old ≡ 0 }
    ensures marked { IfOk result
        (λ run. Marked (R.left source.old) (R.left source.new) part (shown_by run.marks.items)) }
    ensures failed { FailedReads result (R.reads source.new) (R.failures source.new) }
{
    let Ok(mut block) = new_block(alloc) else {
        return Err(ReplayFault::NoMemory);
    };
    let mut reading = Reading::new(alloc, part);
    for turn in 0..READS {
        let Ok(n) = source.read(&mut block) else {
            return Err(ReplayFault::ReadFailed);
        };
        if n == 0 {
            let Ok(run) = reading.finish(alloc) else {
                return Err(ReplayFault::NoMemory);
            };
            return Ok(run);
        }
        match reading.take_all(alloc, &block[..n]) {
            Ok(()) => {}
            Err(_) => return Err(ReplayFault::NoMemory),
        }
    }
    Err(ReplayFault::ReadFailed)
}

fn new_block(alloc: Global) -> Result<Vec<u8>, AllocError>
    ensures { IfOk result (λ block. vec_len block ≡ 65536) }
{
    Ok(vec![in alloc; 0u8; BLOCK]?)
}
