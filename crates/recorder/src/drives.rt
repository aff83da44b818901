//! A coordinator drives requests to their Close and reclaims codes. The stream notes these calls with the jobs that ran in them.
ghost use Rattle.std.specs.Prelude.{◌≡◌, ◌<◌, ◌∷◌, [], false, IfOk, OnOk, IfErr, IfSome, length};
ghost use Rattle.desk.specs.declared.entries.Entry.{Entry};
ghost use Rattle.desk.specs.JobsFit.{request_of};
ghost use Rattle.coordinator.specs.Driving.{number_of, IsWorked, IsListed, drive_refused};
ghost use Rattle.coordinator.specs.Refused.{not_reclaimed};
ghost use Rattle.coordinator.specs.Rounds.{Shaking, Shakes, IsReclaimedBehind};
ghost use Rattle.stopped_threads.specs.Holding.{ArmsOn};
ghost use Rattle.stopped_threads.specs.Reclaiming.{IsReclaimed};
ghost use Rattle.recorder.specs.Answers as answers;
ghost use Rattle.recorder.specs.Calls as calls;
ghost use Rattle.recorder.specs.Drives.{drive_refusal, drove, drove_numbers, NotesRefused};
ghost use Rattle.recorder.specs.Streams.{AddsRun, NotesRun};

use crate::answers::reclaims;
use crate::calls::{census_numbers, reclaim_numbers, reclaim_word};
use crate::short::{Short, only};
use crate::stream::{Begun, Stream};
use bodies::Name;
use call_log::word::Word;
use coordinator::{Coordinator, DriveFault, Driven, Worked};
use desk::NotReclaimed;
use operations::job::HandshakeOp;
use std::sync::Wait;
use stopped_threads::Reclaimed;

// The answer of a drive that is refused; None if memory was refused.
fn drive_refusal(fault: DriveFault) -> Option<Short>
    ensures { result ≡ drive_refusal fault }
{
    match fault {
        DriveFault::QueueEmpty => Some(only(Word::QueueEmpty)),
        DriveFault::NoMemory => None,
    }
}

impl<'a> Stream<'a> {
    // Notes a request that was driven to its Close, with the jobs that ran.
    fn note_driven<R: Wait>(&mut self, rt: &R, begun: Begun, driven: &Driven)
        requires { IfSome begun.before (λ t. self.old.last < t) }
        ensures { AddsRun self.old self.new Word.Drive [] (drove driven.now)
            (drove_numbers driven.now) }
    {
        let called = (Word::Drive, &[][..]);
        match driven {
            Driven::Handshake(number) => {
                self.note_run(rt, begun, called, (Word::Handshake, &[*number]))
            }
            Driven::Census(number, list) => {
                match census_numbers(self.alloc, *number, list.as_slice()) {
                    Ok(numbers) => {
                        self.note_run(rt, begun, called, (Word::Census, numbers.as_slice()))
                    }
                    Err(_) => self.lose(),
                }
            }
        }
    }

    // Notes a refused drive. If memory was refused the stream is lost, since a census may be open.
    fn note_undriven(&mut self, begun: Begun, called: Word, fault: DriveFault)
        requires { IfSome begun.before (λ t. self.old.last < t) }
        ensures { NotesRefused self.old self.new called fault }
    {
        match drive_refusal(fault) {
            Some(said) => self.note_short(begun, (called, &[]), Some(said)),
            None => self.lose(),
        }
    }

    /// Drives the oldest request to its Close, as `Coordinator::drive` does.
    pub fn drive<N: Name, J: HandshakeOp, R: Wait>(
        &mut self,
        by: &mut Coordinator<'_, N, J>,
        rt: &R,
    ) -> Result<(Driven, Worked<N>), DriveFault>
        ensures noted { IfOk result (λ r. AddsRun self.old self.new Word.Drive [] (drove r.0)
            (drove_numbers r.0)) }
        ensures refusal { IfErr result (NotesRefused self.old self.new Word.Drive) }

        ensures closed { IfOk result (λ r. r.1.closing.stands.entry
            ≡ Entry.Close (number_of r.0)) }
        ensures worked { IfOk result (λ r. IsWorked r.0 r.1.closing) }
        ensures listed { IfOk result (λ r. IsListed by.old r.0 r.1) }
        ensures free { OnOk result ((by.new.held ≡ []) × (by.new.operated ≡ false)) }
        ensures refused { IfErr result (drive_refused by.old by.new) }
        ensures arms { ArmsOn by.old.armer by.new.armer }
    {
        let begun = self.begin();
        let said = by.drive(rt);
        match &said {
            Ok((driven, _)) => self.note_driven(rt, begun, driven),
            Err(fault) => self.note_undriven(begun, Word::Drive, *fault),
        }
        said
    }

    /// Drives up to four handshakes at once to their Close, as `Coordinator::drive_four` does.
    pub fn drive_four<N: Name, J: HandshakeOp, R: Wait>(
        &mut self,
        by: &mut Coordinator<'_, N, J>,
        rt: &R,
    ) -> Result<u32, DriveFault>
        ensures noted { IfOk result (λ count. AddsRun self.old self.new Word.DriveFour []
            Word.Closed (count ∷ [])) }
        ensures refusal { IfErr result (NotesRefused self.old self.new Word.DriveFour) }

        ensures free { OnOk result ((by.new.held ≡ []) × (by.new.operated ≡ false)) }
        ensures refused { IfErr result (drive_refused by.old by.new) }
        ensures arms { ArmsOn by.old.armer by.new.armer }
    {
        let begun = self.begin();
        let said = by.drive_four(rt);
        match said {
            Ok(count) => {
                let closed = (Word::Closed, &[count as u64][..]);
                self.note_run(rt, begun, (Word::DriveFour, &[]), closed)
            }
            Err(fault) => self.note_undriven(begun, Word::DriveFour, fault),
        }
        said
    }

    /// Reclaims a code, as `Coordinator::reclaim` does.
    pub fn reclaim<N: Name, J: HandshakeOp, R: Wait>(
        &mut self,
        by: &mut Coordinator<'_, N, J>,
        rt: &R,
        serial: u64,
        jobs: Vec<J>,
    ) -> Result<Reclaimed<N>, NotReclaimed<J>>
        ensures noted { NotesRun self.old self.new
            (calls.reclaim_word (request_of J.whom J.asks jobs.items))
            (serial ∷ calls.handshake_numbers (request_of J.whom J.asks jobs.items))
            (answers.reclaims result) }

        ensures reclaimed { IfOk result (IsReclaimed N.board.places serial) }
        ensures behind { IfOk result (λ said. (s : Shaking)
            × Shakes (request_of J.whom J.asks jobs.items) s
            × IsReclaimedBehind s.begun.asked N.board.places serial said) }
        ensures shaken { OnOk result (0 < length jobs.items → (by.new.held ≡ [])
            × (by.new.operated ≡ false)) }
        ensures alone { OnOk result (length jobs.items ≡ 0 → by.new ≡ by.old) }
        ensures arms { ArmsOn by.old.armer by.new.armer }

        ensures refused { IfErr result (λ e. not_reclaimed J.whom J.asks serial jobs.items e.fault
            × (by.new ≡ by.old)) }
        ensures handed_back { IfErr result (λ e. e.jobs ≡ jobs) }
    {
        let word = reclaim_word(jobs.as_slice());
        let numbers = reclaim_numbers(self.alloc, serial, jobs.as_slice());
        let begun = self.begin();
        let said = by.reclaim(rt, serial, jobs);
        match numbers {
            Ok(numbers) => {
                let called = (word, numbers.as_slice());
                self.note_run_short(rt, begun, called, reclaims(&said))
            }
            Err(_) => self.lose(),
        }
        said
    }
}
