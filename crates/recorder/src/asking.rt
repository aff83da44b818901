//! The calls that any thread may make on shared state, noted in its stream.
ghost use Rattle.std.specs.Prelude.{◌≡◌, ◌∷◌, [], ℕ, Some, IfOk, IfErr, OnErr};
ghost use Rattle.desk.specs.declared.entries.Entry.{Entry};
ghost use Rattle.desk.specs.Machine.{State as DeskState, Book};
ghost use Rattle.desk.specs.JobsFit.{jobs_fit};
ghost use Rattle.desk.specs.Rising.{AreRising};
ghost use Rattle.desk.specs.Refusals.{ask_refused, install_refused};
ghost use Rattle.method_table.specs.Codes.{unfreed};
ghost use Rattle.method_table.specs.TableView.{invalidate_fault};
ghost use Rattle.thread_list.specs.Sharing.{AreLive, AreRepliesOf};
ghost use Rattle.recorder.specs.Answers as answers;
ghost use Rattle.recorder.specs.Calls as calls;
ghost use Rattle.recorder.specs.Streams.{Adds, Notes};

use crate::answers::{asks, installs, invalidates};
use crate::calls::{reply_numbers, request_numbers, submit_word};
use crate::stream::Stream;
use bodies::Name;
use call_log::word::Word;
use desk::{CodeFault, Receipt, Refused};
use method_table::table::InvalidateFault;
use operations::Request;
use operations::job::HandshakeOp;
use std::alloc::AllocError;
use std::sync::Wait;
use thread_list::Shared;

impl<'a> Stream<'a> {
    /// Submits a request, as `Shared::submit` does.
    pub fn submit<N: Name, J: HandshakeOp, R: Wait>(
        &mut self,
        shared: &Shared<N, J>,
        rt: &R,
        request: Request,
        jobs: Vec<J>,
    ) -> Result<(u64, Receipt<N>), Refused<J>>
        ensures noted { Notes self.old self.new (calls.submit_word request)
            (calls.request_numbers request) (answers.asks result) }
        ensures asked { IfOk result (λ r. r.1.entry ≡ Entry.Ask r.0 request) }
        ensures refused { IfErr result (λ e. (s : DeskState) × (book : Book)
            × ask_refused s request (jobs_fit J.whom J.asks request jobs.items) book e.fault) }
        ensures handed_back { IfErr result (λ e. e.jobs ≡ jobs) }
    {
        let word = submit_word(&request);
        let numbers = request_numbers(self.alloc, &request);
        let begun = self.begin();
        let said = shared.submit(rt, request, jobs);
        match numbers {
            Ok(numbers) => self.note_short(begun, (word, numbers.as_slice()), asks(&said)),
            Err(_) => self.lose(),
        }
        said
    }

    /// Installs a code for the method, as `Shared::install` does.
    pub fn install<N: Name, J: HandshakeOp, R: Wait>(
        &mut self,
        shared: &Shared<N, J>,
        rt: &R,
        method: u32,
    ) -> Result<(u64, Receipt<N>), CodeFault>
        ensures noted { Notes self.old self.new Word.Install (method ∷ [])
            (answers.installs result) }
        ensures installed { IfOk result (λ r. (slot : ℕ)
            × (r.1.entry ≡ Entry.Install (record { slot = slot; serial = r.0 }) method)) }
        ensures refused { IfErr result (λ e. (s : DeskState) × (book : Book)
            × install_refused s method book e) }
    {
        let begun = self.begin();
        let said = shared.install(rt, method);
        self.note_short(begun, (Word::Install, &[method as u64]), installs(&said));
        said
    }

    /// Invalidates the code of the serial, as `Shared::invalidate` does: no thread enters it any more.
    pub fn invalidate<N: Name, J: HandshakeOp, R: Wait>(
        &mut self,
        shared: &Shared<N, J>,
        rt: &R,
        serial: u64,
    ) -> Result<Receipt<N>, InvalidateFault>
        ensures noted { Notes self.old self.new Word.Invalidate (serial ∷ [])
            (Some (answers.invalidates result)) }
        ensures invalidated { IfOk result (λ r. r.entry ≡ Entry.Invalidate serial) }
        ensures refused { IfErr result (λ e. (s : DeskState)
            × (invalidate_fault (unfreed s.table.codes serial) ≡ Some e)) }
    {
        let begun = self.begin();
        let said = shared.invalidate(rt, serial);
        self.note_short(
            begun,
            (Word::Invalidate, &[serial]),
            Some(invalidates(&said)),
        );
        said
    }

    /// The names of the live threads, as `Shared::live` returns them.
    pub fn live<N: Name, J: HandshakeOp, R: Wait>(
        &mut self,
        shared: &Shared<N, J>,
        rt: &R,
    ) -> Result<Vec<u64>, AllocError>
        ensures noted { IfOk result (λ names.
            Adds self.old self.new Word.Live [] Word.Names names.items []) }
        ensures unnoted { OnErr result (self.new ≡ self.old) }
        ensures live { IfOk result (λ names. AreLive names.items) }
        ensures rising { IfOk result (λ names. AreRising 0 names.items) }
    {
        let begun = self.begin();
        let names = shared.live(rt)?;
        let none = Vec::new(self.alloc);
        self.note(
            begun,
            (Word::Live, &[]),
            (Word::Names, names.as_slice()),
            none,
        );
        Ok(names)
    }

    /// The names and replies of an operation, as `Shared::replies` returns them.
    pub fn replies<N: Name, J: HandshakeOp, R: Wait>(
        &mut self,
        shared: &Shared<N, J>,
        rt: &R,
        op: u64,
    ) -> Result<Vec<(u64, u64)>, AllocError>
        ensures noted { IfOk result (λ list. Adds self.old self.new Word.Replies (op ∷ [])
            Word.Replies (calls.pairs list.items) []) }
        ensures unnoted { OnErr result (self.new ≡ self.old) }
        ensures replies { IfOk result (λ list. AreRepliesOf op list.items) }
    {
        let begun = self.begin();
        let list = shared.replies(rt, op)?;
        let none = Vec::new(self.alloc);
        match reply_numbers(self.alloc, list.as_slice()) {
            Ok(numbers) => {
                let said = (Word::Replies, numbers.as_slice());
                self.note(begun, (Word::Replies, &[op]), said, none)
            }
            Err(_) => self.lose(),
        }
        Ok(list)
    }
}
