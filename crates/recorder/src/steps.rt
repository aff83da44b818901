//! The single steps of a coordinator, noted in its stream.
ghost use Rattle.std.specs.Prelude.{◌≡◌, ◌∷◌, [], true, false, ℕ, Some, None, IfOk, OnOk, IfErr};
ghost use Rattle.bodies.specs.Bodies.{BodyView};
ghost use Rattle.bodies.specs.Census.{IsCensus};
ghost use Rattle.desk.specs.declared.entries.Entry.{Entry};
ghost use Rattle.desk.specs.Machine.{State as DeskState};
ghost use Rattle.desk.specs.Refusals.{open_refused, MayOperate};
ghost use Rattle.stopped_threads.specs.Held.{StandsAt, AreEach, is_held};
ghost use Rattle.stopped_threads.specs.Holding.{ArmsOn};
ghost use Rattle.thread_list.specs.Moves.{IsOperated};
ghost use Rattle.coordinator.specs.Receipts.{Releases};
ghost use Rattle.coordinator.specs.Refused.{Serves};
ghost use Rattle.stopped_threads.specs.Refused.{Holds, HasNoHeld, IsServeFault, MayClose, census_refused, hold_refused, not_closed, serve_refused, tell_said};
ghost use Rattle.recorder.specs.Answers as answers;
ghost use Rattle.recorder.specs.Calls.{pairs};
ghost use Rattle.recorder.specs.Streams.{Adds, Notes, NotesRun};

use crate::answers::{closes, closes_of, holds, opens, operate_refusal, releases, serves, tells};
use crate::calls::census_numbers;
use crate::stream::Stream;
use berths::BodyReceipt;
use bodies::Name;
use call_log::word::Word;
use coordinator::Coordinator;
use desk::{CloseFault, Closing, OpenFault, Operating, Receipt};
use operations::job::HandshakeOp;
use std::sync::Wait;
use stopped_threads::{HoldFault, OperateFault, ReleaseFault, ServeFault, TellFault, Told};

impl<'a> Stream<'a> {
    /// Opens the oldest waiting request, as `Coordinator::open` does.
    pub fn open<N: Name, J: HandshakeOp, R: Wait>(
        &mut self,
        by: &mut Coordinator<'_, N, J>,
        rt: &R,
    ) -> Result<(u64, Receipt<N>), OpenFault>
        ensures noted { Notes self.old self.new Word.Open [] (Some (answers.opens result)) }
        ensures opened { IfOk result (λ r. r.1.entry ≡ Entry.Open r.0) }
        ensures refused { IfErr result (λ e. (s : DeskState) × open_refused s e) }
        ensures same { by.new ≡ by.old }
    {
        let begun = self.begin();
        let said = by.open(rt);
        self.note_short(begun, (Word::Open, &[]), Some(opens(&said)));
        said
    }

    /// Closes the oldest open request, as `Coordinator::close` does.
    pub fn close<N: Name, J: HandshakeOp, R: Wait>(
        &mut self,
        by: &mut Coordinator<'_, N, J>,
        rt: &R,
    ) -> Result<(u64, Closing<N>), CloseFault>
        ensures noted { Notes self.old self.new Word.Close [] (Some (answers.closes result)) }
        ensures closed { IfOk result (λ r. (r.1.stands.entry ≡ Entry.Close r.0)
            × MayClose by.old None r.0) }
        ensures oldest { IfOk result (λ r. r.1.oldest ≡ r.0) }
        ensures same { OnOk result (by.new ≡ record by.old { operated = false }) }
        ensures refused { IfErr result (λ e. not_closed by.old None e × (by.new ≡ by.old)) }
    {
        let begun = self.begin();
        let said = by.close(rt);
        self.note_short(begun, (Word::Close, &[]), Some(closes(&said)));
        said
    }

    /// Closes the open request with this number, as `Coordinator::close_of` does.
    pub fn close_of<N: Name, J: HandshakeOp, R: Wait>(
        &mut self,
        by: &mut Coordinator<'_, N, J>,
        rt: &R,
        number: u64,
    ) -> Result<Closing<N>, CloseFault>
        ensures noted { Notes self.old self.new Word.Close (number ∷ [])
            (Some (answers.closes_of number result)) }
        ensures closed { IfOk result (λ r. (r.stands.entry ≡ Entry.Close number)
            × MayClose by.old (Some number) number) }
        ensures same { OnOk result (by.new ≡ record by.old { operated = false }) }
        ensures refused { IfErr result (λ e. not_closed by.old (Some number) e
            × (by.new ≡ by.old)) }
    {
        let begun = self.begin();
        let said = by.close_of(rt, number);
        self.note_short(
            begun,
            (Word::Close, &[number]),
            Some(closes_of(number, &said)),
        );
        said
    }

    /// Arms the poll of the thread with this name, as `Coordinator::tell` does.
    pub fn tell<N: Name, J: HandshakeOp, R: Wait>(
        &mut self,
        by: &mut Coordinator<'_, N, J>,
        rt: &R,
        name: u64,
    ) -> Result<Told<N>, TellFault>
        ensures noted { Notes self.old self.new Word.Tell (name ∷ [])
            (Some (answers.tells result)) }
        ensures said { tell_said name by.old.armer by.new.armer result }
        ensures held { (by.new.held ≡ by.old.held) × (by.new.operated ≡ by.old.operated) }
        ensures arms { ArmsOn by.old.armer by.new.armer }
    {
        let begun = self.begin();
        let said = by.tell(rt, name);
        self.note_short(begun, (Word::Tell, &[name]), Some(tells(&said)));
        said
    }

    /// Holds the thread of a place, as `Coordinator::hold` does.
    pub fn hold<N: Name, J: HandshakeOp, R: Wait>(
        &mut self,
        by: &mut Coordinator<'_, N, J>,
        rt: &R,
        place: usize,
    ) -> Result<BodyReceipt<N>, HoldFault>
        ensures noted { Notes self.old self.new Word.Hold (place ∷ [])
            (Some (answers.holds result)) }
        ensures held { IfOk result (Holds by.old by.new place) }
        ensures refused { IfErr result (λ e. hold_refused by.old N.board.places place e
            × (by.new ≡ by.old)) }
    {
        let begun = self.begin();
        let said = by.hold(rt, place);
        self.note_short(begun, (Word::Hold, &[place as u64]), Some(holds(&said)));
        said
    }

    /// Gives the body of a held thread back, as `Coordinator::release` does.
    pub fn release<N: Name, J: HandshakeOp, R: Wait>(
        &mut self,
        by: &mut Coordinator<'_, N, J>,
        rt: &R,
        place: usize,
    ) -> Result<BodyReceipt<N>, ReleaseFault>
        ensures noted { Notes self.old self.new Word.Release (place ∷ [])
            (Some (answers.releases result)) }
        ensures released { IfOk result (Releases by.old by.new place) }
        ensures refused { IfErr result (λ e. (is_held place by.old.held ≡ false)
            × HasNoHeld N.board.places place e × (by.new ≡ by.old)) }
    {
        let begun = self.begin();
        let said = by.release(rt, place);
        self.note_short(
            begun,
            (Word::Release, &[place as u64]),
            Some(releases(&said)),
        );
        said
    }

    /// Serves the held thread of a place, as `Coordinator::serve` does.
    pub fn serve<N: Name, J: HandshakeOp, R: Wait>(
        &mut self,
        by: &mut Coordinator<'_, N, J>,
        rt: &R,
        place: usize,
    ) -> Result<Receipt<N>, ServeFault>
        ensures noted { NotesRun self.old self.new Word.Serve (place ∷ [])
            (Some (answers.serves result)) }
        ensures served { IfOk result (λ r. (index : ℕ) × (body : BodyView)
            × StandsAt by.old.held index place body × IsServeFault by.old index place None
            × Serves J.number J.whom J.asks J.may_answer by.old by.new index r) }
        ensures refused { IfErr result (λ e. serve_refused by.old N.board.places place e
            × (by.new ≡ by.old)) }
    {
        let begun = self.begin();
        let said = by.serve(rt, place);
        let called = (Word::Serve, &[place as u64][..]);
        self.note_run_short(rt, begun, called, Some(serves(&said)));
        said
    }

    /// Operates the open census, as `Coordinator::operate` does.
    pub fn operate<N: Name, J: HandshakeOp, R: Wait>(
        &mut self,
        by: &mut Coordinator<'_, N, J>,
        rt: &R,
    ) -> Result<(u64, Vec<(u64, u32)>, Operating<N>), OperateFault>
        ensures noted { IfOk result (λ r. Adds self.old self.new Word.Operate [] Word.Census
            (r.0 ∷ pairs r.1.items) []) }
        ensures refusal { IfErr result (λ e. Notes self.old self.new Word.Operate []
            (answers.operate_refusal e)) }

        ensures operated { IfOk result (λ r. r.2.stands.entry ≡ Entry.Operate r.0) }
        ensures shown { IfOk result (λ r. r.2.list ≡ r.1.items) }
        ensures all { OnOk result ((s : DeskState) × MayOperate s by.old.held) }
        ensures counted { IfOk result (λ r. IsCensus by.new.held r.1.items) }
        ensures before { IfOk result (λ r. IsCensus by.old.held r.1.items) }
        ensures held { IfOk result (λ r. AreEach (IsOperated r.0) by.old.held by.new.held) }
        ensures others { OnOk result ((by.new.armer ≡ by.old.armer)
            × (by.new.operated ≡ true)) }

        ensures refused { IfErr result (λ e. (s : DeskState) × census_refused s by.old.held e
            × (by.new ≡ by.old)) }
    {
        let begun = self.begin();
        match by.operate(rt) {
            Ok((number, list, receipt)) => {
                let none = Vec::new(self.alloc);
                match census_numbers(self.alloc, number, list.as_slice()) {
                    Ok(numbers) => {
                        let said = (Word::Census, numbers.as_slice());
                        self.note(begun, (Word::Operate, &[]), said, none)
                    }
                    Err(_) => self.lose(),
                }
                Ok((number, list, receipt))
            }
            Err(fault) => {
                self.note_short(begun, (Word::Operate, &[]), operate_refusal(fault));
                Err(fault)
            }
        }
    }
}
