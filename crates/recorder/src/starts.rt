//! Threads start, stop and exit. Their streams note these calls with the jobs that the threads ran.
ghost use Rattle.std.specs.Prelude.{◌≡◌, ◌≢◌, ◌⊎◌, ◌<◌, ◌∷◌, [], true, Some, None, IfOk, IfErr, IfSome, IfNone};
ghost use Rattle.thread_state.specs.declared.Back.{Back as WayBack};
ghost use Rattle.thread_state.specs.declared.State.TheVariants.{InJava as IsInJava, AtPoll as IsAtPoll, Serving as IsServing};
ghost use Rattle.berths.specs.Berths.{moved, Went};
ghost use Rattle.berths.specs.declared.room.BodyAct.TheVariants.{Given as IsGivenAct};
ghost use Rattle.bodies.specs.Bodies.{BodyView};
ghost use Rattle.desk.specs.declared.entries.Entry.{Entry};
ghost use Rattle.desk.specs.Machine.{State as DeskState, Book};
ghost use Rattle.desk.specs.Refusals.{start_refused};
ghost use Rattle.thread_list.specs.declared.polls.Poll.TheVariants.{Go as GoesOn};
ghost use Rattle.thread_list.specs.Moves.{SameThread, IsStarted, IsTurn, ComesBack, IsVacated, IsKept, HasStopped, IsGivenUp, IsGivenUpAfter, first_of, is_running};
ghost use Rattle.thread_list.specs.Refused.{exit_refused, HasNoFrame};
ghost use Rattle.recorder.specs.Answers as answers;
ghost use Rattle.recorder.specs.Short.{values};
ghost use Rattle.recorder.specs.Streams.{Notes, AddsOwn};

use crate::answers::{exits, start_refusal, stops};
use crate::short::Short;
use crate::stream::{Begun, Stream};
use bodies::Name;
use call_log::word::Word;
use desk::{Receipt, StartFault};
use operations::job::HandshakeOp;
use std::alloc::Global;
use std::sync::Wait;
use thread_list::{ExitFault, Exited, Mutator, Shared, Turn};
use thread_state::State;

impl<'a> Stream<'a> {
    // Notes a call in which the thread of this name ran jobs on itself.
    fn note_ended<R: Wait>(
        &mut self,
        rt: &R,
        begun: Begun,
        called: (Word, u64),
        said: Short,
        name: u64,
    )
        requires { IfSome begun.before (λ t. self.old.last < t) }
        ensures { AddsOwn self.old self.new called.0 (called.1 ∷ []) said.word (values said) name }
    {
        let (word, place) = called;
        let called = (word, &[place][..]);
        match said.value {
            None => self.note_own(rt, begun, called, (said.word, &[]), name),
            Some(n) => self.note_own(rt, begun, called, (said.word, &[n]), name),
        }
    }

    /// Starts a thread in the least vacant place, as `Shared::start` does.
    pub fn start<'s, N: Name, J: HandshakeOp, R: Wait>(
        &mut self,
        shared: &'s Shared<N, J>,
        rt: &R,
        alloc: Global,
    ) -> Result<(Mutator<'s, N, J>, Receipt<N>), StartFault>
        ensures noted { IfOk result (λ r. AddsOwn self.old self.new Word.Start [] Word.Thread
            (r.0.name ∷ r.0.place ∷ []) r.0.name) }
        ensures refusal { IfErr result (λ e. Notes self.old self.new Word.Start []
            (answers.start_refusal e)) }

        ensures started { IfOk result (λ r. (r.0.state ≡ IsInJava)
            × (r.1.entry ≡ Entry.Start r.0.name r.0.place)) }
        ensures methods { IfOk result (λ r. r.0.methods ≡ shared.now.methods) }
        ensures goes_on { IfOk result (λ r. (body : BodyView) × (r.0.body ≡ Some body)
            × IsStarted r.0 body) }

        ensures refused { IfErr result (λ e. (s : DeskState) × (book : Book)
            × start_refused s N.board.places book e) }
    {
        let begun = self.begin();
        match shared.start(rt, alloc) {
            Ok((thread, receipt)) => {
                let name = thread.name();
                let numbers = [name, thread.place() as u64];
                let said = (Word::Thread, &numbers[..]);
                self.note_own(rt, begun, (Word::Start, &[]), said, name);
                Ok((thread, receipt))
            }
            Err(fault) => {
                self.note_short(begun, (Word::Start, &[]), start_refusal(fault));
                Err(fault)
            }
        }
    }

    /// Stops the thread after a poll that said so, as `Mutator::stop` does.
    pub fn stop<N: Name, J: HandshakeOp, R: Wait>(
        &mut self,
        thread: &mut Mutator<'_, N, J>,
        rt: &R,
    ) -> Result<Turn<N>, State>
        ensures noted { AddsOwn self.old self.new Word.Stop (thread.old.place ∷ [])
            (answers.stops result).word [] thread.old.name }

        ensures given { IfOk result (λ turn. (before : BodyView) × (thread.old.body ≡ Some before)
            × ((first_of turn.first turn.last).given ≡ moved before IsGivenAct)) }
        ensures ok { IfOk result (λ turn. (back : WayBack) × (after : BodyView)
            × (thread.old.state ≡ IsAtPoll back)
            × Went thread.old.place thread.old.name IsGivenAct turn.last.given
            × IsTurn thread.old.place thread.old.name turn.last.out turn.finish after
            × ComesBack after thread.new (IsServing back) GoesOn) }
        ensures same { SameThread thread.old thread.new }
        ensures err { IfErr result (λ s. (s ≡ thread.old.state) × ((back : WayBack)
            → s ≢ IsAtPoll back) × (thread.new ≡ thread.old)) }
    {
        let place = thread.place() as u64;
        let name = thread.name();
        let begun = self.begin();
        let said = thread.stop(rt);
        let word = stops(&said).word;
        self.note_own(rt, begun, (Word::Stop, &[place]), (word, &[]), name);
        said
    }

    /// Ends the thread, as `Mutator::exit` does.
    pub fn exit<'m, N: Name, J: HandshakeOp, R: Wait>(
        &mut self,
        thread: Mutator<'m, N, J>,
        rt: &R,
    ) -> Result<Exited<N>, (ExitFault, Mutator<'m, N, J>)>
        ensures noted { AddsOwn self.old self.new Word.Exit (thread.entry.place ∷ [])
            (answers.exits thread.entry.name result).word
            (values (answers.exits thread.entry.name result)) thread.entry.name }

        ensures exited { IfOk result (λ r. (r.exit.entry ≡ Entry.Exit thread.entry.name)
            × (is_running thread.entry.state ≡ true) × HasNoFrame thread.entry.body) }
        ensures vacated { IfOk result (λ r.
            IsVacated thread.entry.place thread.entry.name r.vacated) }
        ensures at_once { IfOk result (λ r.
            IfNone r.served (IsGivenUp thread.entry.body r.vacated)) }
        ensures first { IfOk result (λ r. IfSome r.served (λ turn.
            HasStopped thread.entry.body (first_of turn.first turn.last))) }
        ensures after { IfOk result (λ r. IfSome r.served (λ turn.
            IsGivenUpAfter thread.entry.place thread.entry.name turn.last turn.finish r.vacated)) }

        ensures refused { IfErr result (λ e.
            ((e.1 ≡ thread.entry) × exit_refused thread.entry e.0)
            ⊎ ((is_running thread.entry.state ≡ true) × HasNoFrame thread.entry.body
            × (e.0 ≡ ExitFault.StackNotEmpty) × (e.1.state ≡ IsInJava)
            × SameThread thread.entry e.1 × exit_refused e.1 e.0
            × IsKept thread.entry.place thread.entry.name e.1.crossed e.1.body)) }
    {
        let place = thread.place() as u64;
        let name = thread.name();
        let begun = self.begin();
        let said = thread.exit(rt);
        self.note_ended(rt, begun, (Word::Exit, place), exits(name, &said), name);
        said
    }
}
