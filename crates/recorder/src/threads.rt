//! The calls of a running thread, noted in its stream.
ghost use Rattle.std.specs.Prelude.{◌≡◌, ◌≢◌, ◌<◌, ◌∷◌, [], true, false, Some, None, IfOk, OnOk, IfErr, IfSome};
ghost use Rattle.thread_state.specs.declared.Back.{Back as WayBack};
ghost use Rattle.thread_state.specs.declared.State.TheVariants.{InJava as IsInJava, InVm as IsInVm, InNative as IsInNative, Blocked as IsBlocked, NativeTrans as IsNativeTrans, BlockedTrans as IsBlockedTrans};
ghost use Rattle.thread_state.specs.declared.Move.TheVariants as movement;
ghost use Rattle.thread_state.specs.States as table;
ghost use Rattle.bodies.specs.Bodies.{BodyView, IsPublished};
ghost use Rattle.thread_list.specs.Moves.{SameThread, Calls, Polls, Leaves, ComesBack, Gives, IsResumed, is_running};
ghost use Rattle.thread_list.specs.Refused.{call_accepted, call_refused, return_refused};
ghost use Rattle.recorder.specs.Answers as answers;
ghost use Rattle.recorder.specs.Calls.{called_with};
ghost use Rattle.recorder.specs.Streams.{Notes};

use crate::answers::{crosses, enters, leaves, moves};
use crate::short::Short;
use crate::stream::{Begun, Stream};
use bodies::{Called, Name};
use call_log::word::Word;
use frames::CodeId;
use operations::job::HandshakeOp;
use std::sync::Wait;
use thread_list::{CallFault, Mutator, Poll, ReturnFault};
use thread_state::State;

impl<'a> Stream<'a> {
    // Notes that the thread of the place called the method, with its hint if there is one.
    fn note_call(&mut self, begun: Begun, called: (u64, u32), hint: Option<CodeId>, said: Short)
        requires { IfSome begun.before (λ t. self.old.last < t) }
        ensures { Notes self.old self.new Word.Call (called_with called.0 called.1 hint)
            (Some said) }
    {
        let (place, method) = called;
        match hint {
            None => self.note_short(begun, (Word::Call, &[place, method as u64]), Some(said)),
            Some(code) => {
                let numbers = [place, method as u64, code.serial];
                self.note_short(begun, (Word::Call, &numbers), Some(said))
            }
        }
    }

    /// Enters a method, as `Mutator::call` does.
    pub fn call<N: Name, J: HandshakeOp>(
        &mut self,
        thread: &mut Mutator<'_, N, J>,
        method: u32,
        hint: Option<CodeId>,
    ) -> Result<Called, CallFault>
        requires slot { IfSome hint (λ c. c.slot < N.board.slots) }

        ensures noted { Notes self.old self.new Word.Call
            (called_with thread.old.place method hint) (Some (answers.enters result)) }
        ensures accepted { OnOk result (call_accepted thread.old method) }
        ensures step { IfOk result (Calls thread.old thread.new method hint) }
        ensures state { thread.new.state ≡ thread.old.state }
        ensures same { SameThread thread.old thread.new }

        ensures err { IfErr result (λ e. (thread.new ≡ thread.old)
            × call_refused thread.old method e) }
    {
        let place = thread.place() as u64;
        let begun = self.begin();
        let said = thread.call(method, hint);
        self.note_call(begun, (place, method), hint, enters(said));
        said
    }

    /// Returns from the method of the top frame and polls, as `Mutator::ret` does.
    pub fn ret<N: Name, J: HandshakeOp>(
        &mut self,
        thread: &mut Mutator<'_, N, J>,
    ) -> Result<Poll, ReturnFault>
        ensures noted { Notes self.old self.new Word.Ret (thread.old.place ∷ [])
            (Some (answers.leaves result)) }
        ensures accepted { OnOk result (thread.old.state ≡ IsInJava) }
        ensures left { IfOk result (Leaves thread.old thread.new) }
        ensures same { SameThread thread.old thread.new }
        ensures err { IfErr result (λ e. (thread.new ≡ thread.old)
            × return_refused thread.old e) }
    {
        let place = thread.place() as u64;
        let begun = self.begin();
        let said = thread.ret();
        self.note_short(begun, (Word::Ret, &[place]), Some(leaves(said)));
        said
    }

    /// Polls at the back edge of a loop, as `Mutator::back_edge` does.
    pub fn back_edge<N: Name, J: HandshakeOp>(
        &mut self,
        thread: &mut Mutator<'_, N, J>,
    ) -> Result<Poll, State>
        ensures noted { Notes self.old self.new Word.Edge (thread.old.place ∷ [])
            (Some (answers.crosses result)) }
        ensures ok { IfOk result (λ said. (thread.old.state ≡ IsInJava)
            × Polls thread.old thread.new IsInJava said) }
        ensures same { SameThread thread.old thread.new }
        ensures err { IfErr result (λ s. (s ≡ thread.old.state) × (s ≢ IsInJava)
            × (thread.new ≡ thread.old)) }
    {
        let place = thread.place() as u64;
        let begun = self.begin();
        let said = thread.back_edge();
        self.note_short(begun, (Word::Edge, &[place]), Some(crosses(said)));
        said
    }

    /// Publishes the stack, as `Mutator::publish` does.
    pub fn publish<N: Name, J: HandshakeOp>(
        &mut self,
        thread: &mut Mutator<'_, N, J>,
    ) -> Result<(), State>
        ensures noted { Notes self.old self.new Word.Publish (thread.old.place ∷ [])
            (Some (answers.moves result)) }
        ensures published { OnOk result ((old : BodyView) × (new : BodyView)
            × (thread.old.body ≡ Some old) × (thread.new.body ≡ Some new) × IsPublished old new) }
        ensures lawful { OnOk result (is_running thread.old.state ≡ true) }
        ensures state { thread.new.state ≡ thread.old.state }
        ensures same { SameThread thread.old thread.new }

        ensures err { IfErr result (λ s. (s ≡ thread.old.state) × (is_running s ≡ false)
            × (thread.new ≡ thread.old)) }
    {
        let place = thread.place() as u64;
        let begun = self.begin();
        let said = thread.publish();
        self.note_short(begun, (Word::Publish, &[place]), Some(moves(said)));
        said
    }

    /// Goes from Java into the VM, as `Mutator::to_vm` does.
    pub fn to_vm<N: Name, J: HandshakeOp>(
        &mut self,
        thread: &mut Mutator<'_, N, J>,
    ) -> Result<(), State>
        ensures noted { Notes self.old self.new Word.ToVm (thread.old.place ∷ [])
            (Some (answers.moves result)) }
        ensures ok { OnOk result ((thread.old.state ≡ IsInJava)
            × (thread.new ≡ record thread.old { state = IsInVm })) }
        ensures err { IfErr result (λ s. (s ≡ thread.old.state) × (s ≢ IsInJava)
            × (thread.new ≡ thread.old)) }
    {
        let place = thread.place() as u64;
        let begun = self.begin();
        let said = thread.to_vm();
        self.note_short(begun, (Word::ToVm, &[place]), Some(moves(said)));
        said
    }

    /// Returns from the VM into Java, as `Mutator::from_vm` does.
    pub fn from_vm<N: Name, J: HandshakeOp>(
        &mut self,
        thread: &mut Mutator<'_, N, J>,
    ) -> Result<Poll, State>
        ensures noted { Notes self.old self.new Word.FromVm (thread.old.place ∷ [])
            (Some (answers.crosses result)) }
        ensures ok { IfOk result (λ said. (thread.old.state ≡ IsInVm)
            × Polls thread.old thread.new IsInVm said) }
        ensures same { SameThread thread.old thread.new }
        ensures err { IfErr result (λ s. (s ≡ thread.old.state) × (s ≢ IsInVm)
            × (thread.new ≡ thread.old)) }
    {
        let place = thread.place() as u64;
        let begun = self.begin();
        let said = thread.from_vm();
        self.note_short(begun, (Word::FromVm, &[place]), Some(crosses(said)));
        said
    }

    /// Goes from Java or the VM into native code, as `Mutator::to_native` does.
    pub fn to_native<N: Name, J: HandshakeOp, R: Wait>(
        &mut self,
        thread: &mut Mutator<'_, N, J>,
        rt: &R,
    ) -> Result<(), State>
        ensures noted { Notes self.old self.new Word.ToNative (thread.old.place ∷ [])
            (Some (answers.moves result)) }
        ensures ok { OnOk result (table.step thread.old.state movement.ToNative
            ≡ Some thread.new.state) }
        ensures given { OnOk result (Gives thread.old thread.new) }
        ensures same { SameThread thread.old thread.new }
        ensures err { IfErr result (λ s. (s ≡ thread.old.state)
            × (table.step s movement.ToNative ≡ None) × (thread.new ≡ thread.old)) }
    {
        let place = thread.place() as u64;
        let begun = self.begin();
        let said = thread.to_native(rt);
        self.note_short(begun, (Word::ToNative, &[place]), Some(moves(said)));
        said
    }

    /// Returns from native code, as `Mutator::from_native` does.
    pub fn from_native<N: Name, J: HandshakeOp, R: Wait>(
        &mut self,
        thread: &mut Mutator<'_, N, J>,
        rt: &R,
    ) -> Result<Poll, State>
        ensures noted { Notes self.old self.new Word.FromNative (thread.old.place ∷ [])
            (Some (answers.crosses result)) }
        ensures ok { IfOk result (λ said. (back : WayBack) × (thread.old.state ≡ IsInNative back)
            × ComesBack thread.new.crossed.body thread.new (IsNativeTrans back) said) }
        ensures resumed { OnOk result (IsResumed thread.new) }
        ensures same { SameThread thread.old thread.new }
        ensures err { IfErr result (λ s. (s ≡ thread.old.state) × ((back : WayBack)
            → s ≢ IsInNative back) × (thread.new ≡ thread.old)) }
    {
        let place = thread.place() as u64;
        let begun = self.begin();
        let said = thread.from_native(rt);
        self.note_short(begun, (Word::FromNative, &[place]), Some(crosses(said)));
        said
    }

    /// Blocks in the VM, as `Mutator::block` does.
    pub fn block<N: Name, J: HandshakeOp, R: Wait>(
        &mut self,
        thread: &mut Mutator<'_, N, J>,
        rt: &R,
    ) -> Result<(), State>
        ensures noted { Notes self.old self.new Word.Block (thread.old.place ∷ [])
            (Some (answers.moves result)) }
        ensures ok { OnOk result ((thread.old.state ≡ IsInVm) × (thread.new.state ≡ IsBlocked)) }
        ensures given { OnOk result (Gives thread.old thread.new) }
        ensures same { SameThread thread.old thread.new }
        ensures err { IfErr result (λ s. (s ≡ thread.old.state) × (s ≢ IsInVm)
            × (thread.new ≡ thread.old)) }
    {
        let place = thread.place() as u64;
        let begun = self.begin();
        let said = thread.block(rt);
        self.note_short(begun, (Word::Block, &[place]), Some(moves(said)));
        said
    }

    /// Returns from a wait, as `Mutator::unblock` does.
    pub fn unblock<N: Name, J: HandshakeOp, R: Wait>(
        &mut self,
        thread: &mut Mutator<'_, N, J>,
        rt: &R,
    ) -> Result<Poll, State>
        ensures noted { Notes self.old self.new Word.Unblock (thread.old.place ∷ [])
            (Some (answers.crosses result)) }
        ensures ok { IfOk result (λ said. (thread.old.state ≡ IsBlocked)
            × ComesBack thread.new.crossed.body thread.new IsBlockedTrans said) }
        ensures resumed { OnOk result (IsResumed thread.new) }
        ensures same { SameThread thread.old thread.new }
        ensures err { IfErr result (λ s. (s ≡ thread.old.state) × (s ≢ IsBlocked)
            × (thread.new ≡ thread.old)) }
    {
        let place = thread.place() as u64;
        let begun = self.begin();
        let said = thread.unblock(rt);
        self.note_short(begun, (Word::Unblock, &[place]), Some(crosses(said)));
        said
    }
}
