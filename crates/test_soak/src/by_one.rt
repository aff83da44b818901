//! A run in one machine thread. A thread of the system and a coordinator make calls in turn, so the log is always the same.
use crate::calls::Calls;
use crate::hands::Hands;
use crate::making::Makes;
use bodies::Name;
use operations::job::{HandshakeOp, Query};
use operations::{Ask, Request, Targets};
use recorder::Stream;
use std::sync::Wait;
use test_tools::keep;
use thread_list::Mutator;

/// Both sides of the run: the coordinator's, and the stream of the thread's calls.
#[derive(Drop)]
pub struct Sides<'c, 'x, 'a, N: Name, J: HandshakeOp, R: Wait, M: Makes<J>> {
    pub hands: Hands<'c, 'x, 'a, N, J, R>,
    pub jobs: M,
    pub thread: Calls<'a, 'a, R>,
}

impl<'c, 'x, 'a, N: Name, J: HandshakeOp, R: Wait, M: Makes<J>> Sides<'c, 'x, 'a, N, J, R, M> {
    /// Makes the whole run, on a system with one place, two slots and one method. Answers both streams; None if memory was refused.
    pub fn streams(self) -> Option<Vec<Stream<'a>>> {
        let mut sides = self;
        sides.play()?;
        let mut streams = Vec::new(sides.hands.alloc);
        keep(&mut streams, sides.thread.stream?).ok()?;
        keep(&mut streams, sides.hands.stream?).ok()?;
        Some(streams)
    }

    fn play(&mut self) -> Option<()> {
        self.hands.install(0).ok()?;
        let mut thread = self.thread.start(self.hands.shared, self.hands.alloc).ok()?;
        self.live(&mut thread)?;
        let _ = self.thread.exit(thread);
        self.hands.reclaim_alone(1);
        self.hands.live().ok()?;
        Some(())
    }

    fn live(&mut self, thread: &mut Mutator<'_, N, J>) -> Option<()> {
        self.enters(thread);
        self.is_away(thread)?;
        self.stops(thread)?;
        self.waits(thread);
        self.keeps(thread);
        self.leaves(thread);
        Some(())
    }

    // The thread enters the code, and calls a method that doesn't exist.
    fn enters(&mut self, thread: &mut Mutator<'_, N, J>) {
        let _ = self.thread.call(thread, 0, self.hands.shared.hint(0));
        let _ = self.thread.call(thread, 0, None);
        let _ = self.thread.call(thread, 1, None);
        let _ = self.thread.back_edge(thread);
        self.thread.publish(thread);
    }

    // Submits a handshake of the thread.
    fn ask(&mut self, ask: Ask) -> Option<()> {
        let alloc = self.hands.alloc;
        let mut jobs = Vec::new(alloc);
        jobs.push(self.jobs.job(Query::new(1, ask))).ok()?;
        let targets = Targets::from_vec(Vec::from_slice(alloc, &[1]).ok()?);
        self.hands.submit(Request::Handshake { targets, ask }, jobs);
        Some(())
    }

    // While the thread is in native code, the coordinator drives a handshake and a census, and works on another handshake step by step.
    fn is_away(&mut self, thread: &mut Mutator<'_, N, J>) -> Option<()> {
        self.thread.to_native(thread);
        self.ask(Ask::Depth)?;
        self.drives();
        self.ask(Ask::Top)?;
        self.works_by_hand();
        let _ = self.thread.from_native(thread);
        Some(())
    }

    fn drives(&mut self) {
        let none = Vec::new(self.hands.alloc);
        self.hands.submit(Request::Census, none);
        for _ in 0..3 {
            let _ = self.hands.drive();
        }
        let _ = self.hands.replies(1);
    }

    fn works_by_hand(&mut self) {
        self.hands.open();
        self.hands.tell(1);
        self.hands.hold(0);
        self.hands.serve(0);
        let _ = self.hands.operate();
        self.hands.close();
        self.hands.release(0);
        self.hands.close();
    }

    // The thread stops at a poll, and serves itself.
    fn stops(&mut self, thread: &mut Mutator<'_, N, J>) -> Option<()> {
        self.ask(Ask::CountOf(1))?;
        self.hands.open();
        self.hands.tell(1);
        self.thread.stop(thread);
        let _ = self.thread.back_edge(thread);
        self.hands.hold(0);
        self.thread.stop(thread);
        self.hands.close_of(4);
        self.hands.close_of(4);
        Some(())
    }

    // The thread goes into the VM, blocks, and comes back.
    fn waits(&mut self, thread: &mut Mutator<'_, N, J>) {
        self.thread.to_vm(thread);
        self.thread.block(thread);
        let _ = self.hands.drive_four();
        let _ = self.thread.unblock(thread);
        let _ = self.thread.from_vm(thread);
    }

    // A code isn't reclaimed before the thread has published, nor while the thread has a frame of it.
    fn keeps(&mut self, thread: &mut Mutator<'_, N, J>) {
        self.hands.invalidate(1);
        self.hands.reclaim_alone(1);
        self.thread.publish(thread);
        self.hands.reclaim_alone(1);
    }

    // The thread returns from all methods, and once more from an empty stack.
    fn leaves(&mut self, thread: &mut Mutator<'_, N, J>) {
        for _ in 0..3 {
            let _ = self.thread.ret(thread);
        }
    }
}
