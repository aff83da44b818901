//! What all threads share.
ghost use Rattle.std.specs.Prelude.{◌≡◌, ◌≢◌, ◌<◌, ◌≤◌, [], ℕ, List, Some, None, length, IfOk, IfErr, IfSome};
ghost use Rattle.frames.specs.ImageView.{IsSettled};
ghost use Rattle.operations.specs.Asks.{reply};
ghost use Rattle.method_table.specs.Codes.{unfreed};
ghost use Rattle.method_table.specs.TableView.{invalidate_fault};
ghost use Rattle.thread_state.specs.declared.State.TheVariants.{InJava as IsInJava};
ghost use Rattle.desk.specs.declared.entries.Entry.{Entry};
ghost use Rattle.desk.specs.Machine.{State as DeskState, Book};
ghost use Rattle.desk.specs.JobsFit.{jobs_fit};
ghost use Rattle.desk.specs.Rising.{AreRising};
ghost use Rattle.thread_list.specs.Forgets.{Forgets};
ghost use Rattle.thread_list.specs.Sharing.{AreLive, AreRepliesOf, AreAllRepliesOf};
ghost use Rattle.desk.specs.Refusals.{ask_refused, install_refused};

use crate::forgotten::Forgotten;
use crate::hints::{HintWords, Hints};
use crate::turns::Turn;
use berths::{Berth, BodyAct, BodyReceipt, Guarded, Laid, Unwoken, locked};
use board::Board;
use bodies::{Body, Name};
use desk::{CodeFault, Desk, Finished, NotLive, Receipt, Refused, live_names_rise};
use frames::CodeId;
use method_table::table::InvalidateFault;
use operations::Request;
use operations::job::{Done, HandshakeOp};
use poll::PollRow;
use std::alloc::AllocError;
use std::marker::Model;
use std::sync::atomic::{AtomicU64, Ordering};
use std::sync::{Condvar, Wait};
use std::thread;

/// The words, the desk under its lock, and a berth for each place, each under its own lock. No call holds two locks. Contracts
/// see how many methods there are.
#[derive(Drop)]
pub struct Shared<N: Name, J: HandshakeOp> {
    pub(crate) board: Board,
    pub(crate) row: PollRow,
    pub(crate) berths: Vec<Berth<N, J>>,
    pub(crate) desk: Guarded<Desk<N, J>>,
    /// The new desk, as it was when it was put under its lock.
    pub(crate) begun: Laid<Desk<N, J>>,
    pub(crate) hints: Hints,
    /// How many threads wait for `finished`. Each thread changes this count under the desk's lock.
    pub(crate) waiters: AtomicU64,
    /// Notified when a thread gets a Finish or exits while somebody waits for it.
    pub(crate) finished: Condvar,
}

impl<N: Name, J: HandshakeOp> Model for Shared<N, J> {
    ghost use Rattle.std.specs.Prelude.{◌≡◌, length};
    ghost use Rattle.thread_list.specs.Sharing.{AreInOrder, IsNewDesk, SharedSeen};

    ghost Value = { SharedSeen };

    ghost view = { λ s. record { methods = s.hints.methods } };

    ghost invariant = { λ s. (s.board ≡ N.board) × (s.row ≡ N.poll_row)
        × (length s.berths.items ≡ N.board.places) × AreInOrder s.berths.items
        × (s.hints.slots ≡ N.board.slots) × IsNewDesk N.board s.hints.methods s.begun };
}

/// The receipts of a thread that has exited: of the stops in which it served before (the very first turn and the last), of giving
/// its place up at its berth, and of its Exit entry.
#[derive(Drop)]
pub struct Exited<N: Name> {
    pub served: Option<Turn<N>>,
    pub vacated: BodyReceipt<N>,
    pub exit: Receipt<N>,
}

impl<N: Name, J: HandshakeOp> Shared<N, J> {
    /// The board of the codes' words.
    #[inline(always)]
    pub fn board(&self) -> &Board
        ensures { result.now ≡ N.board }
    {
        &self.board
    }

    /// The row of the threads' poll words.
    #[inline(always)]
    pub fn row(&self) -> &PollRow
        ensures { result.now ≡ N.poll_row }
    {
        &self.row
    }

    /// The desk's lock.
    pub fn desk(&self) -> &Guarded<Desk<N, J>> {
        &self.desk
    }

    /// How many methods there are.
    #[inline(always)]
    pub fn methods(&self) -> u32
        ensures { result ≡ self.now.methods }
    {
        self.hints.methods()
    }

    /// The berth of a place.
    #[inline(always)]
    pub fn berth(&self, place: usize) -> &Berth<N, J>
        requires { place < N.board.places }
        ensures { result.now ≡ place }
    {
        &self.berths[place]
    }

    /// The berth of a body's place.
    #[inline(always)]
    pub fn berth_of(&self, body: &Body<N>) -> &Berth<N, J>
        ensures { result.now ≡ body.now.seat.place }
    {
        &self.berths[body.place()]
    }

    /// Wakes the threads that wait at berths, the last berth first.
    pub fn wake(&self, unwoken: Unwoken<N>) {
        unwoken.wake(self.berths.as_slice());
    }

    /// The code that a call of the method tries first: the one installed last. None if there is no such method or code. The hint
    /// is read off a plain word, so the code may be gone by then; `call` checks that.
    #[inline(always)]
    pub fn hint(&self, method: u32) -> Option<CodeId>
        ensures { IfSome result (λ c. c.slot < N.board.slots) }
    {
        self.hints.of(method)?
    }

    // How many slots the board has.
    #[inline(always)]
    pub(crate) fn slots(&self) -> u32
        ensures { result ≡ N.board.slots }
    {
        self.hints.slots()
    }

    // The words of the hints, as a thread has them.
    #[inline(always)]
    pub(crate) fn hint_words(&self) -> HintWords<'_>
        ensures { result ≡ self.now.methods }
    {
        self.hints.words()
    }

    // The first place from `from` on whose poll word is armed, or a number past the last place. It is a snapshot: nothing is
    // promised about it.
    pub(crate) fn next_armed(&self, from: usize) -> usize
        ensures behind { from ≤ N.board.places → from ≤ result }
        ensures most { result ≤ N.board.places }
    {
        for place in from..self.berths.len() {
            if self.row.peek(place) != 0 {
                return place;
            }
        }
        self.berths.len()
    }

    /// The sum of all count words, as a snapshot. Nothing is promised about it.
    pub fn peek_counts(&self) -> u64 {
        let mut sum: u64 = 0;
        for slot in 0..self.hints.slots() {
            sum = sum.saturating_add(self.board.peek_count(slot));
        }
        sum
    }

    /// Queues a request with its jobs: one for each target in order, each with the request's ask. Returns the operation's number
    /// and the receipt of its Ask. If it is refused, the jobs are handed back.
    pub fn submit<R: Wait>(
        &self,
        rt: &R,
        request: Request,
        jobs: Vec<J>,
    ) -> Result<(u64, Receipt<N>), Refused<J>>
        ensures asked { IfOk result (λ r. r.1.entry ≡ Entry.Ask r.0 request) }
        ensures refused { IfErr result (λ e. (s : DeskState) × (book : Book)
            × ask_refused s request (jobs_fit J.whom J.asks request jobs.items) book e.fault) }
        ensures handed_back { IfErr result (λ e. e.jobs ≡ jobs) }
    {
        let mut desk = locked!(self.desk, rt);
        match desk.submit(request, jobs) {
            Ok(asked) => Ok(asked),
            Err(refused) => Err(refused),
        }
    }

    /// Installs a code for the method; the code in use before becomes not entrant. Returns the new code's serial and the receipt
    /// of its Install.
    pub fn install<R: Wait>(&self, rt: &R, method: u32) -> Result<(u64, Receipt<N>), CodeFault>
        ensures installed { IfOk result (λ r. (slot : ℕ)
            × (r.1.entry ≡ Entry.Install (record { slot = slot; serial = r.0 }) method)) }
        ensures refused { IfErr result (λ e. (s : DeskState) × (book : Book)
            × install_refused s method book e) }
    {
        let mut desk = self.desk.lock(rt);
        let (installed, receipt) = desk.install(&self.board, method as u64)?;
        self.hints.set(method, installed.code);
        Ok((installed.code.serial, receipt))
    }

    /// Makes the code of the serial not entrant. Returns the receipt of its Invalidate.
    pub fn invalidate<R: Wait>(&self, rt: &R, serial: u64) -> Result<Receipt<N>, InvalidateFault>
        ensures invalidated { IfOk result (λ r. r.entry ≡ Entry.Invalidate serial) }
        ensures refused { IfErr result (λ e. (s : DeskState)
            × (invalidate_fault (unfreed s.table.codes serial) ≡ Some e)) }
    {
        self.desk.lock(rt).invalidate(&self.board, serial)
    }

    /// The names of the live threads, ascending. Refused only for want of memory.
    pub fn live<R: Wait>(&self, rt: &R) -> Result<Vec<u64>, AllocError>
        ensures live { IfOk result (λ names. AreLive names.items) }
        ensures rising { IfOk result (λ names. AreRising 0 names.items) }
    {
        let desk = self.desk.lock(rt);
        desk.history_is_legal();
        live_names_rise();
        let names = desk.live()?;
        Ok(names)
    }

    /// The operation's replies, each with its thread's name, in the order of their Finishes. Refused only for want of memory.
    pub fn replies<R: Wait>(&self, rt: &R, op: u64) -> Result<Vec<(u64, u64)>, AllocError>
        ensures { IfOk result (λ list. AreRepliesOf op list.items) }
    {
        let desk = self.desk.lock(rt);
        desk.history_is_legal();
        let list = desk.replies(op)?;
        Ok(list)
    }

    /// All replies of the operation, each with its thread's name, or None if some were forgotten. Refused only for want of
    /// memory.
    pub fn kept_replies<R: Wait>(
        &self,
        rt: &R,
        op: u64,
    ) -> Result<Option<Vec<(u64, u64)>>, AllocError>
        ensures { IfOk result (λ r. IfSome r (λ list. AreAllRepliesOf op list.items)) }
    {
        let desk = self.desk.lock(rt);
        desk.history_is_legal();
        let list = desk.kept_replies(op)?;
        Ok(list)
    }

    /// Forgets all entries of the history so far, and the replies of each operation before the first that is open or queued. The
    /// memory of those replies is used for later ones, and HistoryFull counts only later entries. Returns the receipt of
    /// forgetting.
    pub fn forget<R: Wait>(&self, rt: &R) -> Forgotten<N, J>
        ensures { Forgets result }
    {
        let mut desk = self.desk.lock(rt);
        Forgotten::of(&mut desk)
    }

    // Wakes the threads that wait for a Finish or an Exit, and returns whether there are any. Called after such an entry, once
    // the desk's lock is released. No wake-up is lost: a waiter counts itself under the lock under which it looked, and keeps
    // that lock until it sleeps. A waiter that looked before the entry is counted here, or has woken already and looks again. One
    // that looks later finds the entry and doesn't wait.
    #[inline(always)]
    fn ring(&self) -> bool {
        let wanted = self.waiters.load(Ordering::SeqCst) != 0;
        if wanted {
            self.finished.notify_all();
        }
        wanted
    }

    /// Enters what a job answered on a settled body, and returns whether that woke a waiter. Yields to other threads before each
    /// retry.
    #[inline(always)]
    pub(crate) fn finish<R: Wait>(&self, rt: &R, body: &Body<N>, done: Done) -> (Finished<N>, bool)
        requires name { body.now.name ≡ done.target }
        requires settled { IsSettled body.now.image }
        requires reply { done.reply ≡ reply done.ask body.now.image.frames }
        ensures entry { result.0.stands.entry ≡ Entry.Finish done.op done.target done.reply }
        ensures seen { (result.0.body ≡ body.now) × (result.0.ask ≡ done.ask) }
    {
        match self.try_finish(rt, body, done) {
            Ok(finished) => finished,
            Err(back) => self.finish_later(rt, body, back),
        }
    }

    // One try.
    #[inline(always)]
    fn try_finish<R: Wait>(
        &self,
        rt: &R,
        body: &Body<N>,
        done: Done,
    ) -> Result<(Finished<N>, bool), Done>
        requires name { body.now.name ≡ done.target }
        requires settled { IsSettled body.now.image }
        requires reply { done.reply ≡ reply done.ask body.now.image.frames }
        ensures entry { IfOk result (λ r.
            r.0.stands.entry ≡ Entry.Finish done.op done.target done.reply) }
        ensures seen { IfOk result (λ r. (r.0.body ≡ body.now) × (r.0.ask ≡ done.ask)) }
        ensures back { IfErr result (λ back. back ≡ done) }
    {
        let finished = locked!(self.desk, rt).finish(body, done)?;
        Ok((finished, self.ring()))
    }

    // Retries until the entry succeeds. Out of line, since the first try nearly always succeeds.
    #[inline(never)]
    fn finish_later<R: Wait>(&self, rt: &R, body: &Body<N>, done: Done) -> (Finished<N>, bool)
        requires name { body.now.name ≡ done.target }
        requires settled { IsSettled body.now.image }
        requires reply { done.reply ≡ reply done.ask body.now.image.frames }
        ensures entry { result.0.stands.entry ≡ Entry.Finish done.op done.target done.reply }
        ensures seen { (result.0.body ≡ body.now) × (result.0.ask ≡ done.ask) }
    {
        let mut done = done;
        for _ in rt.forever() {
            thread::yield_now();
            match self.try_finish(rt, body, done) {
                Ok(finished) => return finished,
                Err(back) => done = back,
            }
        }
        unreachable!()
    }

    /// Enters the Exit of a thread that gave its place up at its berth.
    pub(crate) fn enter_exit<R: Wait>(
        &self,
        rt: &R,
        vacated: BodyReceipt<N>,
        served: Option<Turn<N>>,
    ) -> Exited<N>
        requires { vacated.act ≡ BodyAct.Vacated }
        ensures vacated { (result.vacated ≡ vacated) × (result.served ≡ served) }
        ensures exit { result.exit.entry ≡ Entry.Exit vacated.body.name }
    {
        let name = vacated.name();
        for _ in rt.forever() {
            let gone = self.desk.lock(rt).exit(name);
            if let Ok(exit) = gone {
                let _ = self.ring();
                return Exited {
                    served,
                    vacated,
                    exit,
                };
            }
            thread::yield_now();
        }
        unreachable!()
    }

    /// Waits until the named thread has a Finish in the oldest open request, or isn't live any more.
    pub fn wait_finished<R: Wait>(&self, rt: &R, name: u64) {
        for _ in rt.forever() {
            let desk = self.desk.lock(rt);
            if !desk.is_awaited(name) {
                return;
            }
            self.waiters.fetch_add(1, Ordering::SeqCst);
            let _desk = self.finished.wait(rt, desk);
            self.waiters.fetch_sub(1, Ordering::SeqCst);
        }
    }
}
