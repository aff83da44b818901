//! Takes the job of a target, and enters its reply.
ghost use Rattle.std.specs.Prelude.{◌≡◌, ◌+◌, ◌<◌, true, false, Some, None, IfOk, IfErr, IfSome, IfNone, OnOk, OnSome, ◌⊎◌};
ghost use Rattle.frames.specs.ImageView.{IsSettled};
ghost use Rattle.operations.specs.Asks.{reply};
ghost use Rattle.desk.specs.Machine.{lawful, is_open};
ghost use Rattle.desk.specs.Fields.{at, Enters};
ghost use Rattle.desk.specs.JobsFit.{has_job, job_taken, is_asked_by};

use crate::desk::Desk;
use crate::entries::Entry;
use crate::finished::Finished;
use crate::lists::{asks_it, finish_at, index_of, is_least, job_of, may_finish};
use bodies::{Body, Name};
use operations::job::{Done, HandshakeOp};

impl<N: Name, J: HandshakeOp> Desk<N, J> {
    /// Takes the target's job out of the open request of this number. None if no such request is open, or the job was
    /// taken before.
    #[inline(always)]
    pub fn take_job(&mut self, number: u64, name: u64) -> Option<J>
        ensures some { IfSome result (λ j.
            (J.whom j ≡ name) × (J.number j ≡ number) × (0 < number)) }
        ensures open { OnSome result (is_open number (at self.old).opened ≡ true) }
        ensures there { OnSome result (has_job number name self.old.jobs ≡ true) }

        ensures none { IfNone result (has_job number name self.old.jobs ≡ false) }
        ensures left { self.new.jobs ≡ job_taken number name self.old.jobs }
        ensures same { (self.new.book ≡ self.old.book)
            × (self.new.slots ≡ self.old.slots)
            × (self.new.methods ≡ self.old.methods)
            × (self.new.keeper ≡ self.old.keeper) }
    {
        let Some(place) = index_of(self.opened.as_slice(), number) else {
            return None;
        };
        job_of(&mut self.opened, place, name)
    }

    /// Enters the Finish with the reply that a job gave on a settled body. It is lawful if the operation is open, the
    /// body's thread is a live target of it without a Finish, and the thread has a Finish for each open operation with
    /// a lesser number of which it is a live target.
    ///
    /// # Errors
    /// The Finish isn't lawful, or the job's ask isn't the operation's. `done` is returned.
    #[inline(always)]
    pub fn finish(&mut self, body: &Body<N>, done: Done) -> Result<Finished<N>, Done>
        requires name { body.now.name ≡ done.target }
        requires settled { IsSettled body.now.image }
        requires reply { done.reply ≡ reply done.ask body.now.image.frames }

        ensures ok { IfOk result (λ r.
            Enters self.old self.new (Entry.Finish done.op done.target done.reply) r.stands) }
        ensures seen { IfOk result (λ r. (r.body ≡ body.now) × (r.ask ≡ done.ask)) }
        ensures asked { OnOk result (is_asked_by done.op done.ask (at self.old).opened ≡ true) }
        ensures reserved { OnOk result
            ((self.new.book.reserved + 1 ≡ self.old.book.reserved)
            × (self.new.keeper ≡ self.old.keeper)) }
        ensures jobs { self.new.jobs ≡ self.old.jobs }

        ensures err { IfErr result (λ d.
            (d ≡ done)
            × ((lawful (at self.old) (Entry.Finish done.op done.target done.reply) ≡ false)
            ⊎ (is_asked_by done.op done.ask (at self.old).opened ≡ false))
            × (self.new ≡ self.old)) }
    {
        let Some(place) = index_of(self.opened.as_slice(), done.op()) else {
            return Err(done);
        };
        if !asks_it(&self.opened[place].request, done.ask()) {
            return Err(done);
        }
        if !may_finish(&self.opened[place], self.live.as_slice(), done.target()) {
            return Err(done);
        }
        if !is_least(self.opened.as_slice(), done.op(), done.target()) {
            return Err(done);
        }
        finish_at(&mut self.opened, place, done.target());
        Ok(Finished::of(
            self.log
                .enter_finish(done.op(), done.target(), done.reply()),
            done.ask(),
            body,
        ))
    }
}
