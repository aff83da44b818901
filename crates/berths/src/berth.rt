//! A berth keeps a thread's body while the thread is in a safe state and nobody holds the body.
ghost use Rattle.std.specs.Prelude.{◌≡◌, ◌≢◌, ◌⊎◌, ◌<◌, ◌^◌, ◌||◌, [], false, Ok, Some, OnOk, IfOk, IfErr, IfSome};
ghost use Rattle.frames.specs.ImageView.{IsCounted};
ghost use Rattle.berths.specs.Berths.{acted, moved};
ghost use Rattle.berths.specs.Turns.{ComesOut, TriesTurn};

use crate::locked;
use crate::room::{
    BerthAct, BerthReceipt, BodyAct, BodyReceipt, CountsSleepers, NotBack, Room, SeatReceipt,
    StopReceipt,
};
use crate::taken_body::{OutgoingSeat, TakenBody};
use crate::taken_job::TakenJob;
use crate::waiters::Waiters;
use board::Board;
use bodies::{Body, Name};
use operations::job::HandshakeOp;
use std::marker::Model;
use std::sync::{Condvar, Mutex, MutexGuard, Wait};
use std::thread;

// How often a stopped thread yields before it sleeps. Most stops end within that time, and waking a sleeping thread costs the coordinator
// more than all its other work for that thread.
const YIELDS: u32 = 32;

// The fields that a stop changes are at the front of `room`. The list of the later jobs is at the end of `room`, followed by the bell,
// `APART` words and the place of the next berth: together more than a cache line before the room of the next berth.
const APART: usize = 4;

/// A room under a lock, and a bell that rings for the threads that wait for a change of the room. Each call takes this lock and no other.
/// It returns the receipt of what it did under the lock, or what it took out. Contracts see the place that the berth was made for.
///
/// `give`, `turn`, `release_quietly` and `resume` inline their first try, which nearly always succeeds. Only the further tries are a call,
/// since the result of a called loop would go through memory. `bring_idle` also tries once inline, and its caller continues with `bring`.
#[derive(Drop)]
pub struct Berth<N: Name, J: HandshakeOp> {
    place: usize,
    room: Mutex<Room<N, J>>,
    bell: Condvar,
    /// Keeps the changing fields of the next berth out of the cache lines of this one, since each berth is of another thread.
    apart: [u64; APART],
}

impl<N: Name, J: HandshakeOp> Model for Berth<N, J> {
    ghost use Rattle.std.specs.Prelude.{ℕ};

    ghost Value = { ℕ };

    ghost view = { λ b. b.place };
}

/// What a stopped thread takes out of its berth.
pub struct CameOut<N: Name, J: HandshakeOp> {
    pub body: TakenBody<N>,
    /// The thread's oldest pending job, if there is one.
    pub told: Option<TakenJob<J>>,
    /// The receipts that the body went in and came out.
    pub outing: StopReceipt<N>,
    /// Whether the thread slept or woke another thread.
    pub changed: bool,
}

// The result of one try of a turn.
enum Tried<N: Name, J: HandshakeOp> {
    CameOut(CameOut<N, J>, Waiters<N>),
    // The body went in, and a pending census keeps it there.
    Kept(BodyReceipt<N>, Waiters<N>),
    // The body didn't go in.
    Refused(Body<N>),
}

// Takes a body, which its thread gave, out of the room of this place, to serve, if the body is there and no census is pending. Otherwise
// the receipt comes back.
#[inline(always)]
fn come_out<N: Name, J: HandshakeOp>(
    room: &mut Room<N, J>,
    place: usize,
    given: BodyReceipt<N>,
) -> Result<(CameOut<N, J>, Waiters<N>), BodyReceipt<N>>
    requires { room.old.place ≡ place }

    ensures given { IfOk result (λ r. r.0.outing.given ≡ given) }
    ensures out { IfOk result (λ r. ComesOut J.number J.whom J.asks given.body.name place r.0) }
    ensures waiters { IfOk result (λ r. r.1.place ≡ place) }
    ensures err { IfErr result (λ g. g ≡ given) }
    ensures same { room.new.place ≡ place }
{
    let (body, told, outing) = room.serve(given)?;
    let out = CameOut {
        body,
        told,
        outing,
        changed: false,
    };
    Ok((out, room.waiters()))
}

// Retries after a failed try. Yields to other threads before each retry.
#[inline(never)]
fn tried_further<R: Wait, B, T, F: Fn(B) -> Result<T, B>>(rt: &R, back: B, attempt: F) -> T
    requires callable { F.pre attempt back }
    requires same { (r : _) → F.post attempt back r → IfErr r (λ b. b ≡ back) }
    ensures { F.post attempt back (Ok result) }
{
    let mut back = back;
    for _ in rt.forever() {
        thread::yield_now();
        match attempt(back) {
            Ok(done) => return done,
            Err(again) => back = again,
        }
    }
    unreachable!()
}

// Sleeps until the bell rings. The thread counts itself as a sleeper under the lock that the wait releases, so it misses no later ring.
fn sleep<R: Wait, V: CountsSleepers>(rt: &R, bell: &Condvar, value: MutexGuard<'_, V>) {
    let mut value = value;
    value.note_sleeper(true);
    let mut value = bell.wait(rt, value);
    value.note_sleeper(false);
}

// Looks under the lock until the look finds something, and sleeps before each further look. The thread looks under the lock under which it
// counts itself as a sleeper, so it misses no change.
#[inline(never)]
fn awaited<R: Wait, V: CountsSleepers, T, F: Fn(&mut V) -> Option<T>>(
    rt: &R,
    mutex: &Mutex<V>,
    bell: &Condvar,
    look: F,
) -> T
    requires { F.IsAlwaysCallable look }
    ensures { (before : _) × (after : _) × F.post look before (Some result) after }
{
    for _ in rt.forever() {
        let mut value = mutex.lock(rt);
        if let Some(found) = look(&mut value) {
            return found;
        }
        sleep(rt, bell, value);
    }
    unreachable!()
}

impl<N: Name, J: HandshakeOp> Berth<N, J> {
    /// Makes the berth of this room.
    pub fn new(room: Room<N, J>) -> Berth<N, J>
        ensures { result ≡ room.place }
    {
        Berth {
            place: room.place(),
            room: Mutex::new(room),
            bell: Condvar::new(),
            apart: [0; APART],
        }
    }

    /// The room under its lock.
    #[inline(always)]
    pub fn room(&self) -> &Mutex<Room<N, J>> {
        &self.room
    }

    // Wakes the threads that wait for a change. Returns whether there are any.
    #[inline(always)]
    pub(crate) fn ring(&self, waiters: Waiters<N>) -> bool
        ensures { result ≡ waiters.waits }
    {
        let wanted = waiters.told();
        if wanted {
            self.bell.notify_all();
        }
        wanted
    }

    #[inline(always)]
    fn try_give<R: Wait>(
        &self,
        rt: &R,
        body: Body<N>,
    ) -> Result<(BodyReceipt<N>, Waiters<N>), Body<N>>
        requires body { (body.seat.stored ≢ 0) × (0 < body.name) }
        ensures ok { IfOk result (λ r. r.0 ≡ moved body BodyAct.Given) }
        ensures waiters { IfOk result (λ r. r.1.place ≡ body.seat.place) }
        ensures err { IfErr result (λ b. b ≡ body) }
    {
        let mut room = locked!(self.room, rt);
        let receipt = room.give(body)?;
        Ok((receipt, room.waiters()))
    }

    /// Puts the body in. Retries while the room refuses it.
    #[inline(always)]
    pub fn give<R: Wait>(&self, rt: &R, body: Body<N>) -> BodyReceipt<N>
        requires body { (body.seat.stored ≢ 0) × (0 < body.name) }
        ensures { result ≡ moved body BodyAct.Given }
    {
        let (receipt, waiters) = match self.try_give(rt, body) {
            Ok(given) => given,
            Err(back) => tried_further(rt, back, |body| self.try_give(rt, body)),
        };
        self.ring(waiters);
        receipt
    }

    fn try_move_in<R: Wait>(
        &self,
        rt: &R,
        body: Body<N>,
    ) -> Result<(BodyReceipt<N>, Waiters<N>), Body<N>>
        requires body { (body.seat.stored ≢ 0) × (0 < body.name) }
        ensures ok { IfOk result (λ r. r.0 ≡ moved body BodyAct.MovedIn) }
        ensures waiters { IfOk result (λ r. r.1.place ≡ body.seat.place) }
        ensures err { IfErr result (λ b. b ≡ body) }
    {
        let mut room = self.room.lock(rt);
        let receipt = room.move_in(body)?;
        Ok((receipt, room.waiters()))
    }

    /// Puts in the name and the body of a starting thread. Retries while the room refuses them.
    pub fn move_in<R: Wait>(&self, rt: &R, body: Body<N>) -> BodyReceipt<N>
        requires body { (body.seat.stored ≢ 0) × (0 < body.name) }
        ensures { result ≡ moved body BodyAct.MovedIn }
    {
        let (receipt, waiters) = match self.try_move_in(rt, body) {
            Ok(moved_in) => moved_in,
            Err(back) => tried_further(rt, back, |body| self.try_move_in(rt, body)),
        };
        self.ring(waiters);
        receipt
    }

    #[inline(always)]
    fn try_release<R: Wait>(
        &self,
        rt: &R,
        body: Body<N>,
        operated: bool,
    ) -> Result<(BodyReceipt<N>, Waiters<N>), Body<N>>
        requires body { (body.seat.stored ≢ 0) × (0 < body.name) }
        ensures ok { IfOk result (λ r. r.0 ≡ moved body (BodyAct.Released operated)) }
        ensures waiters { IfOk result (λ r. r.1.place ≡ body.seat.place) }
        ensures err { IfErr result (λ b. b ≡ body) }
    {
        let mut room = locked!(self.room, rt);
        let receipt = room.release(body, operated)?;
        Ok((receipt, room.waiters()))
    }

    /// Puts a held body back, and wakes the threads that wait here. `operated` says that a census has run over the body: that census is no
    /// longer pending, and nothing keeps the thread any more.
    #[inline(always)]
    pub fn release<R: Wait>(&self, rt: &R, body: Body<N>, operated: bool) -> BodyReceipt<N>
        requires body { (body.seat.stored ≢ 0) × (0 < body.name) }
        ensures { result ≡ moved body (BodyAct.Released operated) }
    {
        let (receipt, waiters) = self.release_quietly(rt, body, operated);
        self.ring(waiters);
        receipt
    }

    /// Puts a held body back, and wakes nobody. Also returns the threads that wait here, which are woken later
    /// ([`Unwoken`](crate::Unwoken)).
    #[inline(always)]
    pub fn release_quietly<R: Wait>(
        &self,
        rt: &R,
        body: Body<N>,
        operated: bool,
    ) -> (BodyReceipt<N>, Waiters<N>)
        requires body { (body.seat.stored ≢ 0) × (0 < body.name) }
        ensures released { result.0 ≡ moved body (BodyAct.Released operated) }
        ensures waiters { result.1.place ≡ body.seat.place }
    {
        match self.try_release(rt, body, operated) {
            Ok(released) => released,
            Err(back) => tried_further(rt, back, |body| self.try_release(rt, body, operated)),
        }
    }

    // The error of a try is the body alone: the berth refuses it.
    fn try_bring<R: Wait>(
        &self,
        rt: &R,
        body: Body<N>,
    ) -> Result<Result<(BodyReceipt<N>, Waiters<N>), (TakenBody<N>, TakenJob<J>)>, Body<N>>
        requires body { (body.seat.stored ≢ 0) × (0 < body.name) }
        ensures ok { IfOk result (λ r. IfOk r (λ back. back.0
            ≡ moved body (BodyAct.Released false))) }
        ensures waiters { IfOk result (λ r. IfOk r (λ back. back.1.place ≡ body.seat.place)) }
        ensures told { IfOk result (λ r. IfErr r (λ t. (t.0 ≡ body) × (J.whom t.1 ≡ body.name)
            × (0 < J.number t.1))) }
        ensures err { IfErr result (λ b. b ≡ body) }
    {
        let mut room = locked!(self.room, rt);
        if let Ok(job) = room.job(body.name()) {
            return Ok(Err((TakenBody::of(body), job)));
        }
        let receipt = room.release(body, false)?;
        Ok(Ok((receipt, room.waiters())))
    }

    /// Puts back a body that was taken out to serve. If another job for its thread is pending by then, the body doesn't go in: the error is
    /// the body with the oldest job.
    pub fn bring<R: Wait>(
        &self,
        rt: &R,
        body: Body<N>,
    ) -> Result<BodyReceipt<N>, (TakenBody<N>, TakenJob<J>)>
        requires body { (body.seat.stored ≢ 0) × (0 < body.name) }
        ensures ok { IfOk result (λ r. r ≡ moved body (BodyAct.Released false)) }
        ensures told { IfErr result (λ r. (r.0 ≡ body) × (J.whom r.1 ≡ body.name)
            × (0 < J.number r.1)) }
    {
        let brought = match self.try_bring(rt, body) {
            Ok(brought) => brought,
            Err(back) => tried_further(rt, back, |body| self.try_bring(rt, body)),
        };
        let (receipt, waiters) = brought?;
        self.ring(waiters);
        Ok(receipt)
    }

    /// Puts back a body that was taken out to serve, in one try, if nothing is pending for its thread by then. The error is the body with
    /// the receipt that it didn't go in; the caller continues with `bring`.
    #[inline(always)]
    pub fn bring_idle<R: Wait>(
        &self,
        rt: &R,
        body: Body<N>,
    ) -> Result<BodyReceipt<N>, (Body<N>, NotBack<N>)>
        requires body { (body.seat.stored ≢ 0) × (0 < body.name) }
        ensures ok { IfOk result (λ r. r ≡ moved body (BodyAct.Released false)) }
        ensures err { IfErr result (λ r. (r.0 ≡ body) × (r.1 ≡ body)) }
    {
        let mut room = locked!(self.room, rt);
        let receipt = room.bring_idle(body)?;
        let waiters = room.waiters();
        drop(room);
        self.ring(waiters);
        Ok(receipt)
    }

    /// Takes out the seat and the poller for a thread that starts in this place, once no thread has them.
    pub fn start<R: Wait>(&self, rt: &R, place: usize) -> (OutgoingSeat<N>, SeatReceipt<N>)
        ensures { (result.1 ≡ result.0) × (result.0.seat.place ≡ place) }
    {
        for _ in rt.forever() {
            let mut room = self.room.lock(rt);
            if room.place() == place {
                if let Some(started) = room.start() {
                    return started;
                }
            }
            drop(room);
            thread::yield_now();
        }
        unreachable!()
    }

    /// Takes out the body of the thread `name` to hold it, if the body is here and a job or a census is pending for the thread. The error
    /// is the receipt that the body wasn't here (`Absent`) or that nothing was pending (`NothingTold`).
    #[inline(always)]
    pub fn take<R: Wait>(
        &self,
        rt: &R,
        name: u64,
        place: usize,
    ) -> Result<(TakenBody<N>, BodyReceipt<N>), BerthReceipt<N>>
        ensures held { IfOk result (λ r. r.1 ≡ moved r.0 BodyAct.Held) }
        ensures body { IfOk result (λ r. (r.0.name ≡ name) × (0 < r.0.name)
            × (r.0.seat.place ≡ place) × (r.0.seat.stored ≢ 0)) }
        ensures left { IfErr result (λ r. (r ≡ acted place name BerthAct.Absent)
            ⊎ (r ≡ acted place name BerthAct.NothingTold)) }
    {
        locked!(self.room, rt).take(name, place)
    }

    /// Takes out the body of the thread `name` with the thread's oldest job, to run the job on the body, if both are here. The error is the
    /// receipt that the body wasn't here (`Absent`) or that there was no job (`NoJob`).
    #[inline(always)]
    pub fn take_told<R: Wait>(
        &self,
        rt: &R,
        name: u64,
        place: usize,
    ) -> Result<(TakenBody<N>, BodyReceipt<N>, TakenJob<J>), BerthReceipt<N>>
        ensures held { IfOk result (λ r. r.1 ≡ moved r.0 BodyAct.Held) }
        ensures body { IfOk result (λ r. (r.0.name ≡ name) × (0 < r.0.name)
            × (r.0.seat.place ≡ place) × (r.0.seat.stored ≢ 0)) }
        ensures job { IfOk result (λ r. (J.whom r.2 ≡ name) × (0 < J.number r.2)) }
        ensures left { IfErr result (λ r. (r ≡ acted place name BerthAct.Absent)
            ⊎ (r ≡ acted place name BerthAct.NoJob)) }
    {
        locked!(self.room, rt).take_told(name, place)
    }

    /// Waits until the body of the thread `name` is here and a job or a census is pending for the thread. Then takes the body out to hold
    /// it.
    pub fn hold<R: Wait>(&self, rt: &R, name: u64, place: usize) -> (TakenBody<N>, BodyReceipt<N>)
        ensures body { (result.0.name ≡ name) × (0 < result.0.name) × (result.0.seat.place ≡ place)
            × (result.0.seat.stored ≢ 0) }
        ensures held { result.1 ≡ moved result.0 BodyAct.Held }
    {
        awaited(
            rt,
            &self.room,
            &self.bell,
            |room| room.take(name, place).ok(),
        )
    }

    #[inline(always)]
    fn try_resume<R: Wait>(
        &self,
        rt: &R,
        name: u64,
        place: usize,
    ) -> Option<(TakenBody<N>, BodyReceipt<N>)>
        ensures body { IfSome result (λ r. (r.0.name ≡ name) × (0 < r.0.name)
            × (r.0.seat.place ≡ place) × (r.0.seat.stored ≢ 0)) }
        ensures resumed { IfSome result (λ r. r.1 ≡ moved r.0 BodyAct.Resumed) }
    {
        locked!(self.room, rt).resume(name, place)
    }

    /// Waits until the body of the thread `name` is here and nobody holds it. Then takes it out for its thread to continue. What is pending
    /// for the thread stays pending.
    #[inline(always)]
    pub fn resume<R: Wait>(&self, rt: &R, name: u64, place: usize) -> (TakenBody<N>, BodyReceipt<N>)
        ensures body { (result.0.name ≡ name) × (0 < result.0.name) × (result.0.seat.place ≡ place)
            × (result.0.seat.stored ≢ 0) }
        ensures resumed { result.1 ≡ moved result.0 BodyAct.Resumed }
    {
        match self.try_resume(rt, name, place) {
            Some(resumed) => resumed,
            None => awaited(rt, &self.room, &self.bell, |room| room.resume(name, place)),
        }
    }

    // One try: the body goes in and comes out under one hold of the lock, unless a pending census keeps it there.
    #[inline(always)]
    fn try_turn<R: Wait>(&self, rt: &R, body: Body<N>) -> Tried<N, J>
        requires body { (body.seat.stored ≢ 0) × (0 < body.name) }
        ensures { TriesTurn J.number J.whom J.asks body result }
    {
        let place = body.place();
        let mut room = locked!(self.room, rt);
        let given = match room.give(body) {
            Ok(given) => given,
            Err(back) => return Tried::Refused(back),
        };
        match come_out(&mut room, place, given) {
            Ok((out, waiters)) => Tried::CameOut(out, waiters),
            Err(given) => Tried::Kept(given, room.waiters()),
        }
    }

    /// Makes one turn of a stopped thread: puts its body in, and takes the body out again to serve, with the oldest job, once no census is
    /// pending. If none is pending at once, both happen under one hold of the lock, so nobody else serves the body in between.
    #[inline(always)]
    pub fn turn<R: Wait>(&self, rt: &R, body: Body<N>) -> CameOut<N, J>
        requires body { (body.seat.stored ≢ 0) × (0 < body.name) }
        ensures given { result.outing.given ≡ moved body BodyAct.Given }
        ensures out { ComesOut J.number J.whom J.asks body.name body.seat.place result }
    {
        let place = body.place();
        match self.try_turn(rt, body) {
            Tried::CameOut(out, waiters) => self.tell_out(out, waiters),
            Tried::Kept(given, waiters) => {
                self.ring(waiters);
                self.serve(rt, place, given)
            }
            Tried::Refused(back) => {
                let given = self.give(rt, back);
                self.serve(rt, place, given)
            }
        }
    }

    // Wakes the threads that wait here after a body came out. `changed` also notes whether there were any.
    #[inline(always)]
    fn tell_out(&self, out: CameOut<N, J>, waiters: Waiters<N>) -> CameOut<N, J>
        ensures { result ≡ record out { changed = out.changed || waiters.waits } }
    {
        let mut out = out;
        if self.ring(waiters) {
            out.changed = true;
        }
        out
    }

    // Takes out again the body that its thread gave, with the oldest job, once the body is here and no census is pending. Yields between
    // its first looks, and sleeps before each further one.
    #[inline(never)]
    fn serve<R: Wait>(&self, rt: &R, place: usize, given: BodyReceipt<N>) -> CameOut<N, J>
        ensures given { result.outing.given ≡ given }
        ensures out { ComesOut J.number J.whom J.asks given.body.name place result }
    {
        let mut given = given;
        let mut slept = false;
        let mut looks: u32 = 0;
        for _ in rt.forever() {
            let mut room = locked!(self.room, rt);
            if room.place() == place {
                match come_out(&mut room, place, given) {
                    Ok((mut out, waiters)) => {
                        drop(room);
                        out.changed = slept;
                        return self.tell_out(out, waiters);
                    }
                    Err(back) => given = back,
                }
            }
            if looks < YIELDS {
                looks += 1;
                drop(room);
                thread::yield_now();
                continue;
            }
            sleep(rt, &self.bell, room);
            slept = true;
        }
        unreachable!()
    }

    /// Waits until the thread `name` has put its body in, or has taken its jobs up to `number`. Returns the receipt that its body is here
    /// (`Here`), or that it isn't and none of these jobs waits for the thread (`DoneUpTo`).
    pub fn wait_for<R: Wait>(&self, rt: &R, name: u64, place: usize, number: u64) -> BerthReceipt<N>
        ensures { (result ≡ acted place name BerthAct.Here)
            ⊎ (result ≡ acted place name (BerthAct.DoneUpTo number)) }
    {
        awaited(
            rt,
            &self.room,
            &self.bell,
            |room| room.came(name, place, number),
        )
    }

    /// Takes the oldest job of the thread `name`, whose body is out. The error is the receipt that no job came out (`NoJob`).
    pub fn job<R: Wait>(&self, rt: &R, name: u64) -> Result<TakenJob<J>, BerthReceipt<N>>
        ensures job { IfOk result (λ j. (J.whom j ≡ name) × (0 < J.number j)) }
        ensures no_job { IfErr result (λ r. (r.name ≡ name) × (r.act ≡ BerthAct.NoJob)) }
    {
        self.room.lock(rt).job(name)
    }

    fn try_exit<R: Wait>(
        &self,
        rt: &R,
        body: Body<N>,
        board: &Board,
    ) -> Result<(BodyReceipt<N>, Waiters<N>), Body<N>>
        requires board { board.now ≡ N.board }
        requires empty { (body.image.frames ≡ []) × IsCounted body.image }
        ensures ok { IfOk result (λ r. r.0 ≡ moved body BodyAct.Vacated) }
        ensures waiters { IfOk result (λ r. r.1.place ≡ body.seat.place) }
        ensures err { IfErr result (λ b. b ≡ body) }
    {
        let mut room = self.room.lock(rt);
        let receipt = room.exit(body, board)?;
        Ok((receipt, room.waiters()))
    }

    /// Removes the name and gives the place up. The error is the body: a job or a census is pending for its thread, or the body came out of
    /// another berth.
    pub fn exit<R: Wait>(
        &self,
        rt: &R,
        body: Body<N>,
        board: &Board,
    ) -> Result<BodyReceipt<N>, Body<N>>
        requires board { board.now ≡ N.board }
        requires empty { (body.image.frames ≡ []) × IsCounted body.image }
        ensures ok { IfOk result (λ r. r ≡ moved body BodyAct.Vacated) }
        ensures err { IfErr result (λ b. b ≡ body) }
    {
        let (receipt, waiters) = self.try_exit(rt, body, board)?;
        self.ring(waiters);
        Ok(receipt)
    }
}
