//! Lists the pending operations of due threads, in one look at the desk. A module of its own makes sure that every
//! `Listed` is true of the desk.
ghost use Rattle.std.specs.Prelude.{◌≡◌, ◌≤◌, ◌<◌, ◌-◌, ◌⊎◌, ◌++◌, ℕ, true, false, Some, None, [], All, IfSome, length, map, take, vec_len, vec_capacity};
ghost use Rattle.desk.specs.Fields.{at};
ghost use Rattle.operations.specs.declared.Kind.TheVariants as kind;
ghost use Rattle.desk.specs.Targets.{untold};
ghost use Rattle.coordinator_core.specs.Telling.{telling_of, telling_alone, tellings, kind_told, is_there, any_more, due_in, AreAskedAlone, IsListing};

use bodies::Name;
use desk::{Desk, Live, Target, due_are_told};
use operations::Kind;
use operations::job::HandshakeOp;
use std::marker::Model;
use std::snapshot::Snapshot;
use stopped_threads::PollArmer;

/// The oldest open request for which a thread's poll wasn't armed yet. `last` is the number with which the thread's
/// place was last armed when this was found.
#[derive(Clone, Copy, Drop)]
pub struct PendingOp {
    pub name: u64,
    pub target: Target,
    pub number: u64,
    pub last: u64,
}

/// A pending operation, with its job if it has one.
#[derive(Drop)]
pub struct PendingJob<J> {
    pub what: PendingOp,
    pub job: Option<J>,
}

/// A look at the desk, and the list that it made. Contracts see the desk at that time, the list without its jobs, and
/// whether more is pending.
#[derive(Drop)]
pub struct Listed<N: Name, J: HandshakeOp> {
    seen: Snapshot<Desk<N, J>>,
    list: Vec<PendingJob<J>>,
    has_more: bool,
}

impl<N: Name, J: HandshakeOp> Model for Listed<N, J> {
    ghost use Rattle.std.specs.Prelude.{map};
    ghost use Rattle.coordinator_core.specs.Telling.{Listing};

    ghost Value = { Listing };

    ghost view = { λ l. record {
      seen = l.seen.value;
      list = map
          (λ u. u.what) l.list.items;
      has_more = l.has_more;
    } };
}

impl<N: Name, J: HandshakeOp> Listed<N, J> {
    /// Looks at the desk: lists the due threads into `due`, and the next pending operation of each into `list`.
    #[inline(always)]
    pub fn list(
        desk: &mut Desk<N, J>,
        armer: &PollArmer,
        places: usize,
        due: &mut Vec<Live>,
        list: Vec<PendingJob<J>>,
    ) -> Listed<N, J>
        requires places { places ≡ length armer.now.seen.armed }
        ensures seen { result.seen ≡ desk.old }
        ensures all { IsListing armer.now.seen result }
    {
        let seen = Snapshot::of(desk);
        let mut list = list;
        let has_more = list_untold(desk, armer, places, due, &mut list);
        Listed {
            seen,
            list,
            has_more,
        }
    }

    /// Returns the desk at the look, the list, and whether more is pending.
    #[inline(always)]
    pub fn parts(self) -> (Snapshot<Desk<N, J>>, Vec<PendingJob<J>>, bool)
        ensures seen { result.0.value ≡ self.seen }
        ensures list { map (λ u. u.what) result.1.items ≡ self.list }
        ensures more { result.2 ≡ self.has_more }
    {
        let Listed {
            seen,
            list,
            has_more,
        } = self;
        (seen, list, has_more)
    }
}

/// Takes the operation's job for the name from the desk, if the job is wanted.
#[inline(always)]
pub fn job_of<N: Name, J: HandshakeOp>(
    desk: &mut Desk<N, J>,
    number: u64,
    name: u64,
    is_wanted: bool,
) -> Option<J>
    ensures job { IfSome result (λ j. (J.whom j ≡ name) × (J.number j ≡ number)) }
    ensures same { (desk.new.book ≡ desk.old.book) × (desk.new.keeper ≡ desk.old.keeper) }
    ensures sizes { (desk.new.slots ≡ desk.old.slots) × (desk.new.methods ≡ desk.old.methods) }
{
    if is_wanted {
        desk.take_job(number, name)
    } else {
        None
    }
}

// The next pending operation of a live thread, by the number with which its place was last armed. None if nothing is
// pending, or the place doesn't exist.
#[inline(always)]
fn telling_of<N: Name, J: HandshakeOp>(
    desk: &Desk<N, J>,
    armer: &PollArmer,
    places: usize,
    kind: Kind,
    who: Live,
) -> Option<PendingOp>
    requires places { places ≡ length armer.now.seen.armed }
    ensures { result ≡ telling_of (at desk.now) kind armer.now.seen who }
{
    if who.place >= places {
        return None;
    }
    let last = armer.last(who.place);
    let number = match desk.untold(who.name, last) {
        Some(number) => number,
        None => return None,
    };
    Some(PendingOp {
        name: who.name,
        target: Target {
            place: who.place,
            kind,
        },
        number,
        last,
    })
}

// Whether more is pending for a thread after the operation of this number.
#[inline(always)]
fn has_more<N: Name, J: HandshakeOp>(desk: &Desk<N, J>, name: u64, number: u64) -> bool
    requires next { (last : ℕ) × (untold (at desk.now) name last ≡ Some number) }
    ensures { result ≡ is_there (untold (at desk.now) name number) }
{
    desk.open_count() > 1 && desk.untold(name, number).is_some()
}

// Takes the operation's job from the desk. A census has none.
#[inline(always)]
fn with_job<N: Name, J: HandshakeOp>(desk: &mut Desk<N, J>, what: PendingOp) -> PendingJob<J>
    ensures what { result.what ≡ what }
    ensures job { IfSome result.job (λ j. (J.whom j ≡ what.name) × (J.number j ≡ what.number)) }
    ensures same { (desk.new.book ≡ desk.old.book) × (desk.new.keeper ≡ desk.old.keeper) }
    ensures sizes { (desk.new.slots ≡ desk.old.slots) × (desk.new.methods ≡ desk.old.methods) }
{
    let job = job_of(
        desk,
        what.number,
        what.name,
        what.target.kind == Kind::Handshake,
    );
    PendingJob { what, job }
}

// Lists the next pending operation of each thread, as far as the list has room. Returns whether more is pending for
// any, or the list is too short.
#[inline(always)]
fn list_each<N: Name, J: HandshakeOp>(
    desk: &mut Desk<N, J>,
    armer: &PollArmer,
    places: usize,
    kind: Kind,
    due: &[Live],
    list: &mut Vec<PendingJob<J>>,
) -> bool
    requires places { places ≡ length armer.now.seen.armed }

    ensures items { map (λ u. u.what) list.new.items
        ≡ map (λ u. u.what) list.old.items ++ take (vec_capacity list.old - vec_len list.old)
        (tellings (at desk.old) kind armer.now.seen due.now) }
    ensures all { result ≡ false → (any_more (at desk.old) kind armer.now.seen due.now ≡ false)
        × (length (tellings (at desk.old) kind armer.now.seen due.now)
        ≤ vec_capacity list.old - vec_len list.old) }
    ensures more { result ≡ true → (any_more (at desk.old) kind armer.now.seen due.now ≡ true)
        ⊎ (vec_capacity list.old - vec_len list.old
        < length (tellings (at desk.old) kind armer.now.seen due.now)) }
    ensures same { (desk.new.book ≡ desk.old.book) × (desk.new.keeper ≡ desk.old.keeper) }
    ensures sizes { (desk.new.slots ≡ desk.old.slots) × (desk.new.methods ≡ desk.old.methods) }
{
    let mut more = false;
    let mut rest = due;
    while let Some((who, others)) = rest.split_first() {
        if let Some(what) = telling_of(desk, armer, places, kind, *who) {
            if list.len() >= list.capacity() {
                return true;
            }
            more = has_more(desk, what.name, what.number) || more;
            list.push_reserved(with_job(desk, what));
        }
        rest = others;
    }
    more
}

// As `telling_of`, for a thread that is due for the handshake of this number, which is open alone.
#[inline(always)]
fn telling_alone(armer: &PollArmer, places: usize, number: u64, who: Live) -> Option<PendingOp>
    requires places { places ≡ length armer.now.seen.armed }
    ensures { result ≡ telling_alone armer.now.seen number who }
{
    if who.place >= places {
        return None;
    }
    let last = armer.last(who.place);
    if last >= number {
        return None;
    }
    Some(PendingOp {
        name: who.name,
        target: Target {
            place: who.place,
            kind: Kind::Handshake,
        },
        number,
        last,
    })
}

// As `list_each`, for threads that are due for the handshake of this number, which is open alone. So its targets aren't
// searched, and nothing is pending after it.
#[inline(always)]
fn list_alone<N: Name, J: HandshakeOp>(
    desk: &mut Desk<N, J>,
    armer: &PollArmer,
    places: usize,
    number: u64,
    due: &[Live],
    list: &mut Vec<PendingJob<J>>,
) -> bool
    requires places { places ≡ length armer.now.seen.armed }
    requires asked { AreAskedAlone (at desk.old) number due.now }

    ensures items { map (λ u. u.what) list.new.items
        ≡ map (λ u. u.what) list.old.items ++ take (vec_capacity list.old - vec_len list.old)
        (tellings (at desk.old) kind.Handshake armer.now.seen due.now) }
    ensures all { result ≡ false → (any_more (at desk.old) kind.Handshake armer.now.seen due.now ≡ false)
        × (length (tellings (at desk.old) kind.Handshake armer.now.seen due.now)
        ≤ vec_capacity list.old - vec_len list.old) }
    ensures more { result ≡ true → vec_capacity list.old - vec_len list.old
        < length (tellings (at desk.old) kind.Handshake armer.now.seen due.now) }
    ensures same { (desk.new.book ≡ desk.old.book) × (desk.new.keeper ≡ desk.old.keeper) }
    ensures sizes { (desk.new.slots ≡ desk.old.slots) × (desk.new.methods ≡ desk.old.methods) }
{
    let mut rest = due;
    while let Some((who, others)) = rest.split_first() {
        if let Some(what) = telling_alone(armer, places, number, *who) {
            if list.len() >= list.capacity() {
                return true;
            }
            list.push_reserved(with_job(desk, what));
        }
        rest = others;
    }
    false
}

// Lists the due threads and the next pending operation of each, as far as the lists have room. Returns whether more is
// pending for any, or may be more than there is room for.
#[inline(always)]
pub(crate) fn list_untold<N: Name, J: HandshakeOp>(
    desk: &mut Desk<N, J>,
    armer: &PollArmer,
    places: usize,
    due: &mut Vec<Live>,
    list: &mut Vec<PendingJob<J>>,
) -> bool
    requires places { places ≡ length armer.now.seen.armed }

    ensures due { due.new.items ≡ take (vec_capacity due.old) (due_in (at desk.old)) }
    ensures list { map (λ u. u.what) list.new.items ≡ take (vec_capacity list.old)
        (tellings (at desk.old) (kind_told (at desk.old)) armer.now.seen due.new.items) }
    ensures all { result ≡ false → (due.new.items ≡ due_in (at desk.old))
        × (map (λ u. u.what) list.new.items
        ≡ tellings (at desk.old) (kind_told (at desk.old)) armer.now.seen due.new.items)
        × (any_more (at desk.old) (kind_told (at desk.old)) armer.now.seen due.new.items ≡ false) }
    ensures more { result ≡ true → (vec_capacity due.old ≤ length (due_in (at desk.old)))
        ⊎ ((any_more (at desk.old) (kind_told (at desk.old)) armer.now.seen due.new.items ≡ true)
        ⊎ (vec_capacity list.old < length
        (tellings (at desk.old) (kind_told (at desk.old)) armer.now.seen due.new.items))) }
    ensures same { (desk.new.book ≡ desk.old.book) × (desk.new.keeper ≡ desk.old.keeper) }
{
    due.clear();
    list.clear();
    let Some(kind) = desk.open_kind() else {
        return false;
    };
    desk.list_due(false, due);
    due_are_told();
    let more = match desk.only_handshake() {
        Some(number) => list_alone(desk, armer, places, number, due.as_slice(), list),
        None => list_each(desk, armer, places, kind, due.as_slice(), list),
    };
    more || due.len() >= due.capacity()
}
