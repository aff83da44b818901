//! The history with the room that is reserved in it, the replies by operation, and the receipts of entries.
//!
//! Nothing reads an entry, so the entries exist only in proofs. Only their count and the replies of the threads are
//! stored.
//!
//! The first part of the history can be forgotten: contracts still see the whole history, but the forgotten entries no
//! longer count. The replies to the first operations can be forgotten too; contracts see which.
ghost use Rattle.std.specs.Prelude.{◌≡◌, ℕ, ◌+◌, ◌-◌, ◌<◌, ◌≤◌, [], ◌∷◌, ◌++◌, length, drop, true, false, None, OnOk, IfOk, IfErr};
ghost use Rattle.desk.specs.declared.entries.Entry.{Entry as EntryOf};
ghost use Rattle.desk.specs.Fields.{install_entries, kept_before};
ghost use Rattle.desk.specs.Once.{reply_in};
ghost use Rattle.desk.specs.Machine.{stands, steps_of, targets_of};
ghost use Rattle.desk.specs.Room.{has_room, entries_kept, room_fault};
ghost use Rattle.desk.specs.Replies.{of_number, replies_kept, HasLess};
ghost use Rattle.desk.specs.Spans.{silent};

use crate::entries::Entry;
use crate::ghost_history::Past;
use crate::lists::{count_of_targets, steps_of};
use crate::replies::{Replies, place_of};
use bodies::Name;
use method_table::table::Installed;
use operations::Request;
use std::alloc::{AllocError, Global};
use std::marker::{Model, PhantomData};
use std::snapshot::Snapshot;

/// The largest number of entries in a history, without the forgotten ones.
pub const MOST: usize = 1_000_000;

/// The receipt of an entry: the entry and its place in the history of the desk of N. Only a log makes one. It exists
/// only in proofs and takes no memory.
#[derive(Drop)]
pub struct Receipt<N: Name> {
    before: Snapshot<Past>,
    entry: Snapshot<Entry>,
    of: PhantomData<N>,
}

impl<N: Name> Model for Receipt<N> {
    ghost use Rattle.std.specs.Prelude.{length};
    ghost use Rattle.desk.specs.Machine.{Stands};

    ghost Value = { Stands };

    ghost view = { λ r. record {
      place = length r.before.value.entries;
      entry = r.entry.value;
    } };
}

/// The length of the history of the desk of N at one time. Only a log makes one.
#[derive(Drop)]
pub struct Length<N: Name> {
    past: Snapshot<Past>,
    of: PhantomData<N>,
}

impl<N: Name> Model for Length<N> {
    ghost use Rattle.std.specs.Prelude.{ℕ, length};

    ghost Value = { ℕ };

    ghost view = { λ l. length l.past.value.entries };
}

/// The log. Contracts see the entries, the number of further entries with reserved room, the replies to each operation
/// that was asked, and for how many more operations and replies there is memory.
#[derive(Drop)]
pub struct Log<N: Name> {
    past: Past,
    /// The number of entries, without the forgotten ones.
    count: usize,
    reserved: usize,
    /// The last operation whose replies were forgotten. A Finish reads it, so it lies beside the fields that a Finish
    /// changes.
    forgotten: u64,
    replies: Replies,
    of: PhantomData<N>,
}

impl<N: Name> Model for Log<N> {
    ghost use Rattle.std.specs.Prelude.{◌-◌, ◌+◌, ◌≤◌, length};
    ghost use Rattle.desk.specs.Replies.{Logged, AreReplies};

    ghost Value = { Logged };

    ghost view = { λ l. record {
      book = record {
        history = l.past.entries;
        reserved = l.reserved;
        gone = record {
          entries = length l.past.entries - l.count;
          operations = l.forgotten;
        };
      };
      lists = l.replies.lists;
      spare = l.replies.spare;
      places = l.replies.places;
    } };

    ghost invariant = { λ l. (l.count ≤ length l.past.entries)
        × (l.count + l.reserved ≤ 1000000)
        × AreReplies l.forgotten l.past.entries l.replies.lists };
}

/// Why no room is reserved.
#[derive(Drop, Clone, Copy, PartialEq, Eq, Debug)]
pub enum RoomFault {
    HistoryFull,
    NoMemory,
}

// Whether more entries fit besides the existing and the reserved ones.
fn fits(len: usize, reserved: usize, more: usize) -> bool
    ensures { result ≡ has_room len reserved more }
{
    match len.checked_add(reserved) {
        Some(sum) => match sum.checked_add(more) {
            Some(sum) => sum <= MOST,
            None => false,
        },
        None => false,
    }
}

// Appends an entry.
#[inline(always)]
fn append<N: Name>(past: &mut Past, count: &mut usize, entry: Snapshot<Entry>) -> Receipt<N>
    requires { count.old < 1000000 }
    ensures history { past.new.entries ≡ past.old.entries ++ entry.value ∷ [] }
    ensures length { length past.new.entries ≡ length past.old.entries + 1 }
    ensures count { count.new ≡ count.old + 1 }
    ensures receipt { result ≡ stands (length past.old.entries) entry.value }
{
    let before = Snapshot::of(past);
    *past = past.then(&entry);
    *count += 1;
    Receipt {
        before,
        entry,
        of: PhantomData,
    }
}

/// Returns the entry of an Ask as contracts see it, and gives the request back.
#[inline(always)]
pub fn seen_as_ask(number: u64, request: Request) -> (Snapshot<Entry>, Request)
    ensures { (result.0.value ≡ Entry.Ask number request) × (result.1 ≡ request) }
{
    let entry = Entry::Ask(number, request);
    let asked = Snapshot::of(&entry);
    match entry {
        Entry::Ask(_, request) => (asked, request),
        _ => unreachable!(),
    }
}

impl<N: Name> Log<N> {
    pub fn new(alloc: Global) -> Log<N>
        ensures empty { (result.book.history ≡ [])
            × (result.book.reserved ≡ 0)
            × (result.lists ≡ []) }
        ensures gone { (result.book.gone.entries ≡ 0) × (result.book.gone.operations ≡ 0) }
    {
        Log {
            past: Past::new(),
            count: 0,
            reserved: 0,
            forgotten: 0,
            replies: Replies::new(alloc),
            of: PhantomData,
        }
    }

    /// Returns the replies to an operation, each with its thread's name, in the order of the entries; none if they were
    /// forgotten. Refused only if memory is refused.
    pub fn replies(&self, alloc: Global, op: u64) -> Result<Vec<(u64, u64)>, AllocError>
        ensures { IfOk result (λ list. list.items ≡ replies_kept op self.now.book) }
    {
        match place_of(op.saturating_sub(self.forgotten), self.replies.len()) {
            Some(place) => self.replies.copied(alloc, place),
            None => Ok(Vec::new(alloc)),
        }
    }

    /// Returns the length of the history.
    pub fn length(&self) -> Length<N>
        ensures { result ≡ length self.now.book.history }
    {
        Length {
            past: Snapshot::of(&self.past),
            of: PhantomData,
        }
    }

    /// Returns the last operation whose replies were forgotten.
    pub fn forgotten(&self) -> u64
        ensures { result ≡ self.now.book.gone.operations }
    {
        self.forgotten
    }

    /// Returns whether the history has room for more entries.
    pub fn has_room(&self, more: usize) -> bool
        ensures { result ≡ has_room (entries_kept self.now.book) self.now.book.reserved more }
    {
        fits(self.count, self.reserved, more)
    }

    /// Reserves room for more entries. Returns false if the history hasn't that much room.
    pub fn keep(&mut self, more: usize) -> bool
        ensures answer { result ≡ has_room (entries_kept self.old.book) self.old.book.reserved more }
        ensures kept { result ≡ true → self.new.book.reserved ≡ self.old.book.reserved + more }
        ensures full { result ≡ false → self.new.book.reserved ≡ self.old.book.reserved }
        ensures history { self.new.book.history ≡ self.old.book.history }
        ensures gone { self.new.book.gone ≡ self.old.book.gone }
        ensures replies { (self.new.lists ≡ self.old.lists)
            × (self.new.spare ≡ self.old.spare)
            × (self.new.places ≡ self.old.places) }
    {
        if !self.has_room(more) {
            return false;
        }
        self.reserved += more;
        true
    }

    /// Gives up reserved room.
    pub fn give_back(&mut self, less: usize)
        requires { less ≤ self.old.book.reserved }
        ensures book { (self.new.book.history ≡ self.old.book.history)
            × (self.new.book.reserved + less ≡ self.old.book.reserved) }
        ensures gone { self.new.book.gone ≡ self.old.book.gone }
        ensures lists { self.new.lists ≡ self.old.lists }
        ensures spare { self.new.spare ≡ self.old.spare }
    {
        self.reserved -= less;
    }

    /// Reserves room for all entries and replies that a request can cause. Returns the number of its targets. Refused
    /// with `HistoryFull`, then `NoMemory`; then nothing is reserved.
    #[inline(always)]
    pub fn keep_request(&mut self, request: &Request) -> Result<usize, RoomFault>
        requires steps { steps_of request.now ≤ 64 }

        ensures targets { IfOk result (λ targets.
            (targets ≡ length (targets_of request.now)) × (targets ≤ 64)) }
        ensures room { IfOk result (λ targets.
            (0 < self.new.spare) × (targets ≤ self.new.places)) }
        ensures reserved { OnOk result
            (self.new.book.reserved ≡ self.old.book.reserved + (3 + steps_of request.now)) }
        ensures accepted { OnOk result (has_room (entries_kept self.old.book) self.old.book.reserved
            (3 + steps_of request.now) ≡ true) }
        ensures same { (self.new.book.history ≡ self.old.book.history)
            × (self.new.book.gone ≡ self.old.book.gone)
            × (self.new.lists ≡ self.old.lists) }

        ensures err { IfErr result (λ e. (self.new.book ≡ self.old.book)
            × room_fault (has_room (entries_kept self.old.book) self.old.book.reserved
            (3 + steps_of request.now)) e) }
    {
        let entries = 3 + steps_of(request);
        if !self.keep(entries) {
            return Err(RoomFault::HistoryFull);
        }
        let targets = count_of_targets(request);
        if self.replies.reserve(targets).is_err() {
            self.give_back(entries);
            return Err(RoomFault::NoMemory);
        }
        Ok(targets)
    }

    /// Appends an entry that has no reply, in reserved room.
    #[inline(always)]
    pub fn enter(&mut self, entry: Entry) -> Receipt<N>
        requires reserved { 0 < self.old.book.reserved }
        requires no_reply { (n : ℕ) → reply_in n entry ≡ None }

        ensures gone { self.new.book.gone ≡ self.old.book.gone }
        ensures history { self.new.book.history ≡ self.old.book.history ++ entry ∷ [] }
        ensures reserved { self.new.book.reserved + 1 ≡ self.old.book.reserved }
        ensures lists { self.new.lists ≡ self.old.lists }
        ensures receipt { result ≡ stands (length self.old.book.history) entry }
    {
        let seen = Snapshot::of(&entry);
        self.reserved -= 1;
        append(&mut self.past, &mut self.count, seen)
    }

    /// Appends the entries of an install: the Invalidate of the replaced code, if any, and then the Install. Returns
    /// the receipt of the Install.
    pub fn enter_install(&mut self, installed: Installed, method: u64) -> Receipt<N>
        requires reserved { 1 < self.old.book.reserved }

        ensures gone { self.new.book.gone ≡ self.old.book.gone }
        ensures history { self.new.book.history
            ≡ self.old.book.history ++ install_entries installed.replaced installed.code method }
        ensures reserved { self.new.book.reserved + 1 + kept_before installed.replaced
            ≡ self.old.book.reserved }
        ensures lists { self.new.lists ≡ self.old.lists }
        ensures receipt { result
            ≡ stands (length self.old.book.history + kept_before installed.replaced)
            (EntryOf.Install installed.code method) }
    {
        if let Some(old) = installed.replaced {
            let _ = self.enter(Entry::Invalidate(old.serial));
        }
        self.enter(Entry::Install(installed.code, method))
    }

    /// Appends an Ask, with memory for `targets` replies, in reserved room.
    #[inline(always)]
    pub fn enter_ask(&mut self, targets: usize, seen: Snapshot<Entry>) -> Receipt<N>
        requires reserved { 0 < self.old.book.reserved }
        requires spare { 0 < self.old.spare }
        requires places { targets ≤ self.old.places }
        requires few { targets ≤ 64 }
        requires no_reply { (n : ℕ) → reply_in n seen.value ≡ None }

        ensures gone { self.new.book.gone ≡ self.old.book.gone }
        ensures history { self.new.book.history ≡ self.old.book.history ++ seen.value ∷ [] }
        ensures reserved { self.new.book.reserved + 1 ≡ self.old.book.reserved }
        ensures lists { self.new.lists ≡ self.old.lists ++ silent targets ∷ [] }
        ensures receipt { result ≡ stands (length self.old.book.history) seen.value }
    {
        self.reserved -= 1;
        self.replies.add(targets);
        append(&mut self.past, &mut self.count, seen)
    }

    /// Appends a Finish, and its reply to the replies of its operation, in reserved room.
    #[inline(always)]
    pub fn enter_finish(&mut self, op: u64, name: u64, reply: u64) -> Receipt<N>
        requires reserved { 0 < self.old.book.reserved }
        requires room { 0 < (of_number (op - self.old.book.gone.operations) self.old.lists).room }

        ensures gone { self.new.book.gone ≡ self.old.book.gone }
        ensures history { self.new.book.history
            ≡ self.old.book.history ++ Entry.Finish op name reply ∷ [] }
        ensures reserved { self.new.book.reserved + 1 ≡ self.old.book.reserved }
        ensures count { length self.new.lists ≡ length self.old.lists }
        ensures rooms { HasLess (op - self.old.book.gone.operations) self.old.lists self.new.lists }
        ensures receipt { result
            ≡ stands (length self.old.book.history) (Entry.Finish op name reply) }
    {
        self.reserved -= 1;
        self.replies
            .push((op - self.forgotten - 1) as usize, name, reply);
        let entry = Entry::Finish(op, name, reply);
        append(&mut self.past, &mut self.count, Snapshot::of(&entry))
    }

    /// Forgets the entries so far, so that they don't count, and the replies to the operations up to `last`. Their
    /// memory is reused.
    pub fn forget(&mut self, last: u64)
        requires later { self.old.book.gone.operations ≤ last }
        requires given { last ≤ self.old.book.gone.operations + length self.old.lists }
        ensures book { (self.new.book.history ≡ self.old.book.history)
            × (self.new.book.reserved ≡ self.old.book.reserved) }
        ensures gone { self.new.book.gone
            ≡ record { entries = length self.old.book.history; operations = last } }
        ensures lists { self.new.lists
            ≡ drop (last - self.old.book.gone.operations) self.old.lists }
    {
        self.count = 0;
        self.replies.forget((last - self.forgotten) as usize);
        self.forgotten = last;
    }
}
