//! How many activations each code has, by the code's serial.
//! `system` counts in it, and `bodies` takes a census by it.
//! Read `specs/Counts.antt` first, then `src/lib.rt` and `src/dense.rt`.
//!
//! An [`Index`] maps serials to counts. It is a list of entries in rising serial without zeros. Its memory is reserved
//! once, and a search is binary. A census is this list as it is.
//! A [`DenseIndex`](dense::DenseIndex) has a cell for each slot instead. So it adds and reads without a search, and
//! sorts its cells for a census.
#![tactic(auto)]

ghost use Rattle.std.specs.Prelude.{◌≡◌, ◌≢◌, ℕ, ◌+◌, ◌-◌, ◌<◌, ◌≤◌, ◌==◌, List, [], ◌∷◌, ◌++◌, length, take, drop, true, false, IfOk, pos, ℤ, ◌+ℤ◌, ◌≤ℤ◌, ◌<ℤ◌, map, nat_lt, vec_capacity, vec_len, insert, remove, slice_set, slice_get};
ghost use Rattle.activation_index.specs.Counts.{IndexView, count_in, entries_for, put, place_in, with_entry, IsRisingFrom, IsAt, IsNotAt};

use std::alloc::{AllocError, Global};
use std::marker::Model;

pub mod dense;

/// A code's serial with its count of activations.
#[derive(Clone, Copy, Debug, PartialEq, Eq, Drop)]
pub struct Entry {
    pub serial: u64,
    pub count: u32,
}

/// The counts of at most `slots` codes, by serial. A serial without an entry has the count 0.
///
/// Contracts see its number of slots and its entries in rising serial, none with count 0.
#[derive(Drop)]
pub struct Index {
    slots: usize,
    entries: Vec<Entry>,
}

impl Model for Index {
    ghost use Rattle.std.specs.Prelude.{◌≤◌, length, vec_capacity};
    ghost use Rattle.activation_index.specs.Counts.{IndexView, IsRisingFrom};

    ghost Value = { IndexView };

    ghost view = { λ i. record { slots = i.slots; entries = i.entries.items } };

    ghost invariant = { λ i. (i.slots ≤ vec_capacity i.entries) × (length i.entries.items ≤ i.slots)
        × IsRisingFrom 0 i.entries.items };
}

impl Index {
    /// Makes an empty index with memory for the counts of `slots` codes. No other method but `census` allocates.
    ///
    /// # Errors
    /// Memory is refused.
    pub fn new(alloc: Global, slots: usize) -> Result<Index, AllocError>
        ensures empty { IfOk result (λ index. index ≡ record { slots = slots; entries = [] }) }
    {
        Ok(Index {
            slots,
            entries: Vec::with_capacity(alloc, slots)?,
        })
    }

    /// Returns the count of the code with this serial, or 0.
    pub fn count(&self, serial: u64) -> u32
        ensures count { result ≡ count_in self.now.entries serial }
        ensures rising { IsRisingFrom 0 self.now.entries }
        ensures few { length self.now.entries ≤ self.now.slots }
    {
        count_of(&self.entries, serial)
    }

    /// Adds `by` to the count of the code with this serial.
    ///
    /// The new count must be from 0 to 16,384, which is 64 stacks of 256 frames. At most `slots` codes may then have
    /// counts; to show this the caller may assume that the entries rise, as those of every index do.
    pub fn add(&mut self, serial: u64, by: i32)
        requires low { pos 0 ≤ℤ (pos (count_in self.old.entries serial) +ℤ by) }
        requires high { (pos (count_in self.old.entries serial) +ℤ by) ≤ℤ pos 16384 }
        requires room { IsRisingFrom 0 self.old.entries → count_in self.old.entries serial ≡ 0
            → by ≢ pos 0 → length self.old.entries < self.old.slots }

        ensures slots { self.new.slots ≡ self.old.slots }
        ensures here { pos (count_in self.new.entries serial)
            ≡ pos (count_in self.old.entries serial) +ℤ by }
        ensures others { (other : ℕ) → other ≢ serial
            → count_in self.new.entries other ≡ count_in self.old.entries other }
        ensures taken { length self.new.entries + entries_for (count_in self.old.entries serial)
            ≡ length self.old.entries + entries_for (count_in self.new.entries serial) }
        ensures rising { IsRisingFrom 0 self.new.entries }
        ensures few { length self.new.entries ≤ self.new.slots }
    {
        let count = moved(count_of(&self.entries, serial), by);
        put(&mut self.entries, serial, count);
    }

    /// Returns the serials with a count above 0, rising, each with its count.
    ///
    /// # Errors
    /// Memory is refused.
    pub fn census(&self, alloc: Global) -> Result<Vec<(u64, u32)>, AllocError>
        ensures census { IfOk result (λ census.
            census.items ≡ map (λ entry. (entry.serial, entry.count)) self.now.entries) }
        ensures rising { IsRisingFrom 0 self.now.entries }
    {
        self.entries
            .iter()
            .map(|entry| (entry.serial, entry.count))
            .collect(alloc)
    }
}

fn count_of(entries: &[Entry], serial: u64) -> u32
    requires { IsRisingFrom 0 entries.now }
    ensures { result ≡ count_in entries.now serial }
{
    let place = place_of(entries, serial);
    if stands_at(entries, serial, place) {
        entries[place].count
    } else {
        0
    }
}

// The sum is taken in 64 bits, since neither summand's type holds both.
fn moved(count: u32, by: i32) -> u32
    requires low { pos 0 ≤ℤ (pos count +ℤ by) }
    requires high { (pos count +ℤ by) ≤ℤ pos 16384 }
    ensures value { pos result ≡ pos count +ℤ by }
{
    (i64::from(count) + i64::from(by)) as u32
}

// The index of the serial's entry, or the index at which it belongs.
fn place_of(entries: &[Entry], serial: u64) -> usize
    requires { IsRisingFrom 0 entries.now }
    ensures { result ≡ place_in entries.now serial }
{
    entries.partition_point(|entry| entry.serial < serial)
}

// Sets the serial's count. A count of 0 removes the entry.
fn put(entries: &mut Vec<Entry>, serial: u64, count: u32)
    requires rising { IsRisingFrom 0 entries.old.items }
    requires room { count_in entries.old.items serial ≡ 0 → count ≢ 0
        → vec_len entries.old < vec_capacity entries.old }
    ensures items { entries.new.items ≡ put entries.old.items serial count }
    ensures capacity { vec_capacity entries.old ≤ vec_capacity entries.new }
{
    let place = place_of(entries, serial);
    if stands_at(entries, serial, place) {
        if count == 0 {
            entries.remove(place);
        } else {
            entries[place] = Entry { serial, count };
        }
    } else if count != 0 {
        match entries.insert(place, Entry { serial, count }) {
            Ok(()) => {}
            Err(_) => unreachable!(),
        }
    }
}

fn stands_at(entries: &[Entry], serial: u64, place: usize) -> bool
    ensures yes { result ≡ true → (place < length entries.now) × IsAt entries.now serial place }
    ensures no { result ≡ false → IsNotAt entries.now serial place }
{
    place < entries.len() && entries[place].serial == serial
}
