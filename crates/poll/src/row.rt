//! A row of poll words, and the seats that step on them.
ghost use Rattle.std.specs.Prelude.{◌≡◌, ◌≢◌, ◌⊎◌, ℕ, ◌==◌, ◌<◌, ◌≤◌, ◌^◌, true, [], length, vec_len, slice_index, slice_get, Some, IfOk};
ghost use Rattle.thread_state.specs.PollRule.{IsPlaceKept, armed_with, polled, exchanged};
ghost use Rattle.poll.specs.Rows.{RowId, ArmerSeen, PollerSeen, of_armer, of_poller, arming_of, watching_of, word_at, words_of, IsArmer, IsPoller, IsMet, place_left, first_poller, full_armer, PollerSteps, ArmerSteps};

use crate::law::{ArmPlay, ClearPlay, JoinPoller, PollLaw, PollPlay, SplitPoller};
use crate::views::Watch;
use crate::words::{word_at, words_of};
use atomic_table::{Seat, Table};
use std::alloc::{AllocError, Global};
use std::marker::Model;

/// The poll words, one for each place. Contracts see the row's identity.
#[derive(Drop)]
pub struct PollRow {
    table: Table<(), Watch, usize, PollLaw, Global>,
}

impl Model for PollRow {
    ghost Value = { RowId };

    ghost view = { λ r. r.table.shared.table_id };

    ghost invariant = { λ r. (r.table.shared.table_id.words ≡ words_of r.table.shared.key)
        × (r.table.shared.key ≤ 64) × (r.table.shared.table_id.slots ≡ 0) };
}

/// Arms places with the numbers of operations. Contracts see the row's identity, the number with which each place was last armed,
/// how many steps the armer has made, and its last step.
#[derive(Drop)]
pub struct Armer {
    seat: Seat<(), Watch>,
    last: Vec<u64>,
}

impl Model for Armer {
    ghost Value = { ArmerSeen };

    ghost view = { λ a. of_armer a.seat.table_id a.seat.me.0 };

    ghost invariant = { λ a. IsArmer a.seat.me.0 × (a.last.items ≡ (arming_of a.seat.me.0).armed)
        × (a.seat.table_id.words ≡ words_of (length a.last.items)) };
}

/// Loads and clears the word of one place. Contracts see the row's identity, the place, the number that the poller cleared last,
/// how many steps the poller has made, and its last step.
#[derive(Drop)]
pub struct Poller {
    seat: Seat<(), Watch>,
    word: usize,
}

impl Model for Poller {
    ghost Value = { PollerSeen };

    ghost view = { λ p. of_poller p.seat.table_id p.seat.me.0 };

    ghost invariant = { λ p. IsPoller p.seat.me.0 × (p.seat.me.1 ≡ [])
        × (p.word ≡ word_at (watching_of 0 p.seat.me.0).place) × (p.word < p.seat.table_id.words) };
}

impl PollRow {
    /// Makes a row of words that are 0, its armer, and a poller for each place in order. The error is that memory was refused.
    /// There are 1 to 64 places. Nothing else in the crate takes memory.
    pub fn new(alloc: Global, places: usize) -> Result<(PollRow, Armer, Vec<Poller>), AllocError>
        requires { (0 < places) × (places ≤ 64) }
        ensures armer { IfOk result (λ t. t.1 ≡ full_armer t.0 places) }
        ensures pollers { IfOk result (λ t. vec_len t.2 ≡ places) }
        ensures places { IfOk result (λ t. (k : ℕ) → k < places
            → slice_get t.2.items k ≡ Some (first_poller t.0 k)) }
    {
        let words = vec![in alloc; 0; words_of(places)]?;
        let last = vec![in alloc; 0; places]?;
        let mut pollers = Vec::with_capacity(alloc, places)?;
        let (table, mut seat) = Table::of_words(alloc, words.as_slice(), &places)?;
        for place in 0..places {
            let seat = table.shared.split_seat::<SplitPoller>(&mut seat);
            let word = word_at(place);
            pollers.push_reserved(Poller { seat, word });
        }
        Ok((PollRow { table }, Armer { seat, last }, pollers))
    }

    /// The recent value of a place's word, 0 past the last place. Nothing is guaranteed about it, and reading it is no step.
    pub fn peek(&self, place: usize) -> u64 {
        if place >= 64 {
            return 0;
        }
        let word = word_at(place);
        if word >= self.table.word_count() {
            return 0;
        }
        self.table.shared.peek(word)
    }

    /// Ends the row with its armer and all its pollers, in the order of their places. Returns the last value of each place's word.
    pub fn close(self, armer: Armer, mut pollers: Vec<Poller>) -> Vec<u64>
        requires armer { armer.table ≡ self }
        requires count { vec_len pollers ≡ length armer.seen.armed }
        requires pollers { (k : ℕ) (p : PollerSeen) → slice_get pollers.items k ≡ Some p
            → (p.table ≡ self) × (p.seen.place ≡ k) }
        ensures count { vec_len result ≡ length armer.seen.armed }
        ensures kept { (k : ℕ) (p : PollerSeen) → slice_get pollers.items k ≡ Some p
            → IsPlaceKept (place_left result.items armer p) }
    {
        let PollRow { table } = self;
        let Armer { mut seat, mut last } = armer;
        while let Some(poller) = pollers.pop() {
            let Poller {
                seat: other,
                word: _,
            } = poller;
            table.shared.join_seat::<JoinPoller>(&mut seat, other);
        }
        let closed = table.close_with(seat);
        for place in 0..last.len() {
            last[place] = closed.word(word_at(place));
        }
        closed.free();
        last
    }
}

impl Poller {
    /// Polls: returns the number that the place is armed with, 0 if it isn't armed or its last number is cleared. One load. The
    /// result is 0, or greater than every number that this poller has cleared.
    #[inline(always)]
    pub fn poll(&mut self, row: &PollRow) -> u64
        requires row { self.old.table ≡ row.now }

        ensures row { self.new.table ≡ self.old.table }
        ensures step { self.new.seen ≡ polled self.old.seen result }
        ensures made { PollerSteps self.old.seen self.new.seen }
        ensures stamp { self.old.stamp < self.new.stamp }
        ensures later { (result ≡ 0) ⊎ (self.old.seen.cleared < result) }
    {
        let word = self.word;
        row.table.shared.load::<PollPlay>(&mut self.seat, word)
    }

    /// Disarms the place if it is armed with `n`, which isn't 0. Returns whether it was. One compare-exchange of `n` against 0: a
    /// greater number that was armed meanwhile stays.
    pub fn clear(&mut self, row: &PollRow, n: u64) -> bool
        requires row { self.old.table ≡ row.now }
        requires number { n ≢ 0 }

        ensures row { self.new.table ≡ self.old.table }
        ensures step { (found : ℕ) × IsMet self.old.seen.cleared found
            × (self.new.seen ≡ exchanged self.old.seen n found) × (result ≡ (found == n)) }
        ensures made { PollerSteps self.old.seen self.new.seen }
        ensures stamp { self.old.stamp < self.new.stamp }
        ensures later { result ≡ true → self.old.seen.cleared < n }
    {
        let word = self.word;
        row.table
            .shared
            .compare_exchange::<ClearPlay>(&mut self.seat, word, n, 0)
            == n
    }
}

impl Armer {
    /// Arms the place with the number of an operation: one store. The number is greater than the one with which the place was last
    /// armed, and below 2^40.
    pub fn arm(&mut self, row: &PollRow, place: usize, n: u64)
        requires row { self.old.table ≡ row.now }
        requires place { place < length self.old.seen.armed }
        requires later { slice_index self.old.seen.armed place < n }
        requires small { n < 2 ^ 40 }

        ensures row { self.new.table ≡ self.old.table }
        ensures step { self.new.seen ≡ armed_with self.old.seen place n }
        ensures made { ArmerSteps self.old.seen self.new.seen }
        ensures stamp { self.old.stamp < self.new.stamp }
    {
        row.table
            .shared
            .store::<ArmPlay>(&mut self.seat, word_at(place), n);
        self.last[place] = n;
    }

    /// How many places the row of this armer has, at most 64.
    pub fn places(&self, row: &PollRow) -> usize
        requires row { self.now.table ≡ row.now }
        ensures value { result ≡ length self.now.seen.armed }
        ensures bound { result ≤ 64 }
    {
        let _ = &self.seat;
        let _ = &row.table;
        self.last.len()
    }

    /// The number with which the place was last armed, 0 at first. This call makes no step.
    pub fn last(&self, place: usize) -> u64
        requires place { place < length self.now.seen.armed }
        ensures { result ≡ slice_index self.now.seen.armed place }
    {
        self.last[place]
    }
}
