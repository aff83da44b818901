//! The due names of an open request, and the memory that is reserved for them while the request waits.
ghost use Rattle.std.specs.Prelude.{◌≡◌, ◌<◌, ◌≤◌, ◌+◌, ◌++◌, length, drop, true, false, IfOk, IfSome, IfNone, OnErr, slice_index, vec_len, vec_capacity};
ghost use Rattle.std.specs.Option.{option_to_list};
ghost use Rattle.operations.specs.Names.{among, is_distinct};
ghost use Rattle.desk.specs.Machine.{others, live_of, none_live, targets_of};

use crate::entries::Live;
use crate::lists::lives;
use operations::Request;
use std::alloc::{AllocError, Global};
use std::marker::Model;

/// Memory for the due names of a request. Contracts see its capacity, without the first name.
#[derive(Drop)]
pub struct DueRoom {
    later: Vec<u64>,
}

impl Model for DueRoom {
    ghost use Rattle.std.specs.Prelude.{◌≡◌, [], ℕ, vec_capacity};

    ghost Value = { ℕ };

    ghost view = { λ r. vec_capacity r.later };

    ghost invariant = { λ r. r.later.items ≡ [] };
}

// The index of a name among these, by a linear search.
#[tactic(auto, using(crate::proofs::Distinct::none_among))]
fn first_place(names: &[u64], name: u64) -> Option<usize>
    ensures some { IfSome result (λ i. (i < length names.now) × (slice_index names.now i ≡ name)) }
    ensures none { IfNone result (among name names.now ≡ false) }
{
    for place in 0..names.len() {
        if names[place] == name {
            return Some(place);
        }
    }
    None
}

// The index of a name among these. The first guess is the distance of the name from the first one, which is right for
// threads that started one after another. A binary search follows, since most lists of names are in ascending order,
// and then a linear one.
#[inline(always)]
fn place_among(names: &[u64], name: u64) -> Option<usize>
    ensures some { IfSome result (λ i. (i < length names.now) × (slice_index names.now i ≡ name)) }
    ensures none { IfNone result (among name names.now ≡ false) }
{
    if names.is_empty() {
        return None;
    }
    let behind = name.saturating_sub(names[0]);
    if behind < names.len() as u64 && names[behind as usize] == name {
        return Some(behind as usize);
    }
    match names.binary_search(&name) {
        Ok(place) if names[place] == name => Some(place),
        _ => first_place(names, name),
    }
}

/// Returns whether a name is among these.
#[tactic(auto, using(operations::proofs::Names::listed_at))]
#[inline(always)]
pub fn is_among(names: &[u64], name: u64) -> bool
    ensures { result ≡ among name names.now }
{
    place_among(names, name).is_some()
}

// Whether a name is among these. The first name is tried before the others.
#[tactic(auto, using(operations::proofs::Names::listed_at))]
#[inline(always)]
fn is_first_or_among(names: &[u64], name: u64) -> bool
    ensures { result ≡ among name names.now }
{
    if !names.is_empty() && names[0] == name {
        return true;
    }
    is_among(names, name)
}

// The names that aren't removed: those after the first `gone`.
#[inline(always)]
fn rest(names: &Vec<u64>, gone: usize) -> &[u64]
    requires { gone ≤ length names.now.items }
    ensures { result.now ≡ drop gone names.now.items }
{
    names.as_slice().split_at(gone).1
}

// Removes a name from those after the first `gone`, and returns the new number of removed names at the front. A name is
// there once at most. The first one, which it mostly is, stays in memory and is counted as removed. For any other name,
// those after it move by one place.
#[inline(always)]
fn take_off(names: &mut Vec<u64>, gone: usize, name: u64) -> usize
    requires gone { gone ≤ length names.old.items }
    requires distinct { is_distinct (drop gone names.old.items) ≡ true }
    ensures others { drop result names.new.items ≡ others name (drop gone names.old.items) }
    ensures gone { result ≤ length names.new.items }
{
    if gone < names.len() && names[gone] == name {
        return gone + 1;
    }
    if let Some(place) = place_among(rest(names, gone), name) {
        names.remove(gone + place);
    }
    gone
}

// Appends the live ones of the names, in reserved room.
#[inline(always)]
fn push_live(list: &mut Vec<u64>, names: &[u64], live: &[Live])
    requires room { vec_len list.old + length names.now ≤ vec_capacity list.old }
    ensures items { list.new.items ≡ list.old.items ++ live_of live.now names.now }
    ensures capacity { vec_capacity list.new ≡ vec_capacity list.old }
{
    let mut rest = names;
    while let Some((name, others)) = rest.split_first() {
        if lives(live, *name) {
            list.push_reserved(*name);
        }
        rest = others;
    }
}

fn all_gone(names: &[u64], live: &[Live]) -> bool
    ensures { result ≡ none_live live.now names.now }
{
    names.iter().all(|x| !lives(live, *x))
}

impl DueRoom {
    /// Makes room without memory. Doesn't allocate.
    pub fn new(alloc: Global) -> DueRoom
        ensures { result ≡ 0 }
    {
        DueRoom {
            later: Vec::new(alloc),
        }
    }

    /// Returns memory for `count` names, and never less than before. Reuses the present memory if it is enough. Refused
    /// only if memory is refused.
    #[inline(always)]
    pub fn for_names(self, count: usize) -> Result<DueRoom, AllocError>
        ensures ok { IfOk result (λ room. count ≤ room + 1) }
        ensures no_less { IfOk result (λ room. self ≤ room) }
        ensures err { OnErr result (self + 1 < count) }
    {
        let DueRoom { mut later } = self;
        later.reserve(count.saturating_sub(1))?;
        Ok(DueRoom { later })
    }
}

/// The due names of an open request. The first one is stored inline, so that a thread which loads the cache lines of
/// the request finds a single target there. Contracts see the names in order, and the capacity without the first name.
#[derive(Drop)]
pub struct Awaited {
    first: Option<u64>,
    later: Vec<u64>,
    /// How many removed names are still in memory, at the front of the later ones.
    gone: usize,
}

impl Model for Awaited {
    ghost use Rattle.std.specs.Prelude.{◌++◌, ◌≤◌, drop, length, vec_capacity};
    ghost use Rattle.std.specs.Option.{option_to_list};
    ghost use Rattle.desk.specs.Names.{NamesSeen};

    ghost Value = { NamesSeen };

    ghost view = { λ d. record {
      items = option_to_list d.first
          ++ drop d.gone d.later.items;
      capacity = vec_capacity d.later;
    } };

    ghost invariant = { λ d. d.gone ≤ length d.later.items };
}

impl Awaited {
    /// Returns the live targets of the request, in this memory.
    #[inline(always)]
    pub fn live_targets(room: DueRoom, request: &Request, live: &[Live]) -> Awaited
        requires room { length (targets_of request.now) ≤ room + 1 }
        ensures items { result.items ≡ live_of live.now (targets_of request.now) }
        ensures capacity { result.capacity ≡ room }
    {
        let DueRoom { mut later } = room;
        let mut first = None;
        if let Request::Handshake { targets, .. } = request {
            if let Some((name, others)) = targets.as_slice().split_first() {
                if lives(live, *name) {
                    first = Some(*name);
                }
                push_live(&mut later, others, live);
            }
        }
        Awaited {
            first,
            later,
            gone: 0,
        }
    }

    /// Returns the memory of this list, and drops the names.
    #[inline(always)]
    pub fn into_room(self) -> DueRoom
        ensures { result ≡ self.capacity }
    {
        let Awaited {
            first: _,
            mut later,
            gone: _,
        } = self;
        later.clear();
        DueRoom { later }
    }

    /// Returns whether a name is among these.
    #[inline(always)]
    pub fn has(&self, name: u64) -> bool
        ensures { result ≡ among name self.now.items }
    {
        match self.first {
            Some(first) if first == name => true,
            _ => is_among(rest(&self.later, self.gone), name),
        }
    }

    /// Returns the first name, unless it is removed, and the later ones.
    #[inline(always)]
    pub fn parts(&self) -> (Option<u64>, &[u64])
        ensures { option_to_list result.0 ++ result.1.now ≡ self.now.items }
    {
        (self.first, rest(&self.later, self.gone))
    }

    /// Returns whether a name is among these. Tries the first name first: if threads are served in the order of names,
    /// it is the one.
    #[inline(always)]
    pub fn has_next(&self, name: u64) -> bool
        ensures { result ≡ among name self.now.items }
    {
        match self.first {
            Some(first) if first == name => true,
            _ => is_first_or_among(rest(&self.later, self.gone), name),
        }
    }

    /// Removes a name, which is in the list at most once.
    #[inline(always)]
    pub fn take_off(&mut self, name: u64)
        requires { is_distinct self.old.items ≡ true }
        ensures { self.new.items ≡ others name self.old.items }
    {
        match self.first {
            Some(first) if first == name => self.first = None,
            _ => self.gone = take_off(&mut self.later, self.gone, name),
        }
    }

    /// Returns whether none of the names is live.
    #[inline(always)]
    pub fn are_gone(&self, live: &[Live]) -> bool
        ensures { result ≡ none_live live.now self.now.items }
    {
        if let Some(first) = self.first {
            if lives(live, first) {
                return false;
            }
        }
        all_gone(rest(&self.later, self.gone), live)
    }
}
