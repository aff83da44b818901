//! The replies to all operations, in one block, so that an operation needs no memory of its own.
ghost use Rattle.std.specs.Prelude.{◌≡◌, ℕ, ◌+◌, ◌<◌, ◌≤◌, ◌⊎◌, ◌++◌, ◌∷◌, [], length, map, drop, replicate, get_or, slice_set, IfOk, OnOk, IfSome, IfNone, vec_len, vec_capacity};
ghost use Rattle.desk.specs.Replies.{nothing_said};
ghost use Rattle.desk.specs.Spans.{silent, answered, earlier};
ghost use Rattle.desk.specs.declared.replies.Span.{Span as SpanOf};

use std::alloc::{AllocError, Global};
use std::marker::Model;

/// A span of the block: where the replies to an operation begin, how many there are, and how many more fit after them.
#[derive(Clone, Copy)]
pub struct Span {
    start: usize,
    said: u32,
    room: u32,
}

/// The replies by operation, each with its thread's name, in the order of arrival. Contracts see the replies to each
/// operation with the number that may still follow, and the memory for further operations and replies.
#[derive(Drop)]
pub struct Replies {
    all: Vec<(u64, u64)>,
    spans: Vec<Span>,
}

impl Model for Replies {
    ghost use Rattle.std.specs.Prelude.{◌-◌, map, length, vec_len, vec_capacity};
    ghost use Rattle.desk.specs.Spans.{RepliesSeen, said_in, AreBehind, AreFew};

    ghost Value = { RepliesSeen };

    ghost view = { λ r. record {
      lists = map (said_in r.all.items) r.spans.items;
      spare = vec_capacity r.spans - vec_len r.spans;
      places = vec_capacity r.all - vec_len r.all;
    } };

    ghost invariant = { λ r. AreBehind 0 r.spans.items (length r.all.items)
        × AreFew r.spans.items };
}

// Appends `places` empty places, in reserved room; a reply is written into its place later.
fn fill(all: &mut Vec<(u64, u64)>, places: usize)
    requires room { vec_len all.old + places ≤ vec_capacity all.old }
    ensures items { all.new.items ≡ all.old.items ++ replicate places (0, 0) }
{
    for _ in 0..places {
        all.push_reserved((0, 0));
    }
}

// Drops the first `count` items of a list, which keeps its memory.
fn drop_first<T: Copy>(list: &mut Vec<T>, count: usize)
    requires { count ≤ vec_len list.old }
    ensures items { list.new.items ≡ drop count list.old.items }
{
    let kept = list.len() - count;
    list.copy_within(count.., 0);
    list.truncate(kept);
}

// Moves the spans `less` places towards the front, since that many places before them are dropped.
fn shift(spans: &mut Vec<Span>, less: usize)
    requires { (k : ℕ) (s : SpanOf)
        → k < length spans.old.items
        → less ≤ (get_or spans.old.items k s).start }
    ensures { spans.new.items ≡ map (earlier less) spans.old.items }
{
    for place in 0..spans.len() {
        let Span { start, said, room } = spans[place];
        spans[place] = Span {
            start: start - less,
            said,
            room,
        };
    }
}

impl Replies {
    pub fn new(alloc: Global) -> Replies
        ensures { result.lists ≡ [] }
    {
        Replies {
            all: Vec::new(alloc),
            spans: Vec::new(alloc),
        }
    }

    /// Returns how many operations there are.
    pub fn len(&self) -> usize
        ensures { result ≡ length self.now.lists }
    {
        self.spans.len()
    }

    /// Reserves memory for one more operation with this many replies. Refused only if memory is refused.
    #[inline(always)]
    pub fn reserve(&mut self, replies: usize) -> Result<(), AllocError>
        ensures room { OnOk result ((0 < self.new.spare) × (replies ≤ self.new.places)) }
        ensures lists { self.new.lists ≡ self.old.lists }
    {
        self.spans.reserve(1)?;
        self.all.reserve(replies)
    }

    /// Adds an operation that can have this many replies, in reserved memory.
    #[inline(always)]
    pub fn add(&mut self, replies: usize)
        requires spare { 0 < self.old.spare }
        requires places { replies ≤ self.old.places }
        requires few { replies ≤ 64 }
        ensures { self.new.lists ≡ self.old.lists ++ silent replies ∷ [] }
    {
        let start = self.all.len();
        fill(&mut self.all, replies);
        self.spans.push_reserved(Span {
            start,
            said: 0,
            room: replies as u32,
        });
    }

    /// Appends a reply to those of the operation at an index.
    #[inline(always)]
    pub fn push(&mut self, place: usize, name: u64, reply: u64)
        requires place { place < length self.old.lists }
        requires room { 0 < (get_or self.old.lists place nothing_said).room }
        ensures { self.new.lists
            ≡ slice_set self.old.lists place
            (answered (name, reply) (get_or self.old.lists place nothing_said)) }
    {
        let Span { start, said, room } = self.spans[place];
        self.spans[place] = Span {
            start,
            said: said + 1,
            room: room - 1,
        };
        self.all[start + said as usize] = (name, reply);
    }

    /// Forgets the first `count` operations. Their memory is reused.
    pub fn forget(&mut self, count: usize)
        requires { count ≤ length self.old.lists }
        ensures { self.new.lists ≡ drop count self.old.lists }
    {
        if count == self.spans.len() {
            self.all.clear();
            self.spans.clear();
            return;
        }
        let from = self.spans[count].start;
        drop_first(&mut self.spans, count);
        drop_first(&mut self.all, from);
        shift(&mut self.spans, from);
    }

    /// Returns the replies to the operation at an index, each with its thread's name. Refused only if memory is
    /// refused.
    pub fn copied(&self, alloc: Global, place: usize) -> Result<Vec<(u64, u64)>, AllocError>
        requires { place < length self.now.lists }
        ensures { IfOk result (λ list.
            list.items ≡ (get_or self.now.lists place nothing_said).said) }
    {
        let Span {
            start,
            said,
            room: _,
        } = self.spans[place];
        Vec::from_slice(alloc, &self.all[start..start + said as usize])
    }
}

/// Returns the index of an operation's list among `count` lists. Operation numbers rise by one from 1.
pub fn place_of(op: u64, count: usize) -> Option<usize>
    ensures some { IfSome result (λ place. (place + 1 ≡ op) × (place < count)) }
    ensures none { IfNone result ((op ≡ 0) ⊎ (count < op)) }
{
    if op == 0 || op > count as u64 {
        None
    } else {
        Some((op - 1) as usize)
    }
}
