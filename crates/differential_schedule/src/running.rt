//! A running system as a schedule uses it.
use crate::calls::Call;
use crate::said::Said;
use frames::{CodeId, Frame};
use std::alloc::AllocError;
use thread_state::State;

/// How many places, slots and methods a system has.
#[derive(Clone, Copy)]
pub struct Sizes {
    pub places: usize,
    pub slots: u32,
    pub methods: u32,
}

/// A live thread, with its name.
#[derive(Clone, Copy)]
pub struct Thread {
    pub name: u64,
    pub place: usize,
    pub state: State,
}

/// A running system in the runtime `R`. One thread makes all its calls.
pub trait Running<R>: Drop {
    /// Makes the call. It blocks if the core answers that the call would wait.
    fn answer(&mut self, rt: &R, call: Call) -> Said;

    /// The counts of the last census.
    fn counted(&self) -> &[(u64, u32)];

    /// The thread at the index; None past the last.
    fn thread(&self, index: usize) -> Option<Thread>;

    /// The poll word of the place.
    fn poll_word(&self, place: usize) -> u64;

    /// The method's hint.
    fn hint(&self, method: u32) -> Option<CodeId>;

    /// Why the code can't be weighed; Done if it can.
    fn weighable(&self, rt: &R, serial: u64) -> Said;

    /// The count word of the slot.
    fn count_word(&self, slot: u32) -> u64;

    /// The sum of the count words.
    fn sum_of_counts(&self) -> u64;

    /// The names of the live threads.
    fn live(&self, rt: &R) -> Result<Vec<u64>, AllocError>;

    /// The replies of the operation, each with its name; none if they are forgotten.
    fn replies(&self, rt: &R, op: u64) -> Result<Vec<(u64, u64)>, AllocError>;

    /// The names with their replies of the operation; None if they are forgotten.
    fn kept_replies(&self, rt: &R, op: u64) -> Result<Option<Vec<(u64, u64)>>, AllocError>;

    /// The frames of the thread, if its body is in its berth: the thread is away and not held.
    fn stack(&self, rt: &R, thread: Thread) -> Result<Option<Vec<Frame>>, AllocError>;
}
