//! The views of a poll row's seats. Only contracts use these types: code makes no value of them.
ghost use Rattle.thread_state.specs.PollRule.{PlaceState, IsPlaceKept, IsFound, StepsKeep};

use std::collections::LinkedList;

/// The last step of a seat, with its arguments and the loaded value.
pub enum Deed {
    Nothing,
    /// The loaded value.
    Load(u64),
    /// The place and the stored number.
    Store(u64, u64),
    /// The expected number and the loaded value.
    Exchange(u64, u64),
}

/// The armer's view.
pub struct Arming {
    /// The number last armed at each place, 0 at first.
    pub armed: LinkedList<u64>,
    /// How many pollers were split off.
    pub split: u64,
    /// How many steps the armer made.
    pub steps: u64,
    pub last: Deed,
}

/// The view of a place's poller.
pub struct Watching {
    pub place: u64,
    /// The number that the poller last cleared, 0 at first.
    pub cleared: u64,
    /// How many steps the poller made.
    pub steps: u64,
    pub last: Deed,
}

/// A law: each step preserves the rule of the poll words.
pub fn steps_keep_the_rule()
    ensures { StepsKeep }
{}

/// A law: a word that meets the rule is 0 if the number last armed is cleared, and otherwise that number.
pub fn words_tell_what_is_armed()
    ensures { (place : PlaceState) → IsPlaceKept place → IsFound place }
{}
