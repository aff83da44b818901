//! What the seats of a row know. The program makes no value of this type: it is for contracts only.
use std::collections::LinkedList;
use thread_state::poll_rule::{Arming, Watching};

/// The view of a seat. The last number is its stamp, which rises at each step of the seat. Of two seats, the one with the greater
/// stamp made the later step.
pub enum Watch {
    /// The armer's view. While a row is being closed, it also lists the place of each poller that has ended, with the number that
    /// this poller cleared last.
    Armer(Arming, LinkedList<(u64, u64)>, u64),
    Poller(Watching, u64),
    /// The view of a poller that has ended.
    Ended,
}
