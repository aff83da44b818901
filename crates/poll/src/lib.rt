//! Poll words, one for each place. An armer arms a place by storing into its word. The place's poller loads the word and clears it.
//! Each is one atomic step.
//! `bodies` polls with this crate, and `stopped_threads` and `coordinator_core` arm with it.
//! Read `src/words.rt` first, then `specs/Laws.antt` and the rule in `thread_state/specs/PollRule.antt`.
#![tactic(auto)]

mod law;
mod row;
pub mod views;
mod words;

pub use law::{
    PollLaw, no_arming_is_of_another_word, no_clear_is_of_another_word, no_poll_is_of_another_word,
    words_are_zero_where_cleared, words_lie_lines_apart,
};
pub use row::{Armer, PollRow, Poller};
