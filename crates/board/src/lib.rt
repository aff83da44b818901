//! The code board, in atomic words: which codes are in use, how often each is counted, and in which moment (global epoch) each
//! place last published.
//! `bodies` counts and publishes with this crate, and `desk` keeps its codes in it.
//! Read `src/board.rt` first, then `src/thread_seat.rt`, `src/keeper.rt` and the rule in `frames/specs/BoardRule.antt`.
//!
//! The words and views meet the rule between any two steps. There are twelve kinds of step. Each call makes one of these steps or
//! none, except `replace`, which makes two. No call waits, and none takes memory once the board is made. The view of a call's seat
//! shows what the call did: the number of the seat's steps, and the last step with the value that it found.
#![tactic(auto)]

mod board;
mod closed;
mod keeper;
mod law;
mod note;
mod rule;
mod thread_seat;
mod weighed;
mod words;

pub use board::Board;
pub use closed::ClosedBoard;
pub use keeper::{Keeper, Spent};
pub use law::{
    answers_stand_in_the_words, keeper_answers_stand_in_the_words, no_entry_is_of_another_word,
    no_look_is_of_another_word, no_moment_is_of_another_word, no_weight_is_of_another_word,
    words_lie_lines_apart, words_lie_lines_inside,
};
pub use rule::BoardRule;
pub use thread_seat::ThreadSeat;
pub use weighed::Weighed;
