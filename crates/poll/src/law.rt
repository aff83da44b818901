//! The rule of a row, which its table keeps, and the view of a seat after each kind of step.
ghost use Rattle.std.specs.Prelude.{[]};
ghost use Rattle.thread_state.specs.PollRule.{first_arming};
ghost use Rattle.poll.specs.declared.views.Watch.TheVariants.{Armer as IsArming, Ended as HasEnded};
ghost use Rattle.poll.specs.Rows.{IsRow, left_of, right_of, both_of, Polls, Clears, Arms};
ghost use Rattle.poll.specs.Laws.{PollsElsewhereRefused, ClearsElsewhereRefused, ArmsElsewhereRefused, WordsTellTheCleared, WordsApart};

use crate::views::Watch;
use atomic_table::{Join, Play, Split, TableRule};

/// The rule of the poll words, stated over the words of a table and the views of its seats. Its key is the number of places.
pub struct PollLaw;

impl TableRule<(), Watch, usize> for PollLaw {
    ghost holds = { IsRow };

    ghost first = { λ places. IsArming (first_arming places) [] 0 };
}

// Splits the armer's seat: the new seat is the poller of the next place.
pub struct SplitPoller;

impl Split<Watch> for SplitPoller {
    ghost left = { left_of };

    ghost right = { right_of };
}

// Ends a poller: the armer's view takes over what the poller's view knew.
pub struct JoinPoller;

impl Join<Watch> for JoinPoller {
    ghost both = { both_of };

    ghost spent = { HasEnded };
}

pub struct PollPlay;

impl Play<(), Watch> for PollPlay {
    ghost then = { Polls };
}

pub struct ClearPlay;

impl Play<(), Watch> for ClearPlay {
    ghost then = { Clears };
}

pub struct ArmPlay;

impl Play<(), Watch> for ArmPlay {
    ghost then = { Arms };
}

/// A law: between any two steps, the word of a place is 0 exactly if the number with which the place was last armed is cleared.
#[tactic(auto, using(crate::proofs::Refused::tell_the_cleared))]
pub fn words_are_zero_where_cleared()
    ensures { WordsTellTheCleared }
{}

/// A law: the words of two places are at least 8 words apart, which is a cache line.
#[tactic(auto, using(crate::proofs::Refused::words_apart))]
pub fn words_lie_lines_apart()
    ensures { WordsApart }
{}

/// A law: no step at another word than its own gives a poller the view that it cleared its word, or tried to.
pub fn no_clear_is_of_another_word()
    ensures { ClearsElsewhereRefused }
{}

/// A law: no step at another word than the place's gives the armer the view that it armed the place.
pub fn no_arming_is_of_another_word()
    ensures { ArmsElsewhereRefused }
{}

/// A law: the result of a poll is the word of the poller's own place. Whatever a `Play` says, the rule of the row allows no step at
/// another word after which the poller's view is that of a poll.
pub fn no_poll_is_of_another_word()
    ensures { PollsElsewhereRefused }
{}
