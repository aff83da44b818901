//! What the rule of a board requires of each step, whatever a `Play` says of it, and how far apart the words are.
ghost use Rattle.board.specs.Laws.{AnswersStand, KeeperAnswersStand, MomentsElsewhereRefused, EntriesElsewhereRefused, LooksElsewhereRefused, WeightsElsewhereRefused, WordsApart, WordsInside};

/// A law: the words are as a thread's view says after the thread's step. Whatever a `Play` says, the rule refuses every other step,
/// on any board on which the thread has its view.
pub fn answers_stand_in_the_words()
    ensures { AnswersStand }
{}

/// A law: the words are as the keeper's view says after the keeper's step. Whatever a `Play` says, the rule refuses every other
/// step, on any board on which the keeper has its view and some thread its seat.
pub fn keeper_answers_stand_in_the_words()
    ensures { KeeperAnswersStand }
{}

/// A law: no step at another word gives a thread the view that it loaded the board's moment.
pub fn no_moment_is_of_another_word()
    ensures { MomentsElsewhereRefused }
{}

/// A law: no step at another word gives a thread the view that it loaded an entry.
pub fn no_entry_is_of_another_word()
    ensures { EntriesElsewhereRefused }
{}

/// A law: no step at another word gives the keeper the view that it looked at a place.
pub fn no_look_is_of_another_word()
    ensures { LooksElsewhereRefused }
{}

/// A law: no step at another word gives the keeper the view that it weighed a code.
pub fn no_weight_is_of_another_word()
    ensures { WeightsElsewhereRefused }
{}

/// A law: words that different threads write are at least 8 words apart, which is a cache line.
pub fn words_lie_lines_apart()
    ensures { WordsApart }
{}

/// A law: there are 8 words before the first of a board's words and 8 after the last.
pub fn words_lie_lines_inside()
    ensures { WordsInside }
{}
