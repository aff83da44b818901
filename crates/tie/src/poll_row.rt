//! Laws of the poll row in all worlds that events lead to.
ghost use Rattle.tie.specs.PollRow.{RowsKeepTheRule, EventsAreTheirPolls};
ghost use Rattle.tie.specs.PollAnswers.{PollsAnswerTheirWords, PollsLoadTheirWord};

/// After any events, the poll row of the core's world satisfies the rule of the poll words.
pub fn rows_keep_the_rule()
    ensures { RowsKeepTheRule }
{}

/// Each event changes the poll row by exactly the step that the table lists for it: a load at a poll, an exchange at a Clear, a store at a
/// Tell that is answered Told. Every other event, and each refused one, makes no step.
pub fn events_are_their_polls()
    ensures { EventsAreTheirPolls }
{}

/// The core's answer is the one that a running call computes from the poll word that the event's step meets. A poll goes on exactly where
/// the word is 0, and otherwise stops for the number in it. An accepted Clear finds its number there, or a greater one, which stays.
pub fn polls_answer_their_words()
    ensures { PollsAnswerTheirWords }
{}

/// An accepted Edge, Leave, Cross or FromVm makes one step on the row: it loads the word of its place. It answers Go where it loads 0, and
/// otherwise Stop with the loaded number.
pub fn polls_load_their_word()
    ensures { PollsLoadTheirWord }
{}
