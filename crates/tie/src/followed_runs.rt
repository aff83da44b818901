//! Laws of whole runs: a running system that makes the steps of some events ends with the words of the world after them.
ghost use Rattle.tie.specs.Followed.{RunsAreTheirSteps, BoardsFollowTheEvents, WordsFollowTheEvents, NewBoardsAreNewWorlds, RunsAreTheirPolls, RowsFollowTheEvents, PollWordsFollowTheEvents, NewRowsAreNewWorlds};

/// After any events, the steps of the next events, event by event, take the board to that of the world after them, and the board satisfies
/// the rule after each step.
pub fn runs_are_their_steps()
    ensures { RunsAreTheirSteps }
{}

/// A board that starts with the words and views of a world, and makes the steps of the next events, ends with the words and views of the
/// world after them. At each step it meets the value that the world's board holds there. Only the seats and the kinds of the steps need to
/// be those of the events: the values that they meet follow.
pub fn boards_follow_the_events()
    ensures { BoardsFollowTheEvents }
{}

/// A board that starts with the words of a world, whatever its seats know, and makes the steps of the next events and meets the values
/// that these met, ends with the words of the world after them.
pub fn words_follow_the_events()
    ensures { WordsFollowTheEvents }
{}

/// A new board has the words and the views of a new world.
pub fn new_boards_are_new_worlds()
    ensures { NewBoardsAreNewWorlds }
{}

/// After any events, exactly the steps of the next events take the poll row to that of the world after them.
pub fn runs_are_their_polls()
    ensures { RunsAreTheirPolls }
{}

/// A row that starts as that of a world, and makes the steps of the next events, ends as the row of the world after them. At each step it
/// meets the value that the world's row holds there.
pub fn rows_follow_the_events()
    ensures { RowsFollowTheEvents }
{}

/// A row that starts with the words of a world's row, and makes the steps of the next events and meets the values that these met, ends
/// with the words of the row after them.
pub fn poll_words_follow_the_events()
    ensures { PollWordsFollowTheEvents }
{}

/// A new row is that of a new world.
pub fn new_rows_are_new_worlds()
    ensures { NewRowsAreNewWorlds }
{}
