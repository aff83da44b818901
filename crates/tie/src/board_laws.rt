// Laws of the board of a world.
ghost use Rattle.tie.specs.BoardOf.{BoardsKeepTheRule, CoveredComparesWords};
ghost use Rattle.tie.specs.Steps.{EventsAreTheirSteps};
ghost use Rattle.tie.specs.Answers.{AnswersAreReadOff, RoundsReadTheMoment};

/// After any events, the board of the world satisfies the rule of a code board.
pub fn boards_keep_the_rule()
    ensures { BoardsKeepTheRule }
{}

/// After any events, the next event takes the board to that of the world after it. It does this by exactly the steps that the table lists
/// for it and its answer, each allowed where it is made. Where there are two steps, the board between them satisfies the rule too. Where
/// there is none, the board doesn't change.
pub fn events_are_their_steps()
    ensures { EventsAreTheirSteps }
{}

/// Covered is a comparison of two words: for a code that is not entrant, the place's word is 0 or above the moment at which the keeper
/// invalidated the code. A Look computes this from the word that it loads.
pub fn covered_compares_words()
    ensures { CoveredComparesWords }
{}

/// The core's answer is the one that a running call computes from the word that the event's step loads. Enter is answered Entered exactly
/// where the entry says that the code is in use. Look is answered Clear exactly where the place's word passes. Weigh answers the count,
/// and retires the code where the count is 0.
pub fn answers_are_read_off_the_words()
    ensures { AnswersAreReadOff }
{}

/// The keeper's view determines the answer of a Round: it is accepted exactly where the moment is below 2^40 - 1, and otherwise refused as
/// Spent.
pub fn rounds_read_the_moment()
    ensures { RoundsReadTheMoment }
{}
