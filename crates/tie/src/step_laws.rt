//! Laws of the steps that the running tables make: the state before a step and the values that it meets determine the state after it.
ghost use Rattle.tie.specs.Determined.{BoardStepsAreDetermined, BoardStepsMeetTheWords, RowStepsAreDetermined};

/// The words before a step, its seat and the values that it meets determine the words after it; the views before it determine the views
/// after it. Words and views are those of the board's slots and places.
pub fn board_steps_are_determined()
    ensures { BoardStepsAreDetermined }
{}

/// On a board that satisfies the rule, the words before a step, its seat and its kind determine the values that it meets.
pub fn board_steps_meet_the_words()
    ensures { BoardStepsMeetTheWords }
{}

/// The words before a step of a poll row determine the words after it, and the row before it determines the row after it. The value that
/// it meets is determined too.
pub fn row_steps_are_determined()
    ensures { RowStepsAreDetermined }
{}
