//! Laws that tie the core to the desk's list machine.
ghost use Rattle.tie.specs.DeskOf.{EventsAreTheirEntries, HistoriesAreLegal, DesksFollowTheEvents, RepliesAreTheCores, EntriesAreAppended, RefusedEnterNothing, DesksGoOn};
ghost use Rattle.tie.specs.DeskRefusals.{RefusalsAgree};
ghost use Rattle.tie.specs.DeskTargets.{DesksHaveTheTargets, DesksTellTheSame, DeskAndBoardAreOfOneWorld};

/// The entries of the next event, whatever it is, take the desk's state to that of the world after it, each lawful where it is made.
pub fn events_are_their_entries()
    ensures { EventsAreTheirEntries }
{}

/// The entries of any events are a legal history.
pub fn histories_are_legal()
    ensures { HistoriesAreLegal }
{}

/// The state after this history is the desk of the world after the events.
pub fn desks_follow_the_events()
    ensures { DesksFollowTheEvents }
{}

/// The history has the same replies to each operation as the core.
pub fn replies_are_the_cores()
    ensures { RepliesAreTheCores }
{}

/// One event more appends its entries and nothing else.
pub fn entries_are_appended()
    ensures { EntriesAreAppended }
{}

/// Where the core refuses a call, the desk refuses it for the same reason.
pub fn refusals_agree()
    ensures { RefusalsAgree }
{}

/// The core and the desk agree on the targets of each operation, and on whose Finish is next.
pub fn desks_have_the_targets()
    ensures { DesksHaveTheTargets }
{}

/// A refused event makes no entry.
pub fn refused_enter_nothing()
    ensures { RefusedEnterNothing }
{}

/// A desk in the state of a world that makes the entries of the next events ends in the state of the world after them.
pub fn desks_go_on()
    ensures { DesksGoOn }
{}

/// The operation for which a Tell arms a thread's poll is the thread's next one at the desk, after the number with which the place was
/// last armed.
pub fn desks_tell_the_same()
    ensures { DesksTellTheSame }
{}

/// The desk and the board of a world have the same codes, and the desk's live names are those at the world's places.
pub fn desk_and_board_are_of_one_world()
    ensures { DeskAndBoardAreOfOneWorld }
{}
