// Cases that are easily confused: the definitions give these answers, by computation.
ghost use Rattle.rows.specs.Lines.{Plays};
ghost use Rattle.rows.specs.Traps;

/// A full queue is reported before any fault of the targets; no targets are reported before bad ones.
pub fn ask_order()
    ensures { Plays 1 1 1 Traps.ask_order }
{}

/// A stop keeps where the thread resumes, in Java or in the VM.
pub fn way_back_to_the_vm()
    ensures { Plays 1 4 2 Traps.way_back_to_the_vm }
{}

/// A frame left and entered again since it was shown is no change.
pub fn left_and_entered_again()
    ensures { Plays 1 4 2 Traps.left_and_entered_again }
{}

/// A thread whose poll isn't armed may exit while a census is open; the refusals of Operate and Close in their order.
pub fn exit_in_an_open_census()
    ensures { Plays 2 4 2 Traps.exit_in_an_open_census }
{}

/// A thread that is released after a census, before its poll is cleared, clears it itself.
pub fn clear_after_a_census()
    ensures { Plays 1 4 2 Traps.clear_after_a_census }
{}

/// Changes have ascending serials, whatever the order of the frames.
pub fn change_order()
    ensures { Plays 1 4 2 Traps.change_order }
{}

/// The refusals of Clear and Finish in their order.
pub fn clear_order()
    ensures { Plays 2 4 2 Traps.clear_order }
{}

/// A full stack is reported before code that isn't entrant, and before code of another method.
pub fn depth_full_before_wrong_method()
    ensures { Plays 1 4 2 Traps.depth_full_before_wrong_method }
{}

/// The refusals of Enter in their order.
pub fn enter_order()
    ensures { Plays 1 2 2 Traps.enter_order }
{}

/// The refusals of Exit: frames first, then unpublished changes.
pub fn exit_order()
    ensures { Plays 1 4 2 Traps.exit_order }
{}

/// The refusals of Exit: unpublished changes first, then a pending operation.
pub fn exit_unpublished_before_pending()
    ensures { Plays 1 4 2 Traps.exit_unpublished_before_pending }
{}

/// A thread that never published exits with an empty stack.
pub fn exit_without_a_publication()
    ensures { Plays 1 1 1 Traps.exit_without_a_publication }
{}

/// A target that exits before its poll is armed is gone, and its operation closes.
pub fn exit_before_being_told()
    ensures { Plays 1 4 2 Traps.exit_before_being_told }
{}

/// A new thread that is held is served although it has never published.
pub fn finish_of_a_new_thread()
    ensures { Plays 1 1 1 Traps.finish_of_a_new_thread }
{}

/// A target that starts after Open is gone for that operation; its poll is armed for the next one.
pub fn target_started_later()
    ensures { Plays 1 1 1 Traps.target_started_later }
{}

/// The refusals of Hold in their order.
pub fn hold_order()
    ensures { Plays 1 4 2 Traps.hold_order }
{}

/// A full table refuses an install although it would replace a code in use; a zombie still takes its slot.
pub fn install_order()
    ensures { Plays 1 2 2 Traps.install_order }
{}

/// A place that was looked at for a code stays looked at, although a later look is late.
pub fn look_for_good()
    ensures { Plays 1 1 1 Traps.look_for_good }
{}

/// A place whose thread never ended a publication is clear; after its first End it may be late.
pub fn look_before_the_first_end()
    ensures { Plays 1 1 1 Traps.look_before_the_first_end }
{}

/// Names that were never given out are gone in a handshake that lists them, and no targets of a census.
pub fn names_never_given()
    ensures { Plays 1 4 2 Traps.names_never_given }
{}

/// A held thread publishes and is served whatever its state.
pub fn publication_of_a_held_thread()
    ensures { Plays 1 4 2 Traps.publication_of_a_held_thread }
{}

/// The refusals of Open, Operate and Close where nothing or another kind is open.
pub fn open_order()
    ensures { Plays 1 1 1 Traps.open_order }
{}

/// The common tests in their order: place, vacant place, open publication, state.
pub fn publishing_before_state()
    ensures { Plays 2 1 1 Traps.publishing_before_state }
{}

/// A place is covered by invalidation, round, begin and end in this order alone.
pub fn round_between()
    ensures { Plays 1 4 2 Traps.round_between }
{}

/// A thread stops at each poll until it has cleared.
pub fn stopped_until_cleared()
    ensures { Plays 1 4 2 Traps.stopped_until_cleared }
{}

/// A freed code is unknown to each call but those of its state and its entry.
pub fn freed_is_unknown()
    ensures { Plays 1 1 1 Traps.freed_is_unknown }
{}

/// A place that wasn't looked at is reported before the count.
pub fn not_looked_before_used()
    ensures { Plays 2 4 2 Traps.not_looked_before_used }
{}

/// Weigh tests the count, which already includes the Changes of an open publication.
pub fn weighed_while_publishing()
    ensures { Plays 1 4 2 Traps.weighed_while_publishing }
{}

/// An entry of code that isn't in use is answered `wrong method`, whichever method the code was for.
pub fn wrong_method_of_any_method()
    ensures { Plays 1 4 2 Traps.wrong_method_of_any_method }
{}

/// No place is left; an open census is reported before that.
pub fn start_order()
    ensures { Plays 1 1 1 Traps.start_order }
{}

/// A held thread can't be held again, and a thread that isn't held can't be released.
pub fn hold_and_release()
    ensures { Plays 1 1 1 Traps.hold_and_release }
{}

/// The refusals of Look in their order.
pub fn look_order()
    ensures { Plays 2 1 1 Traps.look_order }
{}

/// The refusals of Tell in their order. A thread that exited after its poll was armed is gone.
pub fn tell_order()
    ensures { Plays 1 4 2 Traps.tell_order }
{}

/// Each existing method has its code in use, or none.
pub fn resolve_by_method()
    ensures { Plays 1 4 2 Traps.resolve_by_method }
{}

/// A stopped thread waits for a census only once its poll is armed for it.
pub fn take_beside_an_untold_census()
    ensures { Plays 1 4 2 Traps.take_beside_an_untold_census }
{}

/// The refusals of Close in their order. A live target whose poll wasn't armed isn't done.
pub fn close_order()
    ensures { Plays 1 4 2 Traps.close_order }
{}

/// A census without its Operate isn't done, even if no thread is live.
pub fn census_of_nobody()
    ensures { Plays 1 1 1 Traps.census_of_nobody }
{}

/// The refusals of Operate in their order.
pub fn operate_order()
    ensures { Plays 1 4 2 Traps.operate_order }
{}

/// Wake and Take report a wrong state before they report that the thread is held.
pub fn state_before_held()
    ensures { Plays 1 4 2 Traps.state_before_held }
{}

/// A census omits a code that is no longer on a stack, and one that never was.
pub fn census_without_zeros()
    ensures { Plays 1 4 3 Traps.census_without_zeros }
{}

/// In each state, the acts that the tables of states and of events leave out are illegal.
pub fn acts_by_state()
    ensures { Plays 1 1 1 Traps.acts_by_state }
{}

/// While a thread's publication is open, only Change, End and Stack of that thread are accepted.
pub fn acts_while_publishing()
    ensures { Plays 1 1 1 Traps.acts_while_publishing }
{}

/// Four operations are open, and one is closed by its number.
pub fn open_order_of_four()
    ensures { Plays 1 1 1 Traps.open_order_of_four }
{}

/// A held thread keeps open only those operations that it is a target of.
pub fn held_target_of_another()
    ensures { Plays 2 4 2 Traps.held_target_of_another }
{}

/// A held target by name, live or not, keeps its operation open.
pub fn held_target_started_later()
    ensures { Plays 2 4 2 Traps.held_target_started_later }
{}

/// Finish and Clear take the pending operation with the least number.
pub fn least_first()
    ensures { Plays 1 4 2 Traps.least_first }
{}

/// Each open operation has its own live targets.
pub fn own_live_targets()
    ensures { Plays 1 1 1 Traps.own_live_targets }
{}
