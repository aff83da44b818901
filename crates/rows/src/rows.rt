// Worked runs: the definitions give these answers, by computation.
ghost use Rattle.rows.specs.Lines.{Plays};
ghost use Rattle.rows.specs.Rows;

/// A publication can't end while a code still has to change; a count changes with its Change.
pub fn one_publication()
    ensures { Plays 1 4 2 Rows.one_publication }
{}

/// A push and a pop that cancel leave nothing to publish.
pub fn cancelled_push()
    ensures { Plays 1 4 2 Rows.cancelled_push }
{}

/// In the middle of a publication, the changed codes count as on the stack, and the others as published before.
pub fn publication_code_by_code()
    ensures { Plays 1 4 2 Rows.publication_code_by_code }
{}

/// A look without a round after the invalidation is late. A count of 0 makes no zombie before each place was looked at.
pub fn look_before_a_round()
    ensures { Plays 1 4 2 Rows.look_before_a_round }
{}

/// The whole life of a code: entered, invalidated, published, left, weighed, freed.
pub fn reclaimed_after_use()
    ensures { Plays 1 4 2 Rows.reclaimed_after_use }
{}

/// A publication that began before the round doesn't cover the place.
pub fn publication_begun_before_the_round()
    ensures { Plays 1 4 2 Rows.publication_begun_before_the_round }
{}

/// A freed slot is used again, and an entry with the old serial is answered `wrong method`.
pub fn slot_used_again()
    ensures { Plays 1 1 1 Rows.slot_used_again }
{}

/// A method gets its next code while a frame of the old one is on a stack; an entry of the old code is answered `wrong method`.
pub fn next_code_of_a_method()
    ensures { Plays 1 4 2 Rows.next_code_of_a_method }
{}

/// A handshake goes by names: the next thread at the place isn't its target.
pub fn place_used_again()
    ensures { Plays 1 4 2 Rows.place_used_again }
{}

/// Two handshakes are open: both are armed, and the thread serves them itself, one after the other.
pub fn two_operations_in_turn()
    ensures { Plays 1 4 2 Rows.two_operations_in_turn }
{}

/// A thread in native code is held, its stack is published, and it is served; it can't wake meanwhile.
pub fn held_in_native()
    ensures { Plays 1 4 2 Rows.held_in_native }
{}

/// 64 requests wait; the next is refused until one is opened.
pub fn queue_of_censuses()
    ensures { Plays 1 1 1 Rows.queue_of_censuses }
{}

/// A census of two threads at a safepoint.
pub fn safepoint_of_two_threads()
    ensures { Plays 3 4 2 Rows.safepoint_of_two_threads }
{}

/// 256 frames fit, and one more doesn't. No thread exits with frames.
pub fn depth_full()
    ensures { Plays 1 4 2 Rows.depth_full }
{}

/// Places, methods and targets that can't exist, and requests that don't.
pub fn numbers_out_of_range()
    ensures { Plays 64 1024 256 Rows.numbers_out_of_range }
{}

/// A thread exits only once it has published the frames that it left.
pub fn exit_after_publishing()
    ensures { Plays 1 4 2 Rows.exit_after_publishing }
{}

/// A thread stops on its way out of the VM.
pub fn stopped_in_the_vm()
    ensures { Plays 1 4 2 Rows.stopped_in_the_vm }
{}

/// An interpreted frame is pushed, shown and popped; an empty stack has nothing to leave.
pub fn interpreted_frame()
    ensures { Plays 1 4 2 Rows.interpreted_frame }
{}

/// Blocked, native, and the ways back to where the thread came from.
pub fn blocked_and_native()
    ensures { Plays 1 4 2 Rows.blocked_and_native }
{}

/// An entry of code that isn't entrant is answered `wrong method`; the method gets new code.
pub fn entry_of_invalidated_code()
    ensures { Plays 1 4 2 Rows.entry_of_invalidated_code }
{}

/// 64 handshakes wait; the next is refused until one is opened.
pub fn queue_of_handshakes()
    ensures { Plays 1 1 1 Rows.queue_of_handshakes }
{}

/// Depth, count and top of one stack, before and after a pop.
pub fn asks_of_a_stack()
    ensures { Plays 1 4 2 Rows.asks_of_a_stack }
{}

/// A listed thread that starts after Open is no live target.
pub fn started_after_open()
    ensures { Plays 1 4 2 Rows.started_after_open }
{}

/// Four handshakes are open at once, and each one closes on its own.
pub fn four_handshakes()
    ensures { Plays 1 4 2 Rows.four_handshakes }
{}

/// A second handshake arms its target while the first has no live target.
pub fn second_told_alone()
    ensures { Plays 1 4 2 Rows.second_told_alone }
{}

/// Code in use is replaced: the old is not entrant, and the new one is in use.
pub fn install_over()
    ensures { Plays 1 4 2 Rows.install_over }
{}
