// The words of worked runs, by computation on the definitions.
ghost use Rattle.tie.specs.WorkedRuns.{PlaceUsedAgain, TwoOperations, FourHandshakes, HeldInNative, TwoThreadsAtASafepoint, LookBeforeARound, ReclaimedAfterUse, PublicationBegunBeforeTheRound, SlotUsedAgain, NextCodeOfAMethod, TwoThreadsCount};

/// A Tell of a name that has exited arms nothing: the next thread at its place polls 0.
pub fn place_used_again()
    ensures { PlaceUsedAgain }
{}

/// Two handshakes, one after the other: each arms the place with its number and is cleared there.
pub fn two_operations_in_turn()
    ensures { TwoOperations }
{}

/// Four handshakes are open. A Clear of a lesser number leaves a greater one armed.
pub fn four_handshakes()
    ensures { FourHandshakes }
{}

/// A Tell arms the poll of a thread in native code, which is then held and cleared there by the coordinator.
pub fn held_in_native()
    ensures { HeldInNative }
{}

/// A census of two threads arms both places, and each is cleared separately.
pub fn two_threads_at_a_safepoint()
    ensures { TwoThreadsAtASafepoint }
{}

/// A code is invalidated while an unpublished frame of it is on a stack.
pub fn look_before_a_round()
    ensures { LookBeforeARound }
{}

/// The whole life of a code, at five of its states.
pub fn reclaimed_after_use()
    ensures { ReclaimedAfterUse }
{}

/// The place's moment is that of the Begin of its publication.
pub fn publication_begun_before_the_round()
    ensures { PublicationBegunBeforeTheRound }
{}

/// A freed slot, and its next code.
pub fn slot_used_again()
    ensures { SlotUsedAgain }
{}

/// The two codes of a method, while each has a frame on a stack.
pub fn next_code_of_a_method()
    ensures { NextCodeOfAMethod }
{}

/// The count of a code over two threads, after the first and after both have published.
pub fn two_threads_count()
    ensures { TwoThreadsCount }
{}
