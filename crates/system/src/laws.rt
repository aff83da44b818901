// Laws of all worlds to which events lead.
ghost use Rattle.system.specs.Laws.{HeldThreadsAreSafe, RetiredCodesStandNowhere};
ghost use Rattle.system.specs.Moments.{CoveredIsByMoments};
ghost use Rattle.system.specs.Ran.{OperationsRunAtMostOnce};
ghost use Rattle.system.specs.Safepoints.{CensusesRunAtSafepoints, HandshakesRunAtSafePoints};
ghost use Rattle.system.specs.Facts.{WorldsAreSound};

/// A held thread is in a safe state, after any events.
pub fn held_threads_are_safe()
    ensures { HeldThreadsAreSafe }
{}

/// Every reachable world meets the facts by which the code's compact state is enough.
pub fn worlds_are_sound()
    ensures { WorldsAreSound }
{}

/// A place is covered for an invalidated code if and only if no stack is published there, or the published stack is
/// later than the invalidation.
pub fn covering()
    ensures { CoveredIsByMoments }
{}

/// No frame of a zombie or freed code stands on a stack, after any events.
pub fn reclaiming()
    ensures { RetiredCodesStandNowhere }
{}

/// Each thread finishes each handshake at most once, and each census is operated at most once, in any list of events.
pub fn running_once()
    ensures { OperationsRunAtMostOnce }
{}

/// In an accepted Finish the thread is settled and at a safe point, and in a safe state if held. The reply is that of
/// the handshake's ask for the thread's stack.
pub fn handshakes_at_safe_points()
    ensures { HandshakesRunAtSafePoints }
{}

/// In an accepted Operate each thread is settled and held in a safe state, the index counts the stacks as they are, and
/// the answer is their census.
pub fn censuses_at_safepoints()
    ensures { CensusesRunAtSafepoints }
{}
