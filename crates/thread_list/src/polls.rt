//! What a thread's poll answers.
ghost use Rattle.std.specs.Prelude.{◌≡◌};
ghost use Rattle.thread_list.specs.Moves.{poll_of};

/// What a poll answers.
#[derive(Clone, Copy, PartialEq, Eq, Debug, Drop)]
pub enum Poll {
    /// No operation is pending that the thread hasn't cleared: it continues.
    Go,
    /// The thread stops for the operation of the number.
    Stop(u64),
}

/// The answer of a poll that found this number in the thread's poll word.
#[inline(always)]
pub fn poll_of(found: u64) -> Poll
    ensures { result ≡ poll_of found }
{
    if found == 0 {
        Poll::Go
    } else {
        Poll::Stop(found)
    }
}
