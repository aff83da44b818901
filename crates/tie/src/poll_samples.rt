// Small runs that poll in each way: by computation, the definitions give these steps of the poll row.
ghost use Rattle.tie.specs.PollSamples.{PollsBy, polled_everywhere, polls_everywhere, cleared_under_a_greater, clears_under_a_greater};

/// Cross, Edge, Leave and FromVm load the word of their place, whether the thread goes on or stops. A refused one makes no step. Tell
/// stores the operation's number, and Clear compares the word with its number.
pub fn polled_everywhere()
    ensures { PollsBy polled_everywhere polls_everywhere }
{}

/// A Clear of a lesser number finds a greater one, which stays. The next poll stops for the greater number.
pub fn cleared_under_a_greater()
    ensures { PollsBy cleared_under_a_greater clears_under_a_greater }
{}
