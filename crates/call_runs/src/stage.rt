//! The stage of a call.

/// The events that a call has made, as far as they decide which may come next.
#[derive(Clone, Copy, Debug, PartialEq, Eq, Drop)]
pub enum At {
    /// No event yet.
    Fresh,
    /// The thread has started, and publishes next.
    Started,
    StartBegun,
    StartEnded,
    /// A starting thread has taken its body back, and polls next.
    StartAwake,
    /// A thread that returns to Java has taken its body back, and polls next.
    Awake,
    /// A publication is open, and the call is over with its End.
    Begun,
    /// A poll stopped the thread.
    AtPoll,
    /// The thread has made its Take, and publishes next.
    Taken,
    TurnBegun,
    /// The thread has published in this turn: it may run a job, and polls.
    TurnEnded,
    /// The thread has run a job, and clears next.
    TurnFinished,
    /// The exit publishes next: at its start, or when a stop of it is over.
    Served,
    ExitBegun,
    ExitEnded,
    /// The coordinator publishes a held thread, to serve it.
    ServeBegun,
    ServeEnded,
    ServeFinished,
    /// An Enter was answered WrongMethod, and the method is entered without a code next.
    Sent,
    /// A thread was held that hasn't brought its body, and is released next.
    Caught,
    /// The caller publishes held threads for a census.
    Gathering,
    /// The census is operated, and its remaining Clears follow.
    Operated,
    /// The drive arms polls, holds, serves and releases threads, up to the last Close.
    Driving,
    /// A reclaiming has asked for its handshake, and makes the round next.
    Asked,
    /// The looks at places, and then the weighing of the code.
    Looking,
    /// The code is retired, and freed next.
    Weighed,
    /// The call has made all its events.
    Over,
}

/// The stage of a call, with what its next events depend on.
#[derive(Clone, Copy, Debug, PartialEq, Eq, Drop)]
pub struct Stage {
    pub at: At,
    /// The place of the thread that the current acts are at.
    pub place: u64,
    /// How many jobs of the call have run.
    pub jobs: u64,
    /// Whether the last turn of a stop ran a job, or a drive operated a census.
    pub served: bool,
    /// How many stops an exit has made, or how many operations were closed.
    pub times: u64,
    /// The number of the handshake that a reclaiming asked for.
    pub asked: u64,
    /// Whether the call has made an event.
    pub begun: bool,
}
