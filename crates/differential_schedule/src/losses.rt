//! Wrong cores, which show that the comparison can tell a wrong core from a running system. Such a core drops one event or reply, and
//! answers as if it had accepted it.
//!
//! No Hold is dropped: the core would let a held thread continue, and the running system would wait for that thread.
use crate::said::Said;
use system::events::{Act, Event};

/// How many things can be lost.
pub const LOSSES: usize = 12;

/// All of them.
pub const ALL: [Lost; LOSSES] = [
    Lost::Leave,
    Lost::Change,
    Lost::Invalidate,
    Lost::Round,
    Lost::Look,
    Lost::Free,
    Lost::Tell,
    Lost::Release,
    Lost::Finish,
    Lost::Clear,
    Lost::Reply,
    Lost::Forget,
];

/// What a wrong core can drop: an event of this kind, a reply, which isn't noted then, or a call to forget closed operations.
#[derive(Clone, Copy, PartialEq, Debug, Drop)]
pub enum Lost {
    Leave,
    Change,
    Invalidate,
    Round,
    Look,
    Free,
    Tell,
    Release,
    Finish,
    Clear,
    Reply,
    Forget,
}

/// Which of these events is dropped: `before` of them are played first.
#[derive(Clone, Copy)]
pub struct Loss {
    pub lost: Lost,
    pub before: u64,
}

impl Lost {
    /// The kind of the event, if it can be dropped. A Look at a place that no system has only asks a question.
    pub(crate) fn of(event: &Event) -> Option<Lost> {
        match event {
            Event::At(_, act) => Lost::of_act(*act),
            Event::Invalidate(_) => Some(Lost::Invalidate),
            Event::Round => Some(Lost::Round),
            Event::Look(_, place) if *place != usize::MAX => Some(Lost::Look),
            Event::Free(_) => Some(Lost::Free),
            Event::Tell(_) => Some(Lost::Tell),
            _ => None,
        }
    }

    fn of_act(act: Act) -> Option<Lost> {
        match act {
            Act::Leave => Some(Lost::Leave),
            Act::Change => Some(Lost::Change),
            Act::Release => Some(Lost::Release),
            Act::Finish => Some(Lost::Finish),
            Act::Clear => Some(Lost::Clear),
            _ => None,
        }
    }

    /// The answer in place of the dropped event's. A dropped Change answers as if nothing had changed; a dropped Finish replies 0.
    pub(crate) fn said(self) -> Said {
        match self {
            Lost::Leave => Said::Go,
            Lost::Change => Said::NoChange,
            Lost::Look => Said::Clear,
            Lost::Tell => Said::Told,
            Lost::Finish => Said::Reply(0),
            _ => Said::Done,
        }
    }
}
