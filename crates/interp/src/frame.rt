ghost use Rattle.std.specs.Prelude.{◌≡◌, ◌<◌, ◌^◌};

use crate::mark::Mark;

/// The phase of a run.
#[derive(Clone, Copy, Debug, PartialEq, Eq)]
pub enum Phase {
    Fresh,
    Running,
    Finished,
}

/// How the runner changes when it makes a mark.
#[derive(Clone, Copy, Debug, PartialEq, Eq)]
pub enum Move {
    Begin,
    Pass,
    Enter(usize),
    Leave,
    Turn {
        turns: u64,
        start: usize,
        level: usize,
    },
}

/// What the runner does next.
#[derive(Clone, Copy, Debug, PartialEq, Eq)]
pub enum Ahead {
    Finished,
    Overflow,
    Made(Mark, Move),
}

/// An active call: its method, the step that it makes next, and for each level of loops how many turns
/// have ended.
#[derive(Clone, Copy, Debug)]
pub struct Frame {
    pub method: usize,
    pub at: usize,
    pub turns: [u64; 8],
}

impl Frame {
    ghost use Rattle.interp.specs.Moves.{fresh, passed, turned_frame};

    /// A frame at the beginning of a method.
    pub fn new(method: usize) -> Frame
        ensures { result ≡ fresh method }
    {
        Frame {
            method,
            at: 0,
            turns: [0, 0, 0, 0, 0, 0, 0, 0],
        }
    }

    pub fn passed(self) -> Frame
        requires { self.at < 2 ^ 63 }
        ensures { result ≡ passed self }
    {
        let mut frame = self;
        frame.at += 1;
        frame
    }

    /// The frame after the end of a turn of a loop of so many turns.
    pub fn turned(self, turns: u64, start: usize, level: usize) -> Frame
        requires at { self.at < 2 ^ 63 }
        requires turns { 0 < turns }
        requires level { level < 8 }
        ensures { result ≡ turned_frame turns start level self }
    {
        let mut frame = self;
        let ended = frame.turns[level];
        if ended < turns - 1 {
            frame.turns[level] = ended + 1;
            frame.at = start;
        } else {
            frame.turns[level] = 0;
            frame.at += 1;
        }
        frame
    }
}
