//! A thread's stack as its publications show it: codes, frames, and the image that counts what the thread published of it.
//! The core and the running layer use it: `method_table`, `operations`, `system`, `board`, `bodies` and all above them.
//! Read `src/image.rt` first, then `specs/Stack.antt` and `specs/ImageView.antt`.
//!
//! The image counts code by code. The board's rule stands here too, since the core and the board both go by it.
#![tactic(auto)]

pub mod board_rule;
pub mod image;
mod nets;

/// The last name, serial, operation number and moment, and the greatest number of a line.
pub const LAST: u64 = (1 << 40) - 1;

/// A code: the slot in which it stands, and its serial. Serials are never given out twice.
#[derive(Clone, Copy, Debug, PartialEq, Eq, Drop)]
pub struct CodeId {
    pub slot: u32,
    pub serial: u64,
}

/// A frame of a stack: an activation of the method, interpreted where it has no code.
#[derive(Clone, Copy, Debug, PartialEq, Eq, Drop)]
pub struct Frame {
    pub method: u32,
    pub code: Option<CodeId>,
}

/// A code with the difference that its count makes: its frames now less those counted before.
#[derive(Clone, Copy, Debug, PartialEq, Eq, Drop)]
pub struct Change {
    pub code: CodeId,
    pub by: i32,
}

/// Why a frame is not pushed.
#[derive(Clone, Copy, Debug, PartialEq, Eq, Drop)]
pub enum PushFault {
    /// The stack has as many frames as it can have.
    DepthFull,
    /// A publication is open.
    Publishing,
}

/// Why no frame is popped.
#[derive(Clone, Copy, Debug, PartialEq, Eq, Drop)]
pub enum PopFault {
    /// The stack has no frame.
    EmptyStack,
    /// A publication is open.
    Publishing,
}

/// Why a publication is not begun: one is open already.
#[derive(Clone, Copy, Debug, PartialEq, Eq, Drop)]
pub struct Publishing;

/// Why a publication is not ended.
#[derive(Clone, Copy, Debug, PartialEq, Eq, Drop)]
pub enum EndFault {
    /// No publication is open.
    NotBegun,
    /// A code's counts still differ.
    ChangesLeft,
}
