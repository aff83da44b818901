//! The result of weighing a code.

/// The result of weighing a code that is no longer in use.
#[derive(Clone, Copy, Debug, PartialEq, Eq)]
pub enum Weighed {
    /// The least place that wasn't looked at for the code. Nothing was weighed.
    NotLooked(usize),
    /// How often all seats together count the code, at least once.
    Used(u64),
    /// No seat counts the code, and none has it fresh: no stack has an activation of it.
    Clear,
}
