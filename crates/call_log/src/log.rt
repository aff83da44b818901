//! A whole log.
use crate::entry::Entry;

/// The recorded calls of one run.
#[derive(Debug, Drop)]
pub struct Log {
    /// Whether the jobs of each call are recorded.
    pub jobs: bool,
    /// The numbers of places, slots and methods of the system.
    pub places: u64,
    pub slots: u64,
    pub methods: u64,
    /// The calls of a stream are in program order. The streams may be interleaved.
    pub calls: Vec<Entry>,
}
