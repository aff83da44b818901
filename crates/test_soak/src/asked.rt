//! The requests of a run.
use operations::Ask;
use std::alloc::{AllocError, Global};
use test_tools::keep;

/// The query of an operation, None for a census, and the names that it lists.
#[derive(Drop)]
pub struct Asked {
    pub op: u64,
    pub ask: Option<Ask>,
    pub targets: Vec<u64>,
}

/// The requests by their numbers, from 1 on. The first ones may be forgotten.
#[derive(Drop)]
pub struct AskedList {
    forgotten: u64,
    all: Vec<Asked>,
}

impl AskedList {
    pub fn new(alloc: Global) -> AskedList {
        AskedList {
            forgotten: 0,
            all: Vec::new(alloc),
        }
    }

    /// The number of the next request.
    pub fn next(&self) -> u64 {
        self.forgotten
            .saturating_add(self.all.len() as u64)
            .saturating_add(1)
    }

    /// The query and the names of the operation.
    pub fn of(&self, op: u64) -> Option<&Asked> {
        let behind = op.wrapping_sub(self.forgotten).wrapping_sub(1);
        self.all.get(behind as usize)
    }

    /// The query of the operation, None for a census.
    pub fn ask_of(&self, op: u64) -> Option<Ask> {
        match self.of(op) {
            Some(asked) => asked.ask,
            None => None,
        }
    }

    /// Notes a handshake of these names, or a census. Answers its number.
    pub fn note(&mut self, ask: Option<Ask>, targets: Vec<u64>) -> Result<u64, AllocError> {
        let op = self.next();
        keep(&mut self.all, Asked { op, ask, targets })?;
        Ok(op)
    }

    /// Forgets the requests before this operation.
    pub fn forget_before(&mut self, op: u64) {
        self.all.retain(|asked| asked.op >= op);
        self.forgotten = self.forgotten.max(op.saturating_sub(1));
    }
}
