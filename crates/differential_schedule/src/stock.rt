//! The jobs of a schedule that no request has taken yet.
ghost use Rattle.std.specs.Prelude.{◌<◌, length, IfSome};

use crate::calls::Handshake;
use operations::Ask;
use std::alloc::{AllocError, Global};

/// A job: its name and its query.
#[derive(Clone, Copy)]
pub struct Want {
    pub name: u64,
    pub ask: Ask,
}

// For each name that may be asked there are `SAME` jobs that ask for the depth, `SAME` that ask for the top frame, and one for the count of
// each serial below `CODES`. Serial 0, which no code has, is among them.
const SAME: u64 = 3;

const CODES: u64 = 24;

// How many more names than places are given out. Handshakes can list these names too.
const LATER: u64 = 24;

/// The jobs at the beginning of a schedule.
pub fn wanted(alloc: Global, places: usize) -> Result<Vec<Want>, AllocError> {
    let mut wanted = Vec::new(alloc);
    for name in 1..(places as u64).saturating_add(LATER) {
        for index in 0..2 * SAME + CODES {
            wanted.push(Want {
                name,
                ask: ask_of(index),
            })?;
        }
    }
    Ok(wanted)
}

fn ask_of(index: u64) -> Ask {
    if index < SAME {
        Ask::Depth
    } else if index < 2 * SAME {
        Ask::Top
    } else {
        Ask::CountOf(index - 2 * SAME)
    }
}

/// The jobs that are left.
#[derive(Drop)]
pub(crate) struct Stock {
    left: Vec<Want>,
}

impl Stock {
    pub fn new(alloc: Global, places: usize) -> Result<Stock, AllocError> {
        Ok(Stock {
            left: wanted(alloc, places)?,
        })
    }

    /// Whether there is a job for each target of the handshake.
    pub fn has(&self, handshake: Handshake) -> bool {
        let needed = if handshake.step == 0 {
            handshake.count
        } else {
            1
        };
        let mut name = handshake.first;
        for _listed in 0..handshake.count {
            if self.count(name, handshake.ask) < needed {
                return false;
            }
            name = name.saturating_add(handshake.step);
        }
        true
    }

    // How many jobs for the name have this query.
    fn count(&self, name: u64, ask: Ask) -> u64 {
        let mut count: u64 = 0;
        for want in &self.left {
            if want.name == name && want.ask == ask {
                count = count.saturating_add(1);
            }
        }
        count
    }

    /// Removes one job for each target of the handshake, which a request has taken.
    pub fn take(&mut self, handshake: Handshake) {
        let mut name = handshake.first;
        for _listed in 0..handshake.count {
            if let Some(index) = index_of(self.left.as_slice(), name, handshake.ask) {
                self.left.swap_remove(index);
            }
            name = name.saturating_add(handshake.step);
        }
    }
}

fn index_of(left: &[Want], name: u64, ask: Ask) -> Option<usize>
    ensures { IfSome result (λ i. i < length left.now) }
{
    for index in 0..left.len() {
        if left[index].name == name && left[index].ask == ask {
            return Some(index);
        }
    }
    None
}
