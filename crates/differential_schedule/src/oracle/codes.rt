//! Calls about codes, played as events.
use super::{Made, Oracle};
use crate::calls::CodeCall;
use crate::said::Said;
use frames::CodeId;
use system::events::Event;
use test_tools::keep;

impl Oracle {
    /// The answer to a call about a code.
    pub(super) fn of_code(&mut self, call: CodeCall) -> Result<Said, Said> {
        match call {
            CodeCall::Reclaim(serial, handshake) => self.reclaim(serial, handshake),
            CodeCall::Install(method) => self.install(method),
            CodeCall::Free(serial) => Ok(self.free(serial)),
            CodeCall::Invalidate(serial) => Ok(self.play(Event::Invalidate(serial))),
            CodeCall::Round => Ok(self.play(Event::Round)),
            CodeCall::Look(serial, place) => Ok(self.play(Event::Look(serial, place))),
            CodeCall::Weigh(serial) => Ok(self.play(Event::Weigh(serial))),
        }
    }

    fn install(&mut self, method: u32) -> Result<Said, Said> {
        let said = self.play(Event::Install(method as u64));
        if let Said::Code(serial) = said {
            self.note_code(method, serial)?;
        }
        Ok(said)
    }

    // A new code takes the least free slot, and becomes the hint of its method.
    fn note_code(&mut self, method: u32, serial: u64) -> Result<(), Said> {
        let free = self.free_slot();
        if let Some(stands) = self.slots.get_mut(free as usize) {
            *stands = serial;
        }
        let id = CodeId { slot: free, serial };
        if let Some(hint) = self.hints.get_mut(method as usize) {
            *hint = Some(id);
        }
        keep(&mut self.codes, Made { method, id })?;
        Ok(())
    }

    fn free_slot(&self) -> u32 {
        let mut free: u32 = 0;
        for stands in &self.slots {
            if *stands == 0 {
                break;
            }
            free = free.saturating_add(1);
        }
        free
    }

    pub(super) fn free(&mut self, serial: u64) -> Said {
        let said = self.play(Event::Free(serial));
        if let Said::Done = said {
            for stands in self.slots.iter_mut() {
                if *stands == serial {
                    *stands = 0;
                }
            }
        }
        said
    }
}
