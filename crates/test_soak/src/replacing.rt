//! The calls of the main thread about codes.
use crate::answers::Came;
use crate::driver::Driver;
use crate::making::Makes;
use crate::wrong::{Step, Wrong};
use bodies::Name;
use desk::CodeFault;
use method_table::table::{InstallFault, InvalidateFault};
use operations::Ask;
use operations::job::HandshakeOp;
use std::sync::Wait;

impl<'c, 'x, 'a, N: Name, J: HandshakeOp, R: Wait, M: Makes<J>> Driver<'c, 'x, 'a, N, J, R, M> {
    // A method; now and then one that doesn't exist.
    pub fn pick_method(&mut self) -> u32 {
        let methods = self.hands.shared.methods();
        if methods == 0 || self.choices.one_in(40) {
            methods
        } else {
            self.choices.below(methods as u64) as u32
        }
    }

    /// Installs a code for the method. The call is refused if the method doesn't exist or no slot is free. A code that the method had is
    /// out of use then.
    pub fn install(&mut self, method: u32) -> Result<(), Wrong> {
        let is_there = method < self.hands.shared.methods();
        let are_full = self.codes.are_full();
        match self.hands.install(method) {
            Ok(serial) if is_there && !are_full => {
                self.note_replaced(method)?;
                self.note_installed(method, serial)
            }
            Err(CodeFault::Install(InstallFault::NoSuchMethod)) if !is_there => Ok(()),
            Err(CodeFault::Install(InstallFault::TableFull)) if is_there && are_full => Ok(()),
            _ => Err(Wrong::Answer(Step::Install)),
        }
    }

    // Notes that the code that the method had is invalidated.
    fn note_replaced(&mut self, method: u32) -> Result<(), Wrong> {
        if let Some(old) = self.codes.current(method) {
            self.signals.note_invalidated(method, old);
            self.codes.note_invalidated(method, old)?;
        }
        Ok(())
    }

    // Notes that a code was installed, and checks that it is its method's hint.
    fn note_installed(&mut self, method: u32, serial: u64) -> Result<(), Wrong> {
        let Some(code) = self.hands.shared.hint(method) else {
            return Err(Wrong::Answer(Step::Install));
        };
        self.codes.note_installed(method, code.slot);
        self.tally.installed = self.tally.installed.saturating_add(1);
        if code.serial != serial || serial != self.codes.last() {
            return Err(Wrong::Answer(Step::Install));
        }
        Ok(())
    }

    /// Invalidates the code of the method. If the method has none, it checks that a code that is invalidated or freed is refused.
    pub fn invalidate(&mut self, method: u32) -> Result<(), Wrong> {
        let Some(serial) = self.codes.current(method) else {
            return self.invalidate_in_vain();
        };
        if self.hands.invalidate(serial).is_some() {
            return Err(Wrong::Answer(Step::Invalidate));
        }
        self.signals.note_invalidated(method, serial);
        self.codes.note_invalidated(method, serial)?;
        Ok(())
    }

    fn invalidate_in_vain(&mut self) -> Result<(), Wrong> {
        let left = self.pick_left();
        let serial = left.unwrap_or(self.codes.last().saturating_add(1));
        match self.hands.invalidate(serial) {
            Some(InvalidateFault::NotInUse) if left.is_some() => Ok(()),
            Some(InvalidateFault::Unknown) if left.is_none() => Ok(()),
            _ => Err(Wrong::Answer(Step::Invalidate)),
        }
    }

    // A code that is invalidated and not freed; None if there is none.
    fn pick_left(&mut self) -> Option<u64> {
        let from = self.choices.below(64) as usize;
        self.codes.left(from)
    }

    /// Reclaims an invalidated code, without jobs.
    pub fn reclaim(&mut self) -> Result<(), Wrong> {
        let Some(serial) = self.pick_left() else {
            return Ok(());
        };
        let came = self.hands.reclaim_alone(serial);
        self.note_reclaimed(serial, came)
    }

    /// Reclaims an invalidated code, with a handshake of most live threads.
    pub fn reclaim_with_jobs(&mut self) -> Result<(), Wrong> {
        let Some(serial) = self.pick_left() else {
            return Ok(());
        };
        let live = self.pick_live()?;
        let ask = self.pick_ask();
        let came = self.reclaim_asking(serial, live.as_slice(), ask)?;
        // A stack may have had frames of the code when its thread replied, before the code was freed.
        self.check_asked(live, ask)?;
        self.note_reclaimed(serial, came)
    }

    fn reclaim_asking(&mut self, serial: u64, names: &[u64], ask: Ask) -> Result<Came, Wrong> {
        let jobs = self.jobs_of(names, ask)?;
        match self.hands.reclaim(serial, jobs) {
            Came::Open | Came::Unready | Came::Wrong => Err(Wrong::Answer(Step::Reclaim)),
            came => Ok(came),
        }
    }

    // Checks the handshake of these names that was just closed, if there are any names.
    fn check_asked(&mut self, names: Vec<u64>, ask: Ask) -> Result<(), Wrong> {
        if names.is_empty() {
            return Ok(());
        }
        let op = self.asked.note(Some(ask), names)?;
        self.check_handshake(op)
    }

    pub fn note_reclaimed(&mut self, serial: u64, came: Came) -> Result<(), Wrong> {
        let may_be = match came {
            Came::Freed => {
                self.codes.note_freed(serial);
                self.tally.freed = self.tally.freed.saturating_add(1);
                true
            }
            Came::Used(count) => count != 0,
            Came::Late(place) => place < self.plan.sizes.places,
            Came::Open | Came::Unready | Came::Wrong => false,
        };
        if may_be {
            return Ok(());
        }
        Err(Wrong::Answer(Step::Reclaim))
    }

    /// Checks that no code is reclaimed while a request waits.
    pub fn reclaim_in_vain(&mut self) -> Result<(), Wrong> {
        let Some(serial) = self.codes.left(0) else {
            return Ok(());
        };
        match self.hands.reclaim_alone(serial) {
            Came::Open => Ok(()),
            _ => Err(Wrong::Answer(Step::Reclaim)),
        }
    }

    /// Checks that a code in use isn't reclaimed, nor one that doesn't exist.
    pub fn reclaim_unready(&mut self, method: u32) -> Result<(), Wrong> {
        let unknown = self.codes.last().saturating_add(1);
        let serial = self.codes.current(method).unwrap_or(unknown);
        match self.hands.reclaim_alone(serial) {
            Came::Unready => Ok(()),
            _ => Err(Wrong::Answer(Step::Reclaim)),
        }
    }
}
