//! The calls of any party at the desk. Each is refused with `Again` first, if the desk's lock is taken; `target` and
//! `target_all` need no lock.
ghost use Rattle.std.specs.Prelude.{◌≡◌};
ghost use Rattle.parties.specs.Acted.{Acts};

use crate::acts::{Act, Fault};
use crate::asking;
use crate::party::Party;
use bodies::Name;
use operations::Ask;

impl<N: Name> Party<N> {
    /// Adds the name to the targets of the next request. Refused with `NoMemory`.
    pub fn target(&mut self, name: u64) -> Result<u64, Fault>
        ensures { Acts N.board.places self.old (Act.Target name) result self.new }
    {
        match self.targets.add(name) {
            Ok(()) => Ok(0),
            Err(_) => Err(Fault::NoMemory),
        }
    }

    /// Makes all threads that are live at the `submit` the targets of the next request.
    pub fn target_all(&mut self) -> Result<u64, Fault>
        ensures { Acts N.board.places self.old Act.TargetAll result self.new }
    {
        self.targets.be_all();
        Ok(0)
    }

    /// Queues a handshake of the targets or, without an ask, a census. Returns its number. Refused with `NoMemory` or
    /// `Ask`.
    pub fn submit(&mut self, ask: Option<Ask>) -> Result<u64, Fault>
        ensures { Acts N.board.places self.old (Act.Submit ask) result self.new }
    {
        let (number, _receipt) = asking::submit(&self.system, self.alloc, &mut self.targets, ask)?;
        Ok(number)
    }

    /// Does the first step of reclaiming a code: makes a round, and queues a handshake of the targets if there are any.
    /// Returns its number, 0 without one. Refused with `NoMemory` or `Reclaim`.
    pub fn reclaim(&mut self, serial: u64) -> Result<u64, Fault>
        ensures { Acts N.board.places self.old (Act.Reclaim serial) result self.new }
    {
        let (number, _receipt) = asking::reclaim(
            &self.system,
            self.alloc,
            &mut self.targets,
            serial,
        )?;
        Ok(number)
    }

    /// Installs a code for the method. Returns its serial. Refused with `Code`.
    pub fn install(&mut self, method: u32) -> Result<u64, Fault>
        ensures { Acts N.board.places self.old (Act.Install method) result self.new }
    {
        let (serial, _receipt) = asking::install(&self.system, method)?;
        Ok(serial)
    }

    /// Makes the code of the serial not entrant. Refused with `Invalidate`.
    pub fn invalidate(&mut self, serial: u64) -> Result<u64, Fault>
        ensures { Acts N.board.places self.old (Act.Invalidate serial) result self.new }
    {
        let _receipt = asking::invalidate(&self.system, serial)?;
        Ok(0)
    }

    /// Returns the name's reply in the operation. Refused with `NoMemory`, then `Pending` or `NotAnswered`.
    pub fn reply(&mut self, op: u64, name: u64) -> Result<u64, Fault>
        ensures { Acts N.board.places self.old (Act.Reply op name) result self.new }
    {
        asking::reply(&self.system, op, name)
    }

    /// Returns the least live name above this one, 0 for none.
    pub fn live_after(&mut self, name: u64) -> Result<u64, Fault>
        ensures { Acts N.board.places self.old (Act.LiveAfter name) result self.new }
    {
        asking::live_after(&self.system, name)
    }

    /// Returns the kind of the open requests: 0 if none is open, 1 for handshakes, 2 for a census.
    pub fn open_kind(&mut self) -> Result<u64, Fault>
        ensures { Acts N.board.places self.old Act.OpenKind result self.new }
    {
        asking::open_kind(&self.system)
    }

    /// Returns the least number of an open or waiting request, 0 without one.
    pub fn pending(&mut self) -> Result<u64, Fault>
        ensures { Acts N.board.places self.old Act.Pending result self.new }
    {
        asking::pending(&self.system)
    }

    /// Forgets all entries so far, and the replies to each operation before the first that is open or waits.
    pub fn forget(&mut self) -> Result<u64, Fault>
        ensures { Acts N.board.places self.old Act.Forget result self.new }
    {
        asking::forget(&self.system)
    }
}
