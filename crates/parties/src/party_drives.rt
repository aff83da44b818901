//! The coordinator's work on the open requests, as far as it goes without waiting.
ghost use Rattle.std.specs.Prelude.{◌≡◌};
ghost use Rattle.parties.specs.Acted.{Acts, awaited_of};

use crate::acts::{Act, Fault};
use crate::awaited::awaited_after;
use crate::driving;
use crate::party::{Party, Role};
use bodies::Name;
use coordinator_core::Callback;
use desk::Live;

impl<N: Name> Party<N> {
    /// Advances the work on the open requests as far as it goes without waiting. Returns the number of the request that
    /// it closed, or why the work rests.
    pub fn advance(&mut self) -> Result<u64, Fault>
        ensures { Acts N.board.places self.old Act.Advance result self.new }
    {
        let Role::Coordinates(keeps) = &mut self.role else {
            return Err(Fault::NotThis);
        };
        driving::advance(
            &self.system,
            keeps,
            &mut self.drive,
            self.alloc,
            &mut self.counts,
        )
    }

    /// Returns the operation of the host's next callback, 0 without one.
    pub fn called_operation(&mut self) -> Result<u64, Fault>
        ensures { Acts N.board.places self.old Act.CalledOperation result self.new }
    {
        match self.drive.called() {
            Some(Callback::Handshake(operation, _) | Callback::Safepoint(operation)) => {
                Ok(operation)
            }
            None => Ok(0),
        }
    }

    /// Returns the place of the held thread of that callback, 0 without one.
    pub fn called_place(&mut self) -> Result<u64, Fault>
        ensures { Acts N.board.places self.old Act.CalledPlace result self.new }
    {
        match self.drive.called() {
            Some(Callback::Handshake(_, place)) => Ok(place as u64),
            Some(Callback::Safepoint(_)) | None => Ok(0),
        }
    }

    // Returns the first awaited thread with a greater name.
    fn next_awaited(&self, name: u64) -> Option<Live>
        ensures { result ≡ awaited_of self.now.role name self.now.drive.due }
    {
        match &self.role {
            Role::Coordinates(keeps) => awaited_after(self.drive.due(), keeps, name),
            Role::Shares | Role::Starts(_) | Role::Runs(_) | Role::Leaves(_) => None,
        }
    }

    /// Returns the least name above this one of a thread that the work waits for, 0 without one.
    pub fn awaited_after(&mut self, name: u64) -> Result<u64, Fault>
        ensures { Acts N.board.places self.old (Act.AwaitedAfter name) result self.new }
    {
        match self.next_awaited(name) {
            Some(awaited) => Ok(awaited.name),
            None => Ok(0),
        }
    }

    /// Returns the place of that thread, 0 without one.
    pub fn awaited_place(&mut self, name: u64) -> Result<u64, Fault>
        ensures { Acts N.board.places self.old (Act.AwaitedPlace name) result self.new }
    {
        match self.next_awaited(name) {
            Some(awaited) => Ok(awaited.place as u64),
            None => Ok(0),
        }
    }

    /// Returns how many threads the work waits for.
    pub fn awaited(&mut self) -> Result<u64, Fault>
        ensures { Acts N.board.places self.old Act.Awaited result self.new }
    {
        Ok(self.drive.awaited() as u64)
    }
}
