//! The coordinator's acts. Each is refused with `NotThis` for another party, and with `Again` if a lock is taken.
ghost use Rattle.std.specs.Prelude.{◌≡◌};
ghost use Rattle.parties.specs.Acted.{Acts};

use crate::acts::{Act, Fault};
use crate::coordinating;
use crate::pairs::first_of;
use crate::party::{Party, Role};
use crate::weighed::told_of;
use bodies::Name;

impl<N: Name> Party<N> {
    /// Opens the oldest waiting request. Returns its number.
    pub fn open(&mut self) -> Result<u64, Fault>
        ensures { Acts N.board.places self.old Act.Open result self.new }
    {
        let Role::Coordinates(_) = &self.role else {
            return Err(Fault::NotThis);
        };
        let (number, _receipt) = coordinating::open(&self.system)?;
        Ok(number)
    }

    /// Arms the named thread for its oldest pending request. Returns the number with which its place is armed, 0 if the
    /// name is gone.
    pub fn tell(&mut self, name: u64) -> Result<u64, Fault>
        ensures { Acts N.board.places self.old (Act.Tell name) result self.new }
    {
        let Role::Coordinates(keeps) = &mut self.role else {
            return Err(Fault::NotThis);
        };
        match coordinating::tell(&self.system, keeps, name, &mut self.hand)? {
            Some((number, _receipt)) => Ok(number),
            None => Ok(0),
        }
    }

    /// Holds the thread of a place. Returns the number of the oldest operation that the thread owes.
    pub fn hold(&mut self, place: usize) -> Result<u64, Fault>
        ensures { Acts N.board.places self.old (Act.Hold place) result self.new }
    {
        let Role::Coordinates(keeps) = &mut self.role else {
            return Err(Fault::NotThis);
        };
        let (number, _receipt) = coordinating::hold(&self.system, keeps, place)?;
        Ok(number)
    }

    /// Serves the held thread of a place. Returns the number of the operation.
    pub fn serve(&mut self, place: usize) -> Result<u64, Fault>
        ensures { Acts N.board.places self.old (Act.Serve place) result self.new }
    {
        let Role::Coordinates(keeps) = &mut self.role else {
            return Err(Fault::NotThis);
        };
        let (number, _finished) = coordinating::serve(&self.system, keeps, place)?;
        Ok(number)
    }

    /// Releases the held thread of a place.
    pub fn release(&mut self, place: usize) -> Result<u64, Fault>
        ensures { Acts N.board.places self.old (Act.Release place) result self.new }
    {
        let Role::Coordinates(keeps) = &mut self.role else {
            return Err(Fault::NotThis);
        };
        let _receipt = coordinating::release(&self.system, keeps, place)?;
        Ok(0)
    }

    /// Operates the open census over the held threads. Returns its number.
    pub fn operate(&mut self) -> Result<u64, Fault>
        ensures { Acts N.board.places self.old Act.Operate result self.new }
    {
        let Role::Coordinates(keeps) = &mut self.role else {
            return Err(Fault::NotThis);
        };
        let (number, _receipt) = coordinating::operate(
            &self.system,
            keeps,
            self.alloc,
            &mut self.counts,
        )?;
        Ok(number)
    }

    /// Closes the open request of the number or, without one, the oldest. Returns its number.
    pub fn close(&mut self, number: Option<u64>) -> Result<u64, Fault>
        ensures { Acts N.board.places self.old (Act.Close number) result self.new }
    {
        let Role::Coordinates(keeps) = &mut self.role else {
            return Err(Fault::NotThis);
        };
        let (number, _receipt) = coordinating::close(&self.system, keeps, number)?;
        Ok(number)
    }

    /// Weighs a code, and frees it if it has no activation. Returns how many activations it has.
    pub fn weigh(&mut self, serial: u64) -> Result<u64, Fault>
        ensures { Acts N.board.places self.old (Act.Weigh serial) result self.new }
    {
        let Role::Coordinates(_) = &self.role else {
            return Err(Fault::NotThis);
        };
        let reclaimed = coordinating::weigh(&self.system, serial)?;
        told_of(reclaimed)
    }

    /// Returns how many frames the code of the serial had in the last operated census. Any party may call it.
    pub fn counted(&mut self, serial: u64) -> Result<u64, Fault>
        ensures { Acts N.board.places self.old (Act.Counted serial) result self.new }
    {
        match first_of(self.counts.as_slice(), serial) {
            Some(count) => Ok(count as u64),
            None => Ok(0),
        }
    }
}
