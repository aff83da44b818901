// The lanes of the operations.
ghost use Rattle.std.specs.Prelude.{◌≡◌, ◌++◌, ◌∷◌, ℕ, [], OnOk, IfOk, None, Some, option_and_then, slice_get, slice_set};
ghost use Rattle.run_lanes.specs.declared.served.Served.{Served as ServedOf};
ghost use Rattle.run_lanes.specs.Rows.{vacant_row};
ghost use Rattle.run_lanes.specs.Served.{served_at};
ghost use Rattle.run_lanes.specs.Requests.{lane_in, is_for, is_above, is_listing, first_listing, first_above, up_to, undone, uncleared};
ghost use Rattle.run_lanes.specs.Lanes.{undone_of, uncleared_of};

use crate::looks::{Group, Lane, Paint};
use crate::painted::{Name, Painted};
use crate::rows::Rows;
use crate::served::{AllServed, Served};
use operations::{Kind, Request};
use std::alloc::{AllocError, Global};

/// A request that is waiting or open.
#[derive(Drop)]
struct Asked {
    number: u64,
    request: Request,
    /// The last name given out before its Open; None while it is waiting.
    newest: Option<u64>,
}

impl Asked {
    // Whether it is open and the thread of this name is a target of it that had started before its Open.
    fn is_of(&self, name: u64) -> bool
        ensures { result ≡ is_for name self.now }
    {
        match self.newest {
            None => false,
            Some(newest) => name <= newest && self.request.is_target(name),
        }
    }

    // Whether the thread of this name is a target and the number is above this. (The number mostly decides, so it comes first.)
    fn is_above(&self, above: u64, name: u64) -> bool
        ensures { result ≡ is_above above name self.now }
    {
        self.number > above && self.is_of(name)
    }

    fn lists(&self, name: u64) -> bool
        ensures { result ≡ is_listing name self.now }
    {
        self.newest.is_some() && self.request.is_target(name)
    }
}

// The number, if it isn't above the last one.
fn up_to(last: u64, number: u64) -> Option<u64>
    ensures { result ≡ up_to last number }
{
    if number <= last { Some(number) } else { None }
}

/// The operations that are waiting, and those that are open, the oldest first.
#[derive(Drop)]
pub(crate) struct Operations {
    rows: Rows,
    asked: Vec<Asked>,
    served: AllServed,
}

impl Operations {
    pub(crate) fn new(alloc: Global) -> Operations
        ensures asked { result.asked.items ≡ [] }
        ensures served { result.served.places.items ≡ [] }
    {
        Operations {
            rows: Rows::new(alloc, Group::Operations),
            asked: Vec::new(alloc),
            served: AllServed::new(alloc),
        }
    }

    /// The lane of the operation of this number, until it is closed.
    pub(crate) fn lane_of(&self, number: u64) -> Option<Lane>
        ensures { result ≡ lane_in self.now.rows number }
    {
        Some(self.rows.lane(self.rows.find(number)?))
    }

    /// The lane of the operation of this number, or without a number that of the oldest open operation.
    pub(crate) fn chosen(&self, number: Option<u64>) -> Option<Lane> {
        match number {
            Some(number) => self.lane_of(number),
            None => self.oldest(),
        }
    }

    /// The lane of the oldest open operation.
    pub(crate) fn oldest(&self) -> Option<Lane> {
        let asked = self.asked.first()?;
        asked.newest?;
        self.lane_of(asked.number)
    }

    /// The lane of the oldest open operation that lists the name.
    pub(crate) fn listing(&self, name: u64) -> Option<Lane>
        ensures { result
            ≡ option_and_then (lane_in self.now.rows) (first_listing name self.now.asked.items) }
    {
        self.lane_of(self.first_listing(name)?)
    }

    fn first_listing(&self, name: u64) -> Option<u64>
        ensures { result ≡ first_listing name self.now.asked.items }
    {
        let found = self.asked.iter().find(|asked| asked.lists(name))?;
        Some(found.number)
    }

    /// Adds a waiting request.
    pub(crate) fn ask(
        &mut self,
        painted: &mut Painted,
        number: u64,
        request: Request,
        at: u64,
    ) -> Result<Lane, AllocError>
        ensures asked { OnOk result (self.new.asked.items ≡ self.old.asked.items
            ++ record { number = number; request = request; newest = None } ∷ []) }
        ensures lane { IfOk result
            (λ lane. lane
            ≡ record {
              group = self.old.rows.group;
              row = vacant_row at self.old.rows.rows.items;
            }) }
        ensures served { self.new.served ≡ self.old.served }
    {
        let row = self.rows.vacant(at);
        self.rows.begin(painted, row, number, Paint::Waiting, at)?;
        self.asked.push(Asked {
            number,
            request,
            newest: None,
        })?;
        Ok(self.rows.lane(row))
    }

    fn find(&self, number: u64) -> Option<usize> {
        self.asked.iter().position(|asked| asked.number == number)
    }

    /// The request of this number is opened. Threads up to the newest name are its possible targets.
    pub(crate) fn open(
        &mut self,
        painted: &mut Painted,
        number: u64,
        kind: Kind,
        newest: u64,
        at: u64,
    ) -> Result<(), AllocError> {
        if let Some(place) = self.find(number) {
            if let Some(asked) = self.asked.get_mut(place) {
                asked.newest = Some(newest);
            }
        }
        let Some(row) = self.rows.find(number) else {
            return Ok(());
        };
        let paint = match kind {
            Kind::Handshake => Paint::Handshake,
            Kind::Census => Paint::Census,
        };
        self.rows.turn(painted, row, Some(paint), at)
    }

    /// A thread starts at the place: its progress is fresh.
    pub(crate) fn start(&mut self, place: usize) -> Result<(), AllocError>
        ensures asked { self.new.asked ≡ self.old.asked }
    {
        self.served.start(place)
    }

    // The oldest operation of the thread of this name with a number above this.
    fn first_above(&self, above: u64, name: u64) -> Option<u64>
        ensures { result ≡ first_above above name self.now.asked.items }
    {
        let found = self.asked.iter().find(|asked| asked.is_above(above, name))?;
        Some(found.number)
    }

    // The number, if a Tell has armed the thread's poll for it: it isn't above the last such number.
    fn undone(&self, served: Served, name: u64) -> Option<u64>
        ensures { result ≡ undone served name self.now.asked.items }
    {
        up_to(served.told, self.first_above(served.done, name)?)
    }

    fn uncleared(&self, served: Served, name: u64) -> Option<u64>
        ensures { result ≡ uncleared served name self.now.asked.items }
    {
        up_to(served.told, self.first_above(served.cleared, name)?)
    }

    /// A Tell arms the poll of the thread with this name at this place for its oldest open operation that isn't told to it yet. Answers
    /// that operation's lane.
    pub(crate) fn tell(&mut self, place: usize, name: u64) -> Option<Lane>
        ensures lane { result
            ≡ option_and_then (lane_in self.old.rows)
            (first_above (served_at self.old.served.places.items place).told name
            self.old.asked.items) }
        ensures told { (number : ℕ) (kept : ServedOf)
            → slice_get self.old.served.places.items place ≡ Some kept
            → first_above (served_at self.old.served.places.items place).told name
            self.old.asked.items ≡ Some number
            → self.new.served.places.items
            ≡ slice_set self.old.served.places.items place
            (record (served_at self.old.served.places.items place) { told = number }) }
    {
        let served = self.served.at(place);
        let told = self.first_above(served.told, name)?;
        self.served.set(place, Served { told, ..served });
        self.lane_of(told)
    }

    /// The lane of the oldest operation that was told to the thread (a Tell armed its poll) and that isn't cleared for it.
    pub(crate) fn next(&self, place: usize, name: u64) -> Option<Lane>
        ensures { result ≡ uncleared_of self.now place name }
    {
        self.lane_of(self.uncleared(self.served.at(place), name)?)
    }

    /// The thread's callback ran. Answers the lane of its operation.
    pub(crate) fn finish_of(&mut self, place: usize, name: u64) -> Option<Lane>
        ensures lane { result ≡ undone_of self.old place name }
        ensures done { (number : ℕ) (kept : ServedOf)
            → slice_get self.old.served.places.items place ≡ Some kept
            → undone (served_at self.old.served.places.items place) name self.old.asked.items
            ≡ Some number
            → self.new.served.places.items
            ≡ slice_set self.old.served.places.items place
            (record (served_at self.old.served.places.items place) { done = number }) }
    {
        let served = self.served.at(place);
        let done = self.undone(served, name)?;
        self.served.set(place, Served { done, ..served });
        self.lane_of(done)
    }

    /// The thread is cleared. Answers the lane of the operation that was cleared.
    pub(crate) fn clear_of(&mut self, place: usize, name: u64) -> Option<Lane>
        ensures lane { result ≡ uncleared_of self.old place name }
        ensures cleared { (number : ℕ) (kept : ServedOf)
            → slice_get self.old.served.places.items place ≡ Some kept
            → uncleared (served_at self.old.served.places.items place) name self.old.asked.items
            ≡ Some number
            → self.new.served.places.items
            ≡ slice_set self.old.served.places.items place
            (record (served_at self.old.served.places.items place) { cleared = number }) }
    {
        let served = self.served.at(place);
        let cleared = self.uncleared(served, name)?;
        self.served.set(place, Served { cleared, ..served });
        self.lane_of(cleared)
    }

    /// The operation of this number is closed.
    pub(crate) fn close(
        &mut self,
        painted: &mut Painted,
        number: u64,
        at: u64,
    ) -> Result<(), AllocError>
        ensures served { self.new.served ≡ self.old.served }
    {
        let Some(place) = self.find(number) else {
            return Ok(());
        };
        self.end(painted, place, at)
    }

    // Frees the lane of the operation at this position of the list.
    fn end(&mut self, painted: &mut Painted, place: usize, at: u64) -> Result<(), AllocError>
        ensures { self.new.served ≡ self.old.served }
    {
        if place >= self.asked.len() {
            return Ok(());
        }
        let Asked {
            number,
            request,
            ..
        } = self.asked.remove(place);
        let Some(row) = self.rows.find(number) else {
            return Ok(());
        };
        let name = Name::Operation(number, request);
        painted.add_life(self.rows.lane(row), name, self.rows.begun(row), at)?;
        self.rows.turn(painted, row, None, at)
    }

    /// Ends the bars and names after the last line.
    pub(crate) fn finish(&mut self, painted: &mut Painted, at: u64) -> Result<(), AllocError> {
        for _ in 0..self.asked.len() {
            self.end(painted, 0, at)?;
        }
        Ok(())
    }
}
