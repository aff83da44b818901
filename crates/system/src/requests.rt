// The waiting requests and the open operations of a system.
ghost use Rattle.std.specs.Prelude.{◌≡◌};
ghost use Rattle.std.specs.List.{list_all, list_any};
ghost use Rattle.operations.specs.Requests.{is_census, is_target, lists, reply_to};
ghost use Rattle.system.specs.Kept.Censuses.{has_census};
ghost use Rattle.system.specs.Kept.Opening.{is_census_next, may_open_now};
ghost use Rattle.system.specs.Kept.Tells.{is_clear_at, is_held_for, is_over_at, may_tell_of};

use crate::opens::{OPEN, Opens};
use crate::thread::Thread;
use frames::image::Image;
use operations::Request;
use operations::queue::Queue;

/// An open operation. A live thread is a live target if it is a target of the request and its name is among the first
/// `names`.
#[derive(Drop)]
pub struct Open {
    pub number: u64,
    pub request: Request,
    /// How many names were given out when the operation was opened.
    pub names: u64,
    /// Whether the operation is a census that was operated.
    pub operated: bool,
}

impl Open {
    pub fn is_census(&self) -> bool
        ensures { result ≡ is_census self.now.request }
    {
        matches!(&self.request, Request::Census)
    }

    /// Returns whether the thread is a target. A census targets all threads.
    pub fn is_target(&self, name: u64) -> bool
        ensures { result ≡ is_target self.now.request name }
    {
        self.request.is_target(name)
    }

    /// Returns whether the operation is a handshake that lists the thread.
    pub fn lists(&self, name: u64) -> bool
        ensures { result ≡ lists self.now.request name }
    {
        match &self.request {
            Request::Census => false,
            Request::Handshake { .. } => self.request.is_target(name),
        }
    }

    /// Returns the reply of a thread with this stack; 0 to a census.
    pub fn reply_on(&self, image: &Image) -> u64
        ensures { result ≡ reply_to self.now.request image.now.frames }
    {
        match &self.request {
            Request::Census => 0,
            Request::Handshake { ask, .. } => ask.reply_on(image),
        }
    }

    /// Returns whether the operation may be told to the thread, after `names` names were given out.
    pub fn may_tell(&self, name: u64, names: u64) -> bool
        ensures { result ≡ may_tell_of names self.now.request name }
    {
        match &self.request {
            Request::Handshake { .. } => self.request.is_target(name),
            Request::Census => 0 < name && name <= names,
        }
    }

    fn is_held_for(&self, place: &Option<Thread>) -> bool
        ensures { result ≡ is_held_for self.now place.now }
    {
        match place {
            None => false,
            Some(thread) => thread.held && self.is_target(thread.name),
        }
    }

    /// Returns whether a target of the operation is held.
    pub fn is_any_held(&self, places: &[Option<Thread>]) -> bool
        ensures { result ≡ list_any (is_held_for self.now) places.now }
    {
        places.iter().any(|place| self.is_held_for(place))
    }

    // No live target is at the place, or the operation is cleared for it.
    fn is_clear_at(&self, place: &Option<Thread>) -> bool
        ensures { result ≡ is_clear_at self.now place.now }
    {
        match place {
            None => true,
            Some(thread) => self.number <= thread.marks.cleared || !thread.is_live_for(self),
        }
    }

    fn are_clear(&self, places: &[Option<Thread>]) -> bool
        ensures { result ≡ list_all (is_clear_at self.now) places.now }
    {
        places.iter().all(|place| self.is_clear_at(place))
    }

    /// Returns whether the operation is over: a census is operated, and the operation is cleared for each live target.
    pub fn is_over(&self, places: &[Option<Thread>]) -> bool
        ensures { result ≡ is_over_at self.now places.now }
    {
        (!self.is_census() || self.operated) && self.are_clear(places)
    }
}

/// How many requests were numbered, the waiting requests, and the open operations.
#[derive(Drop)]
pub struct Requests {
    pub numbers: u64,
    pub waiting: Queue<()>,
    pub opens: Opens,
}

impl Requests {
    fn is_census_next(&self) -> bool
        ensures { result ≡ is_census_next self.now.waiting }
    {
        match self.waiting.front() {
            None => false,
            Some(oldest) => matches!(&oldest.request, Request::Census),
        }
    }

    /// Returns whether the oldest request may be opened. At most four handshakes are open, or one census alone.
    pub fn may_open(&self) -> bool
        ensures { result ≡ may_open_now self.now.opens self.now.waiting }
    {
        let operations = self.opens.as_slice();
        operations.len() < OPEN
            && !self.is_safepoint()
            && !(self.is_census_next() && !operations.is_empty())
    }

    /// Returns whether a census is open.
    pub fn is_safepoint(&self) -> bool
        ensures { result ≡ has_census self.now.opens }
    {
        self.opens.as_slice().iter().any(|open| open.is_census())
    }
}
