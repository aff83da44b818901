//! The meaning of the open requests for a thread.
ghost use Rattle.std.specs.Prelude.{◌≡◌, ◌-◌, ◌<◌, ◌++◌, take, IfSome, vec_len, vec_capacity};
ghost use Rattle.desk.specs.Fields.{at};
ghost use Rattle.desk.specs.Pending.{least_pending};
ghost use Rattle.desk.specs.Targets.{standing, untold, progress, due_of, of_which, only_handshake, is_awaited};

use crate::desk::Desk;
use crate::entries::{Live, Progress, Standing};
use crate::lists::least_pending;
use crate::targets::{
    is_due_name, list_due, of_which, oldest, only_handshake, progress_in, standing_to, untold_in,
};
use bodies::Name;
use operations::job::HandshakeOp;

impl<N: Name, J: HandshakeOp> Desk<N, J> {
    /// Returns the meaning of the open requests for the thread of the name, which decides `tell` and `hold`.
    pub fn standing(&self, name: u64) -> Standing
        ensures { result ≡ standing (at self.now) name }
    {
        standing_to(
            self.opened.as_slice(),
            self.next_name,
            self.live.as_slice(),
            name,
        )
    }

    /// Returns the number of the oldest open request that is for a live thread and for which its poll word wasn't
    /// armed. `last` is the number with which the poll word was last armed.
    #[inline(always)]
    pub fn untold(&self, name: u64, last: u64) -> Option<u64>
        ensures value { result ≡ untold (at self.now) name last }
        ensures later { IfSome result (λ number. last < number) }
    {
        untold_in(self.opened.as_slice(), self.next_name, name, last)
    }

    /// Returns the number of the only open request if it is a handshake, otherwise None. This is the request to arm
    /// each due thread's poll for (`due_are_told`).
    #[inline(always)]
    pub fn only_handshake(&self) -> Option<u64>
        ensures { result ≡ only_handshake (at self.now).opened }
    {
        only_handshake(self.opened.as_slice())
    }

    /// Returns the least number of an open or waiting request or, without one, the next number.
    pub fn least_pending(&self) -> u64
        ensures { result ≡ least_pending (at self.now) }
    {
        least_pending(&self.queue, self.opened.as_slice(), self.next_number)
    }

    /// Returns the progress of a live thread with the open requests for which its poll word was armed. `last` is the
    /// number with which it was last armed.
    pub fn progress(&self, name: u64, last: u64) -> Progress
        ensures { result ≡ progress (at self.now) name last }
    {
        progress_in(self.opened.as_slice(), self.next_name, name, last)
    }

    /// Appends to the list the live threads that are due for an open request, or only for the oldest. A thread is due
    /// if it was live at the Open and has no Finish for the handshake, or the census isn't operated. They come in the
    /// order of names, as far as the list's capacity goes.
    #[inline(always)]
    pub fn list_due(&self, of_oldest: bool, list: &mut Vec<Live>)
        ensures items { list.new.items
            ≡ list.old.items ++ take (vec_capacity list.old - vec_len list.old)
            (due_of (of_which of_oldest (at self.now).opened) (at self.now).live) }
        ensures capacity { vec_capacity list.new ≡ vec_capacity list.old }
    {
        let opened = of_which(self.opened.as_slice(), of_oldest);
        list_due(opened, self.live.as_slice(), list);
    }

    /// Returns whether the thread of the name is due for the oldest open request: it is live, was live at the Open, and
    /// has no Finish for the handshake, or the census isn't operated.
    #[inline(always)]
    pub fn is_awaited(&self, name: u64) -> bool
        ensures { result ≡ is_awaited (at self.now) name }
    {
        is_due_name(oldest(self.opened.as_slice()), self.live.as_slice(), name)
    }
}
