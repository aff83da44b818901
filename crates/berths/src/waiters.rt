//! Threads that wait at a berth for a change. No type here is `Drop`, so whoever makes a change wakes them.
ghost use Rattle.std.specs.Prelude.{◌≡◌, ◌<◌, ◌==◌, ◌^◌, not, bit_or, length, if◌then◌else◌};

use crate::berth::Berth;
use bodies::Name;
use operations::job::HandshakeOp;
use std::marker::{Model, PhantomData};
use std::snapshot::Snapshot;

/// Whether threads waited at a berth of the system N when a body went in or came out. Only a room makes one. Only the bell of a berth, or a
/// list of threads to wake later, takes it. Contracts see the place of that room, and whether a thread waited.
pub struct Waiters<N: Name> {
    waits: bool,
    place: Snapshot<usize>,
    of: PhantomData<N>,
}

impl<N: Name> Model for Waiters<N> {
    ghost use Rattle.berths.specs.Waiting.{WaitersSeen};

    ghost Value = { WaitersSeen };

    ghost view = { λ w. record { place = w.place.value; waits = w.waits } };
}

impl<N: Name> Waiters<N> {
    /// The waiting threads of this place: `sleepers` of them.
    #[inline(always)]
    pub(crate) fn of(place: usize, sleepers: usize) -> Waiters<N>
        ensures { result ≡ record { place = place; waits = not (sleepers == 0) } }
    {
        Waiters {
            waits: sleepers != 0,
            place: Snapshot::of(&place),
            of: PhantomData,
        }
    }

    /// Whether the caller has a thread to wake.
    #[inline(always)]
    pub(crate) fn told(self) -> bool
        ensures { result ≡ self.waits }
    {
        let Waiters {
            waits,
            place: _place,
            of: _of,
        } = self;
        waits
    }
}

/// The places of the system N whose waiting threads are woken later. Contracts see one bit for each place.
pub struct Unwoken<N: Name> {
    places: u64,
    of: PhantomData<N>,
}

impl<N: Name> Model for Unwoken<N> {
    ghost use Rattle.std.specs.Prelude.{ℕ};

    ghost Value = { ℕ };

    ghost view = { λ u. u.places };
}

impl<N: Name> Unwoken<N> {
    /// No place.
    pub fn nobody() -> Unwoken<N>
        ensures { result ≡ 0 }
    {
        Unwoken {
            places: 0,
            of: PhantomData,
        }
    }

    /// Adds the threads that wait at the berth of the place, which is below 64.
    #[inline(always)]
    pub fn add(&mut self, place: usize, waiters: Waiters<N>)
        requires few { place < 64 }
        requires place { waiters.place ≡ place }
        ensures { self.new ≡ (if waiters.waits then bit_or self.old (2 ^ place) else self.old) }
    {
        if waiters.told() {
            self.places |= 1 << place;
        }
    }

    /// Wakes these threads, from the last berth to the first. The next stop begins at the first berth, and finds the body of a thread that
    /// isn't awake yet at once.
    pub fn wake<J: HandshakeOp>(self, berths: &[Berth<N, J>])
        requires { length berths.now ≡ N.board.places }
    {
        let Unwoken { places, of: _of } = self;
        if places == 0 {
            return;
        }
        for behind in 0..berths.len() {
            let place = berths.len() - 1 - behind;
            if place < 64 && (places >> place) & 1 == 1 {
                berths[place].ring(Waiters::of(place, 1));
            }
        }
    }
}
