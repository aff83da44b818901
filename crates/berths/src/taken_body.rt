//! Bodies and seats that came out of a berth. No type here is `Drop`, so each of them reaches its receiver.
ghost use Rattle.std.specs.Prelude.{◌≡◌, ◌≢◌, ◌<◌, [], false};
ghost use Rattle.frames.specs.declared.CodeId.{CodeId as Code};
ghost use Rattle.frames.specs.Stack.{times};

use bodies::{Body, Name, SpareSeat};
use frames::image::Image;
use std::marker::Model;

/// Takes over bodies that came out of a berth. The layers of the threads and of the coordinator implement this trait for types of their
/// own. No type of this crate implements it, so no code here can drop a body that came out of a berth.
pub trait BodyOwner {}

/// A body that came out of its berth, for its thread or for a holder. Its receiver takes it over (`into_body`) or hands it on. Contracts
/// see the body.
pub struct TakenBody<N: Name> {
    body: Body<N>,
}

impl<N: Name> Model for TakenBody<N> {
    ghost use Rattle.bodies.specs.Bodies.{BodyView};

    ghost Value = { BodyView };

    ghost view = { λ o. o.body };
}

impl<N: Name> TakenBody<N> {
    #[inline(always)]
    pub(crate) fn of(body: Body<N>) -> TakenBody<N>
        ensures { result ≡ body }
    {
        TakenBody { body }
    }

    /// Gives the body to this hand.
    #[inline(always)]
    pub fn into_body<H: BodyOwner>(self, _hand: &H) -> Body<N>
        ensures { result ≡ self }
    {
        let TakenBody { body } = self;
        body
    }
}

/// A seat that came out of its berth for a starting thread, and that is to get a body. Contracts see the seat.
pub struct OutgoingSeat<N: Name> {
    pair: SpareSeat<N>,
}

impl<N: Name> Model for OutgoingSeat<N> {
    ghost use Rattle.bodies.specs.Bodies.{SpareView};

    ghost Value = { SpareView };

    ghost view = { λ o. o.pair };
}

impl<N: Name> OutgoingSeat<N> {
    pub(crate) fn of(pair: SpareSeat<N>) -> OutgoingSeat<N>
        ensures { result ≡ pair }
    {
        OutgoingSeat { pair }
    }

    /// Makes the body of the thread that starts in this seat. Its stack is empty, and no code is counted.
    pub fn body(self, name: u64, image: Image) -> Body<N>
        requires empty { (image.frames ≡ []) × (image.publishing ≡ false) × ((c : Code)
            → times c image.counted ≡ 0) }
        ensures name { result.name ≡ name }
        ensures image { result.image ≡ image }
        ensures seats { (result.seat ≡ self.seat) × (result.poller ≡ self.poller) }
    {
        let OutgoingSeat { pair } = self;
        Body::new(name, image, pair)
    }
}
