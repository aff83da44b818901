// Jobs without a callback.
ghost use Rattle.std.specs.Prelude.{◌≡◌, ◌↔◌, ℕ};
ghost use Rattle.frames.specs.ImageView.{ImageView};
ghost use Rattle.operations.specs.Asks.{reply};

use super::{Done, HandshakeOp};
use crate::Ask;
use frames::image::Image;

/// A job that answers its ask without a callback, so it needs no memory.
#[derive(Clone, Copy, Debug, PartialEq, Eq, Drop)]
pub struct Query {
    op: u64,
    target: u64,
    ask: Ask,
}

impl Query {
    /// Makes a query without a number.
    pub fn new(target: u64, ask: Ask) -> Query
        ensures number { ⟦<Query as HandshakeOp>⟧.number result ≡ 0 }
        ensures whom { ⟦<Query as HandshakeOp>⟧.whom result ≡ target }
        ensures asks { ⟦<Query as HandshakeOp>⟧.asks result ≡ ask }
        ensures callback { (image : ImageView) (r : ℕ)
            → ⟦<Query as HandshakeOp>⟧.may_answer result image r ↔ (r ≡ reply ask image.frames) }
    {
        Query { op: 0, target, ask }
    }
}

impl HandshakeOp for Query {
    ghost number = { λ q. q.op };

    ghost whom = { λ q. q.target };

    ghost asks = { λ q. q.ask };

    ghost may_answer = { λ q image r. r ≡ reply q.ask image.frames };

    #[inline(always)]
    fn op_of(&self) -> u64 {
        self.op
    }

    #[inline(always)]
    fn target_of(&self) -> u64 {
        self.target
    }

    #[inline(always)]
    fn ask_of(&self) -> Ask {
        self.ask
    }

    #[inline(always)]
    fn numbered(self, op: u64) -> Query {
        Query { op, ..self }
    }

    #[inline(always)]
    fn run_on(self, image: &Image) -> Done {
        let Query { op, target, ask } = self;
        Done::of(op, target, ask, image, ask.reply_on(image))
    }
}
