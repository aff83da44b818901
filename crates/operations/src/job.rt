// Jobs: a boxed callback for one target.
ghost use Rattle.std.specs.Prelude.{◌≡◌, ◌↔◌, ℕ};
ghost use Rattle.frames.specs.ImageView.{ImageView, IsSettled};
ghost use Rattle.operations.specs.Asks.{reply};

use crate::Ask;
use frames::image::Image;
pub use handshake_ops::HandshakeOp;
pub use queries::Query;
pub use runs::Done;

pub mod handshake_ops;
pub mod queries;
pub mod runs;

/// A boxed callback.
pub type Call = Box<dyn FnMut(&Image) -> u64 + Send>;

/// A callback for one target, called at most once, since `run` takes the job.
#[derive(Drop)]
pub struct Job {
    op: u64,
    target: u64,
    ask: Ask,
    call: Call,
    ghost callable: { (i : _) → IsSettled i.now → Call.pre call i },
    ghost answers: { (i : _) (r : _) → IsSettled i.now → Call.post call i r → r ≡ reply ask i.now.frames },
}

impl Job {
    /// Makes a job without a number. The callback accepts any settled image and returns the ask's reply. Doesn't
    /// allocate.
    pub fn new(target: u64, ask: Ask, call: Call) -> Job
        requires callable { (i : _) → IsSettled i.now → Call.pre call i }
        requires answers { (i : _) (r : _) → IsSettled i.now → Call.post call i r
            → r ≡ reply ask i.now.frames }

        ensures number { ⟦<Job as HandshakeOp>⟧.number result ≡ 0 }
        ensures whom { ⟦<Job as HandshakeOp>⟧.whom result ≡ target }
        ensures asks { ⟦<Job as HandshakeOp>⟧.asks result ≡ ask }
        ensures callback { (image : ImageView) (reply : ℕ)
            → ⟦<Job as HandshakeOp>⟧.may_answer result image reply ↔ ((i : _) × (i.now ≡ image)
            × Call.post call i reply) }
    {
        Job {
            op: 0,
            target,
            ask,
            call,
        }
    }

    /// Returns the job with the number of its operation.
    pub fn numbered(self, op: u64) -> Job
        ensures number { ⟦<Job as HandshakeOp>⟧.number result ≡ op }
        ensures whom { ⟦<Job as HandshakeOp>⟧.whom result ≡ ⟦<Job as HandshakeOp>⟧.whom self }
        ensures asks { ⟦<Job as HandshakeOp>⟧.asks result ≡ ⟦<Job as HandshakeOp>⟧.asks self }
        ensures callback { (image : ImageView) (reply : ℕ)
            → ⟦<Job as HandshakeOp>⟧.may_answer result image reply ↔ ⟦<Job as HandshakeOp>⟧.may_answer self
            image reply }
    {
        let mut job = self;
        job.op = op;
        job
    }

    /// Returns the number of the job's operation, or 0 before the job has one.
    pub fn op(&self) -> u64
        ensures { result ≡ ⟦<Job as HandshakeOp>⟧.number self.now }
    {
        self.op
    }

    /// Returns the name of the target.
    pub fn target(&self) -> u64
        ensures { result ≡ ⟦<Job as HandshakeOp>⟧.whom self.now }
    {
        self.target
    }

    pub fn ask(&self) -> Ask
        ensures { result ≡ ⟦<Job as HandshakeOp>⟧.asks self.now }
    {
        self.ask
    }
}
