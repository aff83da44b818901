// The trait of jobs.
ghost use Rattle.std.specs.Prelude.{◌≡◌, ◌↔◌, ℕ};
ghost use Rattle.frames.specs.ImageView.{ImageView, IsSettled};
ghost use Rattle.operations.specs.declared.Ask.{Ask};
ghost use Rattle.operations.specs.Asks.{reply};

use super::{Call, Done, Job};
use crate::Ask;
use frames::image::Image;

/// A job, which runs once on the image of its target's settled stack. `Job` is one. The layers that carry jobs are
/// generic in this trait, so they don't name the box.
pub trait HandshakeOp: Drop {
    /// The number of its operation.
    ghost number: { Self → ℕ };

    /// The name of its target.
    ghost whom: { Self → ℕ };

    /// Its ask.
    ghost asks: { Self → Ask };

    /// Its callback may return this reply for this image.
    ghost may_answer: { Self → ImageView → ℕ → Type 0 };

    fn op_of(&self) -> u64
        ensures { result ≡ number self.now };

    fn target_of(&self) -> u64
        ensures { result ≡ whom self.now };

    fn ask_of(&self) -> Ask
        ensures { result ≡ asks self.now };

    /// Returns the job with another number.
    fn numbered(self, op: u64) -> Self
        ensures number { number result ≡ op }
        ensures same { (whom result ≡ whom self) × (asks result ≡ asks self) }
        ensures callback { (image : ImageView) (reply : ℕ)
            → may_answer result image reply ↔ may_answer self image reply };

    /// Runs the job on the image and returns the reply with the job's number, target and ask.
    fn run_on(self, image: &Image) -> Done
        requires { IsSettled image.now }
        ensures same { (result.op ≡ number self) × (result.target ≡ whom self)
            × (result.ask ≡ asks self) }
        ensures reply { result.reply ≡ reply (asks self) image.now.frames }
        ensures called { may_answer self image.now result.reply };
}

impl HandshakeOp for Job {
    ghost number = { λ j. j.op };

    ghost whom = { λ j. j.target };

    ghost asks = { λ j. j.ask };

    ghost may_answer = { λ j image reply. (i : _) × (i.now ≡ image) × Call.post j.call i reply };

    fn op_of(&self) -> u64 {
        self.op()
    }

    fn target_of(&self) -> u64 {
        self.target()
    }

    fn ask_of(&self) -> Ask {
        self.ask()
    }

    fn numbered(self, op: u64) -> Job {
        Job::numbered(self, op)
    }

    fn run_on(self, image: &Image) -> Done {
        self.run(image)
    }
}
