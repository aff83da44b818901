// Replies to asks.
ghost use Rattle.std.specs.Prelude.{◌≡◌};
ghost use Rattle.operations.specs.Asks.{reply};

use crate::Ask;
use frames::image::Image;

impl Ask {
    /// Returns the ask's reply for the stack, with published and unpublished frames. Doesn't allocate.
    pub fn reply_on(self, image: &Image) -> u64
        ensures { result ≡ reply self image.now.frames }
    {
        match self {
            Ask::Depth => image.depth() as u64,
            Ask::CountOf(serial) => image.count_of(serial) as u64,
            Ask::Top => image.top_serial(),
        }
    }
}
