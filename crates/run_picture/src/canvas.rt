// A picture as far as it is drawn.
ghost use Rattle.std.specs.Prelude.{◌≡◌, ◌++◌, [], OnOk};

use crate::layout::Layout;
use std::alloc::{AllocError, Global};

/// The layout of a picture, and its text as far as it is written.
#[derive(Drop)]
pub struct Canvas {
    pub alloc: Global,
    pub layout: Layout,
    pub text: Vec<u8>,
}

impl Canvas {
    /// A canvas on which nothing is drawn.
    pub fn new(alloc: Global, layout: Layout) -> Canvas
        ensures { result.text.items ≡ [] }
    {
        Canvas {
            alloc,
            layout,
            text: Vec::new(alloc),
        }
    }

    /// Appends a text.
    pub fn put(&mut self, text: &str) -> Result<(), AllocError>
        ensures { OnOk result (self.new.text.items ≡ self.old.text.items ++ text.now) }
    {
        self.text.extend_from_slice(text.as_bytes())
    }

    /// Appends a text that was made to be appended.
    pub fn put_made(&mut self, text: String) -> Result<(), AllocError> {
        self.put(text.as_str())
    }
}
