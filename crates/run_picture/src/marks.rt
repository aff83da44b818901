// A mark for each drawn line: the outcome of the line, its text, and its position.
ghost use Rattle.std.specs.Prelude.{◌≡◌, ◌++◌, ◌∷◌, [], OnOk, IfOk};
ghost use Rattle.replay.specs.Printed.{reply_text};
ghost use Rattle.run_picture.specs.Marks.{escaped_byte, title_of};

use crate::shapes::{Outcome, Shape};
use replay::engine::Reply;
use replay::print::put_reply;
use run_lanes::lanes::Spot;
use std::alloc::{AllocError, Global};

/// The mark of a line. Its title is the line and the line of its answer, as XML text.
#[derive(Drop)]
pub struct Mark {
    pub line: u64,
    pub outcome: Outcome,
    pub shape: Shape,
    pub title: Vec<u8>,
    pub spot: Spot,
}

/// Appends a byte to the XML text. A byte that isn't printable ASCII becomes a question mark.
fn put_escaped(text: &mut Vec<u8>, byte: u8) -> Result<(), AllocError>
    ensures { OnOk result (text.new.items ≡ text.old.items ++ escaped_byte byte) }
{
    if byte == b'&' {
        text.extend_from_slice(b"&amp;")
    } else if byte == b'<' {
        text.extend_from_slice(b"&lt;")
    } else if byte == b'>' {
        text.extend_from_slice(b"&gt;")
    } else if b' ' <= byte && byte <= b'~' {
        Ok(text.push(byte)?)
    } else {
        Ok(text.push(b'?')?)
    }
}

/// The title for a line with its reply.
pub fn title_of(alloc: Global, line: &[u8], reply: &Reply) -> Result<Vec<u8>, AllocError>
    ensures { IfOk result (λ title. title.items ≡ title_of line.now reply.now) }
{
    let mut title = Vec::new(alloc);
    for byte in line {
        put_escaped(&mut title, *byte)?;
    }
    title.push(b'\n')?;
    put_reply(&mut title, reply)?;
    Ok(title)
}
