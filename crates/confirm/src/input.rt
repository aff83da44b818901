//! The text of a source.
ghost use Rattle.std.specs.Prelude.{◌≡◌, ◌<◌, vec_len, IfOk, IfErr, OnOk};
ghost use Rattle.confirm.specs.Ran.{ReadsWhole, IsUnread};

use crate::fault::Fault;
use replay::device::Source;
use std::alloc::{AllocError, Global};

/// How many bytes are read at a time.
const BLOCK: usize = 65_536;

/// The longest text, in bytes.
const MAX_BYTES: usize = 268_435_456;

/// Reads a source to its end.
pub fn read_text<R: Source>(alloc: Global, source: &mut R) -> Result<Vec<u8>, Fault>
    requires source { R.failures source.old ≡ 0 }
    requires unread { R.reads source.old ≡ 0 }
    ensures text { IfOk result
        (λ text. ReadsWhole (R.left source.old) (R.left source.new) text.items) }
    ensures fresh { OnOk result (R.failures source.new ≡ 0) }
    ensures fault { IfErr result (IsUnread (R.left source.old) (R.left source.new)
        (R.failures source.new)) }
{
    let mut block = new_block(alloc)?;
    let mut text = Vec::new(alloc);
    while text.len() <= MAX_BYTES {
        let Ok(n) = source.read(&mut block) else {
            return Err(Fault::ReadFailed);
        };
        if n == 0 {
            return Ok(text);
        }
        text.extend_from_slice(&block[..n])?;
    }
    Err(Fault::TooLong)
}

fn new_block(alloc: Global) -> Result<Vec<u8>, AllocError>
    ensures { IfOk result (λ block. 0 < vec_len block) }
{
    Ok(vec![in alloc; 0u8; BLOCK]?)
}
