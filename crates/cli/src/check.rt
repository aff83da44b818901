// Checking a script.
ghost use Rattle.std.specs.Prelude.{◌≡◌, ◌<◌, ℕ, List, length, vec_len, IfOk, IfErr, IfSome, MatchResult, string_bytes};
ghost use Rattle.cli.specs.Check.{IsCodeOf, IsFaultOf, right_line, Told, ReadAndTold, FailedCalls, IsUnread, IsFaultOfSource, ReadsEnough};

use crate::fault::Fault;
use replay::device::{Sink, Source};
use replay::stream::flush;
use script::{Code, MAX_BYTES, check, read_script};
use std::alloc::{AllocError, Global};

/// How many bytes one read takes.
const BLOCK: usize = 65_536;

/// Checks the script that a source has, and writes `ok` and the number of its methods. Of a text that is too long it reads only as much as
/// shows this. It doesn't retry a read or write that failed.
pub fn check_script<R: Source, W: Sink>(
    alloc: Global,
    source: &mut R,
    sink: &mut W,
) -> Result<(), Fault>
    requires source { R.failures source.old ≡ 0 }
    requires unread { R.reads source.old ≡ 0 }
    requires sink { W.failures sink.old ≡ 0 }

    ensures told { IfSome (R.left source.old)
        (λ text. Told text result (W.got sink.old) (W.got sink.new)) }
    ensures read { ReadAndTold result (R.left source.old) (R.left source.new) (W.got sink.old)
        (W.got sink.new) }
    ensures failed { FailedCalls result (R.failures source.new) (W.failures sink.new) }
{
    let text = read_text(alloc, source)?;
    let code = check_text(alloc, &text)?;
    let mut line = line_of(alloc, &code)?.into_bytes();
    match flush(&mut line, sink) {
        Ok(()) => Ok(()),
        Err(_) => Err(Fault::WriteFailed),
    }
}

/// Reads and checks the script that a source has, and returns its code. Of a text that is too long it reads only as much as shows this.
pub fn read_code<R: Source>(alloc: Global, source: &mut R) -> Result<Code, Fault>
    requires source { R.failures source.old ≡ 0 }
    requires unread { R.reads source.old ≡ 0 }
    ensures code { IfOk result (λ code. (text : List ℕ)
        × ReadsEnough (R.left source.old) (R.left source.new) text × IsCodeOf text code) }
    ensures fault { IfErr result (IsFaultOfSource (R.left source.old) (R.left source.new)
        (R.failures source.new)) }
{
    let text = read_text(alloc, source)?;
    check_text(alloc, &text)
}

/// The code of a text that is a script without faults. Otherwise the error is its first fault, or `NoMemory` if memory was refused.
pub fn check_text(alloc: Global, text: &[u8]) -> Result<Code, Fault>
    ensures code { IfOk result (IsCodeOf text.now) }
    ensures fault { IfErr result (IsFaultOf text.now) }
{
    let script = read_script(alloc, text)?;
    Ok(check(alloc, &script)?)
}

/// The output line for a script without faults, by its code.
pub fn line_of(alloc: Global, code: &Code) -> Result<String, AllocError>
    ensures { IfOk result (λ line. string_bytes line ≡ right_line (length code.now)) }
{
    let methods = code.methods();
    format!(in alloc; "ok {methods}\n")
}

/// Reads all that a source has, or stops once the text exceeds the longest one.
fn read_text<R: Source>(alloc: Global, source: &mut R) -> Result<Vec<u8>, Fault>
    requires source { R.failures source.old ≡ 0 }
    requires unread { R.reads source.old ≡ 0 }
    ensures text { IfOk result
        (λ text. ReadsEnough (R.left source.old) (R.left source.new) text.items) }
    ensures failed { MatchResult result (λ _. R.failures source.new ≡ 0)
        (λ fault. IsUnread fault (R.failures source.new)) }
{
    let mut block = new_block(alloc)?;
    let mut text = Vec::new(alloc);
    while text.len() <= MAX_BYTES {
        let Ok(n) = source.read(&mut block) else {
            return Err(Fault::FileNotRead);
        };
        if n == 0 {
            return Ok(text);
        }
        text.extend_from_slice(&block[..n])?;
    }
    Ok(text)
}

fn new_block(alloc: Global) -> Result<Vec<u8>, AllocError>
    ensures { IfOk result (λ block. 0 < vec_len block) }
{
    Ok(vec![in alloc; 0u8; BLOCK]?)
}
