//! A text, cut at a byte, and at the line `order`.
ghost use Rattle.std.specs.List.{position, list_all};
ghost use Rattle.std.specs.Prelude.{◌≡◌, ◌==◌, ◌<◌, length, ◌++◌, ◌∷◌, not, true, IfSome, MatchOption};
ghost use Rattle.call_log.specs.Reading.{cut_seen};
ghost use Rattle.confirm.specs.Parts.{cut, IsParted, LacksOrder};

/// The position of the first such byte.
fn find(byte: u8, bytes: &[u8]) -> Option<usize>
    ensures at { result ≡ position (λ b. b == byte) bytes.now }
    ensures bound { IfSome result (λ at. at < length bytes.now) }
{
    bytes.iter().position(|b| *b == byte)
}

/// The parts before and after the first such byte; None if there is no such byte.
#[tactic(auto, using(crate::proofs::Cuts::cut_whole))]
pub fn cut(byte: u8, bytes: &[u8]) -> Option<(&[u8], &[u8])>
    ensures cut { cut_seen result ≡ cut byte bytes.now }
    ensures whole { IfSome result (λ parts. bytes.now ≡ parts.0.now ++ byte ∷ parts.1.now) }
    ensures first { IfSome result (λ parts. list_all (λ b. not (b == byte)) parts.0.now ≡ true) }
{
    match find(byte, bytes) {
        None => None,
        Some(at) => Some((&bytes[..at], &bytes[at + 1..])),
    }
}

/// The parts before and after the first line `order`; None if there is no such line.
pub fn part(text: &[u8]) -> Option<(&[u8], &[u8])>
    ensures { MatchOption result (LacksOrder text.now)
        (λ parts. IsParted text.now parts.0.now parts.1.now) }
{
    let mut rest = text;
    while let Some((line, behind)) = cut(b'\n', rest) {
        if line == b"order".as_slice() {
            return Some((&text[..text.len() - rest.len()], behind));
        }
        rest = behind;
    }
    None
}
