// Words and numbers of a line.
ghost use Rattle.std.specs.Prelude.{◌≡◌, ◌≤◌, ◌<◌, ◌==◌, not, ℕ, length, take, drop, ◌∷◌, List, option_map, Some, None, IfSome};
ghost use Rattle.std.specs.List.{prefix_len};
ghost use Rattle.replay.specs.Words.{words, words_after, is_nil, is_digit, number};
ghost use Rattle.replay.specs.Scanned.{first_at, digits_from, begins_well};
ghost use Rattle.replay.specs.Grammar.{took, last_number};

use frames::LAST;
use memchr::memchr_iter;
use std::simd::prelude::*;

/// How many bytes are tested first for the end of a line.
const NEAR: usize = 16;

/// The index of the first such byte, or the length.
pub(crate) fn find(byte: u8, bytes: &[u8]) -> usize
    ensures at { result ≡ first_at byte bytes.now }
    ensures bound { result ≤ length bytes.now }
{
    for (i, b) in bytes.iter().enumerate() {
        if *b == byte {
            return i;
        }
    }
    bytes.len()
}

/// The index where the first line of the bytes ends, or the length. Mostly it is among the first 16 bytes, which are tested together.
#[inline(always)]
#[tactic(auto, using(crate::proofs::Ends::end_near))]
pub(crate) fn find_end(bytes: &[u8]) -> usize
    ensures at { result ≡ first_at 10 bytes.now }
    ensures bound { result ≤ length bytes.now }
{
    if bytes.len() < NEAR {
        return far_end(bytes);
    }
    let near = near_end(bytes);
    if near < NEAR { near } else { far_end(bytes) }
}

/// How many of the first 16 bytes precede a newline.
#[inline(always)]
fn near_end(bytes: &[u8]) -> usize
    requires { 16 ≤ length bytes.now }
    ensures { result ≡ prefix_len (λ b. not (b == 10)) (take 16 bytes.now) }
{
    let ends = u8x16::from_slice(bytes)
        .simd_eq(u8x16::splat(b'\n'))
        .to_bitmask();
    if ends == 0 {
        NEAR
    } else {
        ends.trailing_zeros() as usize
    }
}

/// The result of `find_end`, for a line of any length.
#[inline(never)]
fn far_end(bytes: &[u8]) -> usize
    ensures at { result ≡ first_at 10 bytes.now }
    ensures bound { result ≤ length bytes.now }
{
    match memchr_iter(b'\n', bytes).next() {
        Some(at) => at,
        None => bytes.len(),
    }
}

/// The first word, and the rest after it: nothing, or a space and more words.
#[tactic(auto, using(crate::proofs::Cuts::words_cut))]
pub(crate) fn cut(bytes: &[u8]) -> (&[u8], &[u8])
    ensures { words bytes.now ≡ result.0.now ∷ words_after result.1.now }
{
    bytes.split_at(find(b' ', bytes))
}

/// No word follows.
#[tactic(auto, using(crate::proofs::Cuts::none_left))]
pub(crate) fn is_end(tail: &[u8]) -> bool
    ensures { result ≡ is_nil (words_after tail.now) }
{
    tail.is_empty()
}

/// The digits up to a space, and the rest from the space on.
#[inline(always)]
fn digits(bytes: &[u8]) -> Option<(u64, &[u8])>
    ensures taken { option_map (λ taken. (taken.0, taken.1.now)) result ≡ digits_from 0 bytes.now }
    ensures rest { IfSome result (λ taken. length taken.1.now ≤ length bytes.now) }
{
    let mut value = 0u64;
    for (i, b) in bytes.iter().enumerate() {
        if *b < b'0' || b'9' < *b {
            return if *b == b' ' {
                Some((value, &bytes[i..]))
            } else {
                None
            };
        }
        value = value * 10 + (*b as u64 - b'0' as u64);
        if value > LAST {
            return None;
        }
    }
    Some((value, &[]))
}

/// Whether a number may begin the bytes: there is a word, which is 0 or doesn't begin with a 0.
fn begins_well(bytes: &[u8]) -> bool
    ensures { result ≡ begins_well bytes.now }
{
    match bytes {
        [] => false,
        [b'0', c, ..] => *c == b' ',
        [b, ..] => *b != b' ',
    }
}

#[inline(always)]
fn is_digit(b: u8) -> bool
    ensures { result ≡ is_digit b }
{
    b'0' <= b && b <= b'9'
}

/// The number that the two bytes after the first spell, if they spell one.
#[inline(always)]
fn two_digits(tail: &[u8]) -> Option<u64>
    requires { 2 < length tail.now }
    ensures { result ≡ number (take 2 (drop 1 tail.now)) }
{
    if is_digit(tail[1]) && tail[1] != b'0' && is_digit(tail[2]) {
        Some((tail[1] as u64 - b'0' as u64) * 10 + (tail[2] as u64 - b'0' as u64))
    } else {
        None
    }
}

/// The number that the three bytes after the first spell, if they spell one.
#[inline(always)]
fn three_digits(tail: &[u8]) -> Option<u64>
    requires { 3 < length tail.now }
    ensures { result ≡ number (take 3 (drop 1 tail.now)) }
{
    if is_digit(tail[1]) && tail[1] != b'0' && is_digit(tail[2]) && is_digit(tail[3]) {
        let n = (tail[1] as u64 - b'0' as u64) * 10 + (tail[2] as u64 - b'0' as u64);
        Some(n * 10 + (tail[3] as u64 - b'0' as u64))
    } else {
        None
    }
}

/// The number that the four bytes after the first spell, if they spell one.
#[inline(always)]
fn four_digits(tail: &[u8]) -> Option<u64>
    requires { 4 < length tail.now }
    ensures { result ≡ number (take 4 (drop 1 tail.now)) }
{
    if is_digit(tail[1])
        && tail[1] != b'0'
        && is_digit(tail[2])
        && is_digit(tail[3])
        && is_digit(tail[4])
    {
        let n = (tail[1] as u64 - b'0' as u64) * 10 + (tail[2] as u64 - b'0' as u64);
        let n = n * 10 + (tail[3] as u64 - b'0' as u64);
        Some(n * 10 + (tail[4] as u64 - b'0' as u64))
    } else {
        None
    }
}

/// The number that the next word spells, and the rest after it. If more words follow, a number of at most four digits is read without a
/// loop.
#[inline(always)]
pub(crate) fn next(tail: &[u8]) -> Option<(u64, &[u8])>
    ensures taken { option_map (λ taken. (taken.0, words_after taken.1.now)) result
        ≡ took (words_after tail.now) }
    ensures shorter { IfSome result (λ taken. length taken.1.now < length tail.now) }
{
    if tail.len() > 2 && tail[2] == b' ' && is_digit(tail[1]) {
        return Some((tail[1] as u64 - b'0' as u64, &tail[2..]));
    }
    if tail.len() > 3 && tail[3] == b' ' {
        if let Some(n) = two_digits(tail) {
            return Some((n, &tail[3..]));
        }
    }
    if tail.len() > 4 && tail[4] == b' ' {
        if let Some(n) = three_digits(tail) {
            return Some((n, &tail[4..]));
        }
    }
    if tail.len() > 5 && tail[5] == b' ' {
        if let Some(n) = four_digits(tail) {
            return Some((n, &tail[5..]));
        }
    }
    next_number(tail)
}

/// The number, of any length, that the next word spells, and the rest after it.
#[inline(always)]
pub(crate) fn next_number(tail: &[u8]) -> Option<(u64, &[u8])>
    ensures taken { option_map (λ taken. (taken.0, words_after taken.1.now)) result
        ≡ took (words_after tail.now) }
    ensures shorter { IfSome result (λ taken. length taken.1.now < length tail.now) }
{
    let [_, bytes @ ..] = tail else {
        return None;
    };
    if begins_well(bytes) {
        digits(bytes)
    } else {
        None
    }
}

/// The number that is the next and last word. The function isn't inlined: its caller must stay small to be inlined into the loop over
/// lines.
#[inline(never)]
pub(crate) fn last(tail: &[u8]) -> Option<u64>
    ensures { result ≡ last_number (words_after tail.now) }
{
    short_last(tail)
}

/// The result of `last`, for a number of any length. A number of four digits is read without a loop.
#[inline(never)]
fn long_last(tail: &[u8]) -> Option<u64>
    ensures { result ≡ last_number (words_after tail.now) }
{
    if tail.len() == 5 {
        if let Some(n) = four_digits(tail) {
            return Some(n);
        }
    }
    let (n, rest) = next_number(tail)?;
    if is_end(rest) { Some(n) } else { None }
}

/// The result of `last`, without a call for a number of at most three digits, as most are.
#[inline(always)]
pub(crate) fn short_last(tail: &[u8]) -> Option<u64>
    ensures { result ≡ last_number (words_after tail.now) }
{
    if tail.len() == 2 && is_digit(tail[1]) {
        return Some(tail[1] as u64 - b'0' as u64);
    }
    if tail.len() == 3 {
        if let Some(n) = two_digits(tail) {
            return Some(n);
        }
    }
    if tail.len() == 4 {
        if let Some(n) = three_digits(tail) {
            return Some(n);
        }
    }
    long_last(tail)
}
