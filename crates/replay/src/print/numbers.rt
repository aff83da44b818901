// Texts, numbers, and words with a number.
ghost use Rattle.std.specs.Prelude.{◌≡◌, ◌++◌, ◌∷◌, ◌+◌, ◌<◌, ◌≤◌, [], decimal, length, vec_len, vec_capacity};

use itoa::Buffer;

/// Puts a text of a few bytes, for which there is room. If the compiler knows the text, as it mostly does here, the bytes are put one by
/// one, without a call.
#[inline(always)]
pub(crate) fn put_text(text: &mut Vec<u8>, word: &[u8])
    requires room { vec_len text.old + length word.now ≤ vec_capacity text.old }
    ensures text { text.new.items ≡ text.old.items ++ word.now }
    ensures grows { vec_len text.new ≤ vec_len text.old + length word.now }
    ensures kept { vec_capacity text.old ≤ vec_capacity text.new }
{
    for b in word {
        text.push_reserved(*b);
    }
}

/// Puts a number. Most numbers have few digits, and need no buffer between.
#[inline(always)]
#[tactic(auto, using(crate::proofs::Decimals::one_digit, crate::proofs::Decimals::two_digits, crate::proofs::Decimals::three_digits))]
pub(crate) fn put_number(text: &mut Vec<u8>, n: u64)
    requires room { vec_len text.old + 40 ≤ vec_capacity text.old }
    ensures text { text.new.items ≡ text.old.items ++ decimal n }
    ensures grows { vec_len text.new ≤ vec_len text.old + 40 }
    ensures kept { vec_capacity text.old ≤ vec_capacity text.new }
{
    if n < 10 {
        put_text(text, &[b'0' + n as u8])
    } else if n < 100 {
        put_text(text, &[b'0' + (n / 10) as u8, b'0' + (n % 10) as u8])
    } else if n < 1000 {
        let tens = n / 10;
        put_text(
            text,
            &[
                b'0' + (tens / 10) as u8,
                b'0' + (tens % 10) as u8,
                b'0' + (n % 10) as u8,
            ],
        )
    } else {
        put_digits(text, n)
    }
}

/// Puts a number of at least four digits.
#[inline(never)]
#[tactic(auto, using(crate::proofs::Decimals::four_digits))]
fn put_digits(text: &mut Vec<u8>, n: u64)
    requires many { 1000 ≤ n }
    requires room { vec_len text.old + 40 ≤ vec_capacity text.old }
    ensures text { text.new.items ≡ text.old.items ++ decimal n }
    ensures grows { vec_len text.new ≤ vec_len text.old + 40 }
    ensures kept { vec_capacity text.old ≤ vec_capacity text.new }
{
    if n < 10_000 {
        let tens = n / 10;
        let hundreds = tens / 10;
        return put_text(
            text,
            &[
                b'0' + (hundreds / 10) as u8,
                b'0' + (hundreds % 10) as u8,
                b'0' + (tens % 10) as u8,
                b'0' + (n % 10) as u8,
            ],
        );
    }
    let mut buffer = Buffer::new();
    put_text(text, buffer.format(n).as_bytes());
}

/// Puts a number that ends a line.
#[inline(always)]
#[tactic(auto, using(crate::proofs::Decimals::one_digit))]
pub(crate) fn put_last_number(text: &mut Vec<u8>, n: u64)
    requires room { vec_len text.old + 41 ≤ vec_capacity text.old }
    ensures text { text.new.items ≡ text.old.items ++ (decimal n ++ 10 ∷ []) }
    ensures grows { vec_len text.new ≤ vec_len text.old + 41 }
    ensures kept { vec_capacity text.old ≤ vec_capacity text.new }
{
    if n < 10 {
        return put_text(text, &[b'0' + n as u8, b'\n']);
    }
    put_number(text, n);
    put_text(text, b"\n");
}

/// Puts a word, and a number after it.
#[inline(always)]
pub(crate) fn put_counted(text: &mut Vec<u8>, word: &[u8], n: u64)
    requires room { vec_len text.old + (length word.now + 40) ≤ vec_capacity text.old }
    ensures text { text.new.items ≡ text.old.items ++ (word.now ++ decimal n) }
    ensures grows { vec_len text.new ≤ vec_len text.old + (length word.now + 40) }
    ensures kept { vec_capacity text.old ≤ vec_capacity text.new }
{
    put_text(text, word);
    put_number(text, n)
}

/// Puts a line of a word and a number.
#[inline(always)]
pub(crate) fn put_counted_line(text: &mut Vec<u8>, word: &[u8], n: u64)
    requires room { vec_len text.old + (length word.now + 41) ≤ vec_capacity text.old }
    ensures text { text.new.items ≡ text.old.items
        ++ ((word.now ++ decimal n) ++ 10 ∷ []) }
    ensures grows { vec_len text.new ≤ vec_len text.old + (length word.now + 41) }
    ensures kept { vec_capacity text.old ≤ vec_capacity text.new }
{
    put_text(text, word);
    put_last_number(text, n)
}
