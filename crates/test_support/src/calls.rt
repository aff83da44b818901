//! The words of a row's call.

/// A call's name with its first two numbers, 0 where there are none, and the word after them.
#[derive(Clone, Copy)]
pub struct Call<'t> {
    pub name: &'t str,
    pub first: u32,
    pub second: u32,
    pub last: &'t str,
}

/// The call of a text; None where a word isn't the number that it should be.
pub fn call_of(text: &str) -> Option<Call<'_>> {
    let mut words = text.split_whitespace();
    let name = words.next()?;
    let first = words.next().unwrap_or("0").parse().ok()?;
    let second = words.next().unwrap_or("0").parse().ok()?;
    let last = words.next().unwrap_or("");
    Some(Call {
        name,
        first,
        second,
        last,
    })
}
