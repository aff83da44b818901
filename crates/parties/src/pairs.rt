//! A lookup in a list of pairs.
ghost use Rattle.std.specs.Prelude.{◌≡◌};
ghost use Rattle.parties.specs.Pairs.{first_of};

/// The value of the first pair with the key.
pub(crate) fn first_of<T: Copy>(list: &[(u64, T)], key: u64) -> Option<T>
    ensures { result ≡ first_of key list.now }
{
    let mut rest = list;
    while let [(found, value), others @ ..] = rest {
        if *found == key {
            return Some(*value);
        }
        rest = others;
    }
    None
}
