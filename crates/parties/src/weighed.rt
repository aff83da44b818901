//! The result of a weighing, for a party.
ghost use Rattle.std.specs.Prelude.{◌≡◌};
ghost use Rattle.parties.specs.Weighed.{told_of};

use crate::acts::Fault;
use bodies::Name;
use coordinator_core::Reclaimed;

/// 0 if the code was freed, otherwise how many activations it has, or the late place.
pub(crate) fn told_of<N: Name>(reclaimed: Reclaimed<N>) -> Result<u64, Fault>
    ensures { result ≡ told_of reclaimed }
{
    match reclaimed {
        Reclaimed::Freed(_receipt) => Ok(0),
        Reclaimed::Used(count, _weighing) => Ok(count),
        Reclaimed::Late(place, _weighing) => Err(Fault::Late(place)),
    }
}
