// Tests of the threads before a census. (HotSpot's runtime overview: at a safepoint stacks don't change)
ghost use Rattle.std.specs.Prelude.{◌≡◌};
ghost use Rattle.std.specs.List.{list_all};
ghost use Rattle.system.specs.Kept.Censuses.{holds_at, is_held_kept, is_quiet_kept, is_settled_kept, census_refusal};

use crate::answers::Refusal;
use crate::thread::Thread;

fn is_held_at(place: &Option<Thread>) -> bool
    ensures { result ≡ holds_at is_held_kept place.now }
{
    match place {
        None => true,
        Some(thread) => thread.held,
    }
}

fn is_quiet_at(place: &Option<Thread>) -> bool
    ensures { result ≡ holds_at is_quiet_kept place.now }
{
    match place {
        None => true,
        Some(thread) => !thread.image.is_publishing(),
    }
}

fn is_settled_at(place: &Option<Thread>) -> bool
    ensures { result ≡ holds_at is_settled_kept place.now }
{
    match place {
        None => true,
        Some(thread) => thread.image.is_settled(),
    }
}

fn are_held(places: &[Option<Thread>]) -> bool
    ensures { result ≡ list_all (holds_at is_held_kept) places.now }
{
    places.iter().all(|place| is_held_at(place))
}

fn are_quiet(places: &[Option<Thread>]) -> bool
    ensures { result ≡ list_all (holds_at is_quiet_kept) places.now }
{
    places.iter().all(|place| is_quiet_at(place))
}

fn are_settled(places: &[Option<Thread>]) -> bool
    ensures { result ≡ list_all (holds_at is_settled_kept) places.now }
{
    places.iter().all(|place| is_settled_at(place))
}

/// Returns why the threads allow no census: `NotAllHeld`, `Publishing` or `Unpublished`, in this order.
pub fn census_refusal(places: &[Option<Thread>]) -> Option<Refusal>
    ensures { result ≡ census_refusal places.now }
{
    if !are_held(places) {
        Some(Refusal::NotAllHeld)
    } else if !are_quiet(places) {
        Some(Refusal::Publishing)
    } else if !are_settled(places) {
        Some(Refusal::Unpublished)
    } else {
        None
    }
}
