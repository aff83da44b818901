// Poll words that threads share: a clear loses no arming, and a closed row shows its words.
ghost use Rattle.std.specs.Prelude.{◌≡◌, ◌<◌, ◌≤◌, ◌^◌, ◌∷◌, [], length, slice_index};
ghost use Rattle.thread_state.specs.PollRule.{armed_with};

use super::made::one_poller;
use poll::{Armer, PollRow, Poller};
use std::alloc::{AllocError, Global};
use std::process::Abort;
use std::test::*;
use std::thread::{Threads, join, yield_now};

#[test]
fn words_are_left_as_they_were_armed(rt: HostRuntime) -> Result<(), Fail> {
    let (row, mut armer, pollers) = PollRow::new(rt.alloc(), 3)?;
    armer.arm(&row, 1, 7);
    armer.arm(&row, 2, 9);
    let words = row.close(armer, pollers);
    assert!(rt; words.as_slice() == [0, 7, 9].as_slice());
    Ok(())
}

// Makes and closes a row. Answers the words that it leaves.
fn made_and_closed(alloc: Global, places: usize) -> Result<Vec<u64>, AllocError>
    requires { (0 < places) × (places ≤ 64) }
{
    let (row, armer, pollers) = PollRow::new(alloc, places)?;
    Ok(row.close(armer, pollers))
}

#[test]
fn a_row_is_made_after_another(rt: HostRuntime) -> Result<(), Fail> {
    assert!(rt; made_and_closed(rt.alloc(), 64)?.len() == 64);
    assert!(rt; made_and_closed(rt.alloc(), 64)?.len() == 64);
    Ok(())
}

// Passes whichever allocation is refused: the row is made whole, or not at all.
#[test]
fn a_row_is_made_whole_or_not_at_all(rt: HostRuntime) -> Result<(), Fail> {
    let Ok(words) = made_and_closed(rt.alloc(), 3) else {
        println!(rt; "refused")?;
        return Ok(());
    };
    assert!(rt; words.as_slice() == [0, 0, 0].as_slice());
    println!(rt; "no growth was refused")?;
    Ok(())
}

fn armed_elsewhere<R: Threads + Sync>(rt: &R, row: &PollRow, armer: Armer, n: u64) -> Armer
    requires { (armer.table ≡ row.now) × (length armer.seen.armed ≡ 1)
        × (slice_index armer.seen.armed 0 < n) × (n < 2 ^ 40) }
    ensures row { result.table ≡ row.now }
    ensures step { result.seen ≡ armed_with armer.seen 0 n }
{
    let (_, armer) = join(
        rt,
        || (),
        move || -> Armer
            requires { (armer.table ≡ row.now) × (length armer.seen.armed ≡ 1)
                × (slice_index armer.seen.armed 0 < n) × (n < 2 ^ 40) }
            ensures { (result.table ≡ row.entry.now) × (result.seen ≡ armed_with armer.seen 0 n) }
        {
            let mut armer = armer;
            armer.arm(row, 0, n);
            armer
        },
    );
    armer
}

// The place is armed with 2. Answers whether a clear of 1 keeps it armed, and a clear of 2 doesn't.
fn is_cleared_by_two(row: &PollRow, poller: &mut Poller) -> bool
    requires { poller.old.table ≡ row.now }
{
    let is_kept = !poller.clear(row, 1) && poller.poll(row) == 2;
    is_kept && poller.clear(row, 2) && poller.poll(row) == 0
}

#[test]
fn the_armer_is_in_another_thread(rt: HostRuntime) -> Result<(), Fail> {
    let (row, armer, mut poller) = one_poller(rt.alloc())?;
    let first = poller.poll(&row);
    let armer = armed_elsewhere(&rt, &row, armer, 1);
    let second = poller.poll(&row);
    let armer = armed_elsewhere(&rt, &row, armer, 2);
    assert!(rt; first == 0 && second == 1);
    assert!(rt; is_cleared_by_two(&row, &mut poller));
    assert!(rt; armer.last(0) == 2);
    Ok(())
}

// Arms the first place with 1, 2, .. up to `most`.
fn arm_in_order(row: &PollRow, armer: &mut Armer, most: u64)
    requires row { armer.old.table ≡ row.now }
    requires fresh { armer.old.seen.armed ≡ 0 ∷ [] }
    requires small { most < 2 ^ 40 }
    ensures row { armer.new.table ≡ armer.old.table }
    ensures armed { armer.new.seen.armed ≡ most ∷ [] }
{
    for n in 0..most {
        armer.arm(row, 0, n + 1);
        if n % 16 == 0 {
            yield_now();
        }
    }
}

// The results of a poller's clears: the greatest number, and whether each number exceeded the one before.
#[derive(Clone, Copy)]
struct Cleared {
    last: u64,
    rising: bool,
}

fn clear_once(row: &PollRow, poller: &mut Poller, cleared: &mut Cleared)
    requires row { poller.old.table ≡ row.now }
    ensures row { poller.new.table ≡ poller.old.table }
    ensures place { poller.new.seen.place ≡ poller.old.seen.place }
{
    let n = poller.poll(row);
    if n != 0 && poller.clear(row, n) {
        cleared.rising = cleared.rising && cleared.last < n;
        cleared.last = n;
    }
}

fn clear_many(row: &PollRow, poller: &mut Poller, turns: u32) -> Cleared
    requires row { poller.old.table ≡ row.now }
    ensures row { poller.new.table ≡ poller.old.table }
    ensures place { poller.new.seen.place ≡ poller.old.seen.place }
{
    let mut cleared = Cleared {
        last: 0,
        rising: true,
    };
    for _ in 0..turns {
        clear_once(row, poller, &mut cleared);
        yield_now();
    }
    cleared
}

// One thread arms while another polls and clears.
fn arm_against_clear<R: Threads + Sync>(
    rt: &R,
    row: &PollRow,
    armer: Armer,
    poller: Poller,
) -> (Armer, Poller, Cleared)
    requires armer { (armer.table ≡ row.now) × (armer.seen.armed ≡ 0 ∷ []) }
    requires poller { (poller.table ≡ row.now) × (poller.seen.place ≡ 0) }
    ensures armer { (result.0.table ≡ row.now) × (result.0.seen.armed ≡ 10000 ∷ []) }
    ensures poller { (result.1.table ≡ row.now) × (result.1.seen.place ≡ 0) }
{
    let (armer, (poller, cleared)) = join(
        rt,
        move || -> Armer
            requires { (armer.table ≡ row.now) × (armer.seen.armed ≡ 0 ∷ []) }
            ensures { (result.table ≡ row.entry.now) × (result.seen.armed ≡ 10000 ∷ []) }
        {
            let mut armer = armer;
            arm_in_order(row, &mut armer, 10_000);
            armer
        },
        move || -> (Poller, Cleared)
            requires { (poller.table ≡ row.now) × (poller.seen.place ≡ 0) }
            ensures { (result.0.table ≡ row.entry.now) × (result.0.seen.place ≡ 0) }
        {
            let mut poller = poller;
            let cleared = clear_many(row, &mut poller, 20_000);
            (poller, cleared)
        },
    );
    (armer, poller, cleared)
}

#[test]
fn no_arming_is_lost_to_a_clear(rt: HostRuntime) -> Result<(), Fail> {
    let (row, armer, poller) = one_poller(rt.alloc())?;
    let (armer, mut poller, mut cleared) = arm_against_clear(&rt, &row, armer, poller);
    clear_once(&row, &mut poller, &mut cleared);
    assert!(rt; cleared.last == 10_000 && cleared.rising);
    assert!(rt; poller.poll(&row) == 0 && armer.last(0) == 10_000);
    let pollers = vec![in rt.alloc(); poller]?;
    let words = row.close(armer, pollers);
    assert!(rt; words.as_slice() == [0].as_slice());
    Ok(())
}
