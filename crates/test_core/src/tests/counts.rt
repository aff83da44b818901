// Tests of `activation_index`.
use super::{compare, told};
use activation_index::Index;
use activation_index::dense::DenseIndex;
use std::alloc::{AllocError, Global};
use std::process::Abort;

// Whether a census gave this list.
fn is_census(
    rt: &impl Abort,
    alloc: Global,
    census: Result<Vec<(u64, u32)>, AllocError>,
    expected: &str,
) {
    let census = census.expect(rt, "no memory");
    compare(rt, expected, told(rt, alloc, census), expected);
}

// A count of 0 leaves no entry.
#[test]
fn a_census_goes_by_serial(rt: HostRuntime) {
    let mut index = Index::new(rt.alloc(), 1024).expect(&rt, "no memory");
    index.add(1024, 16_384);
    index.add(7, 2);
    index.add(7, -2);
    index.add(1, 2);
    let census = index.census(rt.alloc());
    is_census(&rt, rt.alloc(), census, "[(1, 2), (1024, 16384)]");
    assert!(rt; index.count(1024) == 16_384);
    assert!(rt; index.count(7) == 0);
}

#[test]
fn cells_go_by_slot_and_a_census_by_serial(rt: HostRuntime) {
    let mut index = DenseIndex::new(rt.alloc(), 1024).expect(&rt, "no memory");
    index.place(0, 1024);
    index.add(0, 1024, 2);
    assert!(rt; index.count(0, 1024) == 2);
    index.place(1023, 1);
    index.add(1023, 1, 16_384);
    assert!(rt; index.count(1023, 1) == 16_384);
    let census = index.census(rt.alloc());
    is_census(&rt, rt.alloc(), census, "[(1, 16384), (1024, 2)]");
    assert!(rt; index.count(0, 1) == 0);
}

#[test]
fn an_index_of_two_codes_is_full(rt: HostRuntime) {
    let mut index = Index::new(rt.alloc(), 2).expect(&rt, "no memory");
    index.add(2, 1);
    index.add(1, 2);
    let census = index.census(rt.alloc());
    is_census(&rt, rt.alloc(), census, "[(1, 2), (2, 1)]");
}

// The slot of a code without activations goes to a later code.
#[test]
fn a_slot_is_placed_again(rt: HostRuntime) {
    let mut index = DenseIndex::new(rt.alloc(), 2).expect(&rt, "no memory");
    index.place(0, 1);
    index.add(0, 1, 2);
    index.place(1, 2);
    index.add(1, 2, 1);
    let census = index.census(rt.alloc());
    is_census(&rt, rt.alloc(), census, "[(1, 2), (2, 1)]");
    index.add(0, 1, -2);
    index.place(0, 3);
    index.add(0, 3, 1);
    let census = index.census(rt.alloc());
    is_census(&rt, rt.alloc(), census, "[(2, 1), (3, 1)]");
    assert!(rt; index.count(0, 1) == 0);
}

#[test]
fn too_many_slots_are_refused(rt: HostRuntime) {
    assert!(rt; Index::new(rt.alloc(), usize::MAX).is_err());
    assert!(rt; DenseIndex::new(rt.alloc(), usize::MAX).is_err());
}
