//! The first cycle and the test for cycles.
use crate::{full, related};
use relation::Relation;
use std::process::Abort;
use std::test::Fail;

fn shows(rt: &impl Abort, table: &Relation, expected: &[u8]) -> Result<(), Fail> {
    assert!(rt; !table.is_acyclic());
    let cycle = table.first_cycle().ok_or("no cycle is found")?;
    assert_eq!(rt; cycle.len(), expected.len());
    assert!(rt; cycle.as_slice() == expected);
    Ok(())
}

fn shows_none(rt: &impl Abort, table: &Relation) {
    assert!(rt; table.is_acyclic());
    assert!(rt; table.first_cycle().is_none());
}

#[test]
fn none_without_pairs(rt: HostRuntime) {
    shows_none(&rt, &Relation::empty());
}

#[test]
fn none_in_a_chain_across_words(rt: HostRuntime) {
    shows_none(
        &rt,
        &related(&[(255, 128), (128, 127), (127, 64), (64, 63), (255, 63)]),
    );
}

#[test]
fn one_event_paired_with_itself(rt: HostRuntime) -> Result<(), Fail> {
    shows(&rt, &related(&[(2, 3), (3, 2), (200, 200)]), &[200])
}

#[test]
fn lowest_of_two_as_short(rt: HostRuntime) -> Result<(), Fail> {
    shows(&rt, &related(&[(3, 7), (7, 3), (2, 9), (9, 2)]), &[2, 9])
}

#[test]
fn first_by_the_third_event(rt: HostRuntime) -> Result<(), Fail> {
    shows(
        &rt,
        &related(&[(1, 2), (2, 5), (5, 1), (2, 3), (3, 1)]),
        &[1, 2, 3],
    )
}

#[test]
fn shorter_before_lower(rt: HostRuntime) -> Result<(), Fail> {
    shows(
        &rt,
        &related(&[(0, 1), (1, 2), (2, 0), (8, 9), (9, 8)]),
        &[8, 9],
    )
}

#[test]
fn told_from_the_lowest(rt: HostRuntime) -> Result<(), Fail> {
    shows(&rt, &related(&[(9, 4), (4, 7), (7, 9)]), &[4, 7, 9])
}

#[test]
fn round_across_words(rt: HostRuntime) -> Result<(), Fail> {
    shows(
        &rt,
        &related(&[(255, 128), (128, 127), (127, 64), (64, 63), (63, 255)]),
        &[63, 255, 128, 127, 64],
    )
}

#[test]
fn all_pairs(rt: HostRuntime) -> Result<(), Fail> {
    shows(&rt, &full(), &[0])
}
