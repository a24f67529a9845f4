//! Lists of the first events.
use crate::{full, related};
use relation::Relation;
use std::process::Abort;
use std::test::Fail;

fn lists(rt: &impl Abort, table: &Relation, n: usize, expected: &[u8]) -> Result<(), Fail> {
    let listed = table.list(n).ok_or("no list is found")?;
    assert!(rt; listed.as_slice() == expected);
    Ok(())
}

#[test]
fn by_numbers_without_pairs(rt: HostRuntime) -> Result<(), Fail> {
    lists(&rt, &Relation::empty(), 0, &[])?;
    lists(&rt, &Relation::empty(), 4, &[0, 1, 2, 3])
}

#[test]
fn lowest_ready_first(rt: HostRuntime) -> Result<(), Fail> {
    lists(&rt, &related(&[(3, 0), (3, 1), (2, 1)]), 4, &[2, 3, 0, 1])
}

#[test]
fn only_the_first_events_count(rt: HostRuntime) -> Result<(), Fail> {
    let table = related(&[(5, 5), (6, 0), (2, 1)]);
    lists(&rt, &table, 5, &[0, 2, 1, 3, 4])?;
    assert!(rt; table.list(6).is_none());
    Ok(())
}

#[test]
fn none_with_all_pairs(rt: HostRuntime) -> Result<(), Fail> {
    lists(&rt, &full(), 0, &[])?;
    assert!(rt; full().list(1).is_none());
    assert!(rt; full().list(256).is_none());
    Ok(())
}

#[test]
fn across_words(rt: HostRuntime) -> Result<(), Fail> {
    let table = related(&[(255, 128), (128, 127), (127, 64), (64, 63)]);
    let listed = table.list(1000).ok_or("no list is found")?;
    let events = listed.as_slice();
    assert!(rt; events.len() == 256);
    assert!(rt; events[62] == 62 && events[63] == 65 && events[124] == 126);
    assert!(rt; events[125] == 129 && events[250] == 254);
    assert!(rt; &events[251..] == [255, 128, 127, 64, 63].as_slice());
    Ok(())
}
