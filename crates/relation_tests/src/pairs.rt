//! Sets of events, and relations put together and closed.
use crate::related;
use event_set::EventSet;
use std::process::Abort;

fn of(events: &[u8]) -> EventSet {
    let mut set = EventSet::empty();
    for &event in events {
        set.insert(event);
    }
    set
}

fn walks(rt: &impl Abort, mut set: EventSet, expected: &[u8]) {
    for &event in expected {
        assert_eq!(rt; set.next(), Some(event));
    }
    assert_eq!(rt; set.next(), None);
}

#[test]
fn a_set_is_walked_upward(rt: HostRuntime) {
    walks(
        &rt,
        of(&[255, 63, 128, 0, 64, 127]),
        &[0, 63, 64, 127, 128, 255],
    );
    walks(&rt, EventSet::below(3), &[0, 1, 2]);
    walks(&rt, EventSet::empty(), &[]);
}

#[test]
fn sets_are_put_together(rt: HostRuntime) {
    let other = of(&[64, 65, 255]);
    let mut set = of(&[1, 64, 255]);
    set.union_with(&other);
    walks(&rt, set, &[1, 64, 65, 255]);
    set.remove(65);
    set.intersect_with(&other);
    walks(&rt, set, &[64, 255]);
    set.difference_with(&of(&[64]));
    walks(&rt, set, &[255]);
    assert!(rt; set.contains(255) && !set.contains(64));
    assert!(rt; !set.is_empty() && set.is_disjoint(&of(&[254, 0])) && !set.is_disjoint(&other));
}

#[test]
fn pairs_are_joined_and_turned(rt: HostRuntime) {
    let mut table = related(&[(7, 255)]);
    table.union_with(&related(&[(255, 7), (63, 64)]));
    table.join_row(128, &of(&[127, 0]));
    assert!(rt; table.contains(7, 255) && table.contains(63, 64) && table.contains(128, 0));
    assert!(rt; !table.contains(64, 63) && !table.contains(0, 128));
    walks(&rt, table.row(128), &[0, 127]);
    walks(&rt, table.transposed().row(127), &[128]);
}

#[test]
fn closing_follows_steps(rt: HostRuntime) {
    let mut table = related(&[(255, 128), (128, 127), (127, 64), (64, 63), (5, 6), (6, 5)]);
    table.close();
    walks(&rt, table.row(255), &[63, 64, 127, 128]);
    walks(&rt, table.row(127), &[63, 64]);
    walks(&rt, table.row(63), &[]);
    walks(&rt, table.row(5), &[5, 6]);
}
