//! Known answers, worked out by hand.

use super::*;

#[test]
fn keeps_the_order_of_pushes_and_inserts(rt: HostRuntime) {
    let mut few: Sequence<u8, 4> = Sequence::empty(0);
    assert_eq!(rt; few.push(5), Ok(()));
    assert_eq!(rt; few.push(7), Ok(()));
    assert_eq!(rt; few.insert(1, 6), Ok(()));
    assert_eq!(rt; few.insert(9, 8), Ok(()));
    assert_eq!(rt; few.len(), 4);
    assert_eq!(rt; few.as_slice(), [5, 6, 7, 8].as_slice());
}

#[test]
fn refuses_what_does_not_fit(rt: HostRuntime) {
    let mut one: Sequence<u8, 1> = Sequence::empty(0);
    assert_eq!(rt; one.push(5), Ok(()));
    assert_eq!(rt; one.push(6), Err(Full));
    assert_eq!(rt; one.insert(0, 7), Err(Full));
    assert_eq!(rt; one.as_slice(), [5].as_slice());
}
