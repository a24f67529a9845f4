//! Known answers, worked out by hand.

use super::*;

#[test]
fn reads_numbers_behind_spaces(rt: HostRuntime) {
    assert_eq!(rt; read(b"   0"), Some(0));
    assert_eq!(rt; read(b"  12"), Some(12));
    assert_eq!(rt; read(b"4294967295"), Some(4_294_967_295));
    assert_eq!(rt; read(b"           7000"), Some(7_000));
}

#[test]
fn refuses_what_is_no_number(rt: HostRuntime) {
    assert_eq!(rt; read(b""), None);
    assert_eq!(rt; read(b"    "), None);
    assert_eq!(rt; read(b" 012"), None);
    assert_eq!(rt; read(b"1 2 "), None);
    assert_eq!(rt; read(b"  +1"), None);
    assert_eq!(rt; read(b"4294967296"), None);
}

#[test]
fn writes_into_its_part_of_a_line(rt: HostRuntime) {
    let mut line = *b"Rxxxx!";
    assert_eq!(rt; write(0, &mut line[1..5]), Ok(()));
    assert_eq!(rt; line, *b"R   0!");
}

#[test]
fn writes_the_largest_number(rt: HostRuntime) {
    let mut field = *b"xxxxxxxxxxx";
    assert_eq!(rt; write(4_294_967_295, &mut field), Ok(()));
    assert_eq!(rt; field, *b" 4294967295");
}

#[test]
fn leaves_a_field_alone_that_is_too_narrow(rt: HostRuntime) {
    let mut field = *b"xyz";
    assert_eq!(rt; write(1_000, &mut field), Err(TooNarrow));
    assert_eq!(rt; field, *b"xyz");
    assert_eq!(rt; write(999, &mut field), Ok(()));
    assert_eq!(rt; field, *b"999");
}
