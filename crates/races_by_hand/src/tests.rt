//! The numbers of an event are its thread, location, value read, value written and mode. Location 0 is x and location 1
//! is y, so that the first recorded event is 2. Mode 0 is not atomic, 1 relaxed, 2 acquire, 3 release.
use boards::{C11, Ra};
use event::{Denial, Kind, Size};
use graph::{Closed, Open};
use races::{Race, find_race};
use std::test::Fail;

/// The graph with these events, and reads with their sources.
fn closed(size: Size, events: &[(Kind, [u32; 5])], links: &[(u32, u32)]) -> Result<Closed, Fail> {
    let mut open = Open::new(size);
    for (kind, numbers) in events {
        open.record(*kind, (*numbers).into())?;
    }
    for (read, source) in links {
        open.link(*read, *source)?;
    }
    Ok(open.close())
}

/// Thread 1 writes x and then the flag y; thread 2 reads y and then x.
fn message_passing(write_mode: u32, read_mode: u32) -> Result<Closed, Fail> {
    let events = [
        (Kind::Write, [1, 0, 1, 1, 0]),
        (Kind::Write, [1, 1, 1, 1, write_mode]),
        (Kind::Read, [2, 1, 1, 1, read_mode]),
        (Kind::Read, [2, 0, 1, 1, 0]),
    ];
    closed(Size::new(2, 2)?, &events, &[(4, 3), (5, 2)])
}

#[test]
fn a_relaxed_flag_passes_no_message_under_c11(rt: HostRuntime) -> Result<(), Fail> {
    let relaxed = message_passing(1, 1)?;
    assert_eq!(rt;
        find_race(&relaxed, &C11)?,
        Some(Race {
            first: 2,
            second: 5,
        })
    );
    assert_eq!(rt; find_race(&relaxed, &Ra)?, None, "every read synchronises");
    assert_eq!(rt; find_race(&message_passing(3, 2)?, &C11)?, None);
    Ok(())
}

/// Of 2 with 5, 2 with 6, 3 with 4 and 5 with 6.
#[test]
fn the_first_race_has_the_lowest_lower_event(rt: HostRuntime) -> Result<(), Fail> {
    let events = [
        (Kind::Write, [1, 0, 1, 1, 0]),
        (Kind::Write, [1, 1, 1, 1, 0]),
        (Kind::Read, [2, 1, 0, 0, 0]),
        (Kind::Read, [2, 0, 0, 0, 0]),
        (Kind::Write, [3, 0, 2, 2, 0]),
    ];
    let graph = closed(Size::new(3, 2)?, &events, &[(4, 1), (5, 0)])?;
    assert_eq!(rt;
        find_race(&graph, &C11)?,
        Some(Race {
            first: 2,
            second: 5,
        })
    );
    Ok(())
}

/// Two reads of x do not race, nor do two atomic writes of y; an atomic write and a plain read of y do.
#[test]
fn one_of_two_writes_and_one_is_not_atomic(rt: HostRuntime) -> Result<(), Fail> {
    let events = [
        (Kind::Read, [1, 0, 0, 0, 0]),
        (Kind::Read, [2, 0, 0, 0, 0]),
        (Kind::Write, [1, 1, 1, 1, 1]),
        (Kind::Write, [2, 1, 2, 2, 1]),
        (Kind::Read, [2, 1, 0, 0, 0]),
    ];
    let graph = closed(Size::new(2, 2)?, &events, &[(2, 0), (3, 0), (6, 1)])?;
    assert_eq!(rt;
        find_race(&graph, &C11)?,
        Some(Race {
            first: 4,
            second: 6,
        })
    );
    Ok(())
}

#[test]
fn the_lowest_unlinked_read_denies(rt: HostRuntime) -> Result<(), Fail> {
    let graph = closed(
        Size::new(1, 2)?,
        &[(Kind::Read, [1, 0, 0, 0, 0]); 3],
        &[(2, 0)],
    )?;
    assert_eq!(rt; find_race(&graph, &Ra), Err(Denial::Unread(3)));
    Ok(())
}
