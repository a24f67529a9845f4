//! Under three orders: coherence, program order with reads-from, and program order with modification order.
//! The numbers of an event are its thread, location, value read, value written and mode.
use event::{Kind, Size};
use graph::Open;
use search::{lowest_cyclic, search};
use std::test::Fail;
use threefold::Threefold;

/// Whether the search finds a graph with the writes placed in that order.
fn finds(open: &Open, placed: &[u8]) -> bool {
    search(open.graph(), &Threefold {}).is_some_and(|full| full.placed() == placed)
}

/// Two writes of x, one in each of two threads; a third thread reads the second and then the first.
fn two_writes() -> Result<Open, Fail> {
    let mut open = Open::new(Size::new(3, 1)?);
    open.record(Kind::Write, [1, 0, 0, 1, 1].into())?;
    open.record(Kind::Write, [2, 0, 0, 2, 1].into())?;
    open.record(Kind::Read, [3, 0, 2, 0, 1].into())?;
    open.record(Kind::Read, [3, 0, 1, 0, 1].into())?;
    open.link(3, 2)?;
    open.link(4, 1)?;
    Ok(open)
}

#[test]
fn the_read_order_tells_the_modification_order(rt: HostRuntime) -> Result<(), Fail> {
    let mut open = two_writes()?;
    assert!(rt; finds(&open, &[0, 2, 1]));
    open.record(Kind::Read, [3, 0, 2, 0, 1].into())?;
    open.link(5, 2)?;
    assert!(rt; lowest_cyclic(open.graph(), &Threefold {}).is_none());
    assert!(rt;
        search(open.graph(), &Threefold {}).is_none(),
        "there and back again"
    );
    Ok(())
}

#[test]
fn two_updates_of_one_source_have_no_place(rt: HostRuntime) -> Result<(), Fail> {
    let mut open = Open::new(Size::new(2, 1)?);
    open.record(Kind::Update, [1, 0, 0, 1, 1].into())?;
    open.record(Kind::Update, [2, 0, 0, 1, 1].into())?;
    open.link(1, 0)?;
    assert!(rt; finds(&open, &[0, 1, 2]), "the second is not linked yet");
    open.link(2, 0)?;
    assert!(rt; search(open.graph(), &Threefold {}).is_none());
    Ok(())
}

/// Thread 1 writes x and then y, thread 2 writes y and then x: events 2, 3, 4 and 5.
fn crossed() -> Result<Open, Fail> {
    let mut open = Open::new(Size::new(2, 2)?);
    open.record(Kind::Write, [1, 0, 0, 1, 1].into())?;
    open.record(Kind::Write, [1, 1, 0, 1, 1].into())?;
    open.record(Kind::Write, [2, 1, 0, 2, 1].into())?;
    open.record(Kind::Write, [2, 0, 0, 2, 1].into())?;
    open.place(3, 1)?;
    open.place(4, 3)?;
    Ok(open)
}

#[test]
fn the_lowest_cyclic_order_and_the_first_place(rt: HostRuntime) -> Result<(), Fail> {
    let mut first = crossed()?;
    first.place(5, 0)?;
    assert!(rt;
        finds(&first, &[0, 2, 5, 1, 3, 4]),
        "2 fits directly after the initial write"
    );
    first.place(2, 5)?;
    assert_eq!(rt;
        lowest_cyclic(first.graph(), &Threefold {}),
        Some(2),
        "2 3 4 5 in the last order alone"
    );
    assert!(rt; search(first.graph(), &Threefold {}).is_none());
    let mut second = crossed()?;
    second.place(2, 0)?;
    assert!(rt;
        finds(&second, &[0, 2, 5, 1, 3, 4]),
        "5 does not fit before 2"
    );
    assert!(rt;
        finds(&crossed()?, &[0, 2, 5, 1, 3, 4]),
        "both open: 2 first, and then 5 after it"
    );
    Ok(())
}

#[test]
fn writes_of_one_thread_stand_in_its_order(rt: HostRuntime) -> Result<(), Fail> {
    let mut open = Open::new(Size::new(1, 1)?);
    open.record(Kind::Write, [1, 0, 0, 1, 1].into())?;
    open.record(Kind::Write, [1, 0, 0, 2, 1].into())?;
    open.record(Kind::Write, [1, 0, 0, 3, 1].into())?;
    assert!(rt; finds(&open, &[0, 1, 2, 3]));
    open.place(3, 0)?;
    assert!(rt; finds(&open, &[0, 1, 2, 3]), "the last alone placed");
    open.record(Kind::Read, [1, 0, 1, 0, 1].into())?;
    open.link(4, 1)?;
    assert_eq!(rt; lowest_cyclic(open.graph(), &Threefold {}), None);
    assert!(rt;
        search(open.graph(), &Threefold {}).is_none(),
        "the first is overwritten when it is read"
    );
    Ok(())
}
