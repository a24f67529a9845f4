//! Orders and layers of one graph, worked out by hand.
use crate::Threefold;
use event::{Kind, Size};
use graph::Open;
use model::{Barrier, Model, Strong, Synchronising};
use relation::Relation;
use std::test::Fail;

/// Events 0 and 1 are the initial writes of x and y. Thread 1 writes x and, past a fence of mode 5, reads y from its initial write: 2, 3, 4.
/// Thread 2 updates x from that write and, past a fence of mode 4, writes x and reads it from its initial write: 5, 6, 7, 8. Write 7 is not placed.
fn example() -> Result<Open, Fail> {
    let mut open = Open::new(Size::new(2, 2)?);
    open.record(Kind::Write, [1, 0, 0, 1, 1].into())?;
    open.record(Kind::Fence, [1, 0, 0, 0, 5].into())?;
    open.record(Kind::Read, [1, 1, 0, 0, 1].into())?;
    open.record(Kind::Update, [2, 0, 1, 2, 4].into())?;
    open.record(Kind::Fence, [2, 0, 0, 0, 4].into())?;
    open.record(Kind::Write, [2, 0, 0, 3, 1].into())?;
    open.record(Kind::Read, [2, 0, 0, 0, 1].into())?;
    open.link(4, 1)?;
    open.link(5, 2)?;
    open.link(8, 0)?;
    open.place(2, 0)?;
    open.place(5, 2)?;
    Ok(open)
}

fn program_order() -> Relation {
    let mut pairs = Relation::empty();
    add(&mut pairs, 0, &[1, 2, 3, 4, 5, 6, 7, 8]);
    add(&mut pairs, 1, &[2, 3, 4, 5, 6, 7, 8]);
    add(&mut pairs, 2, &[3, 4]);
    add(&mut pairs, 3, &[4]);
    add(&mut pairs, 5, &[6, 7, 8]);
    add(&mut pairs, 6, &[7, 8]);
    add(&mut pairs, 7, &[8]);
    pairs
}

/// At x: program order from 0, 5 and 7, reads-from and modification order from 2, reads-before from 8. At y: 1 with its read.
/// The update 5 reads from 2, which 5 alone overwrites, so that it is before no write.
fn coherence() -> Relation {
    let mut pairs = Relation::empty();
    add(&mut pairs, 0, &[2, 5, 7, 8]);
    add(&mut pairs, 1, &[4]);
    add(&mut pairs, 2, &[5]);
    add(&mut pairs, 5, &[7, 8]);
    add(&mut pairs, 7, &[8]);
    add(&mut pairs, 8, &[2, 5]);
    pairs
}

fn add(pairs: &mut Relation, first: u8, seconds: &[u8]) {
    for &second in seconds {
        pairs.insert(first, second);
    }
}

#[test]
fn orders_are_laid_whatever_the_table_held(rt: HostRuntime) -> Result<(), Fail> {
    let open = example()?;
    let mut table = Relation::empty();
    table.insert(200, 7);
    Threefold.lay(open.graph(), 0, &mut table);
    assert!(rt; table == coherence());
    let mut expected = program_order();
    expected.insert(2, 5);
    Threefold.lay(open.graph(), 1, &mut table);
    assert!(rt; table == expected, "the other links are in program order");
    Threefold.lay(open.graph(), 2, &mut table);
    assert!(rt;
        table == expected,
        "the other placements are in program order"
    );
    Threefold.lay(open.graph(), 3, &mut table);
    assert!(rt;
        table == Relation::empty(),
        "orders beyond the last are empty"
    );
    table.insert(200, 7);
    Threefold.lay_happens_before(open.graph(), &mut table);
    assert!(rt; table == program_order());
    Ok(())
}

#[test]
fn a_barrier_adds_what_a_fence_of_mode_5_orders(rt: HostRuntime) -> Result<(), Fail> {
    let open = example()?;
    let barrier = Barrier::new(Threefold);
    let mut table = Relation::empty();
    barrier.lay(open.graph(), 0, &mut table);
    let mut expected = coherence();
    add(&mut expected, 3, &[4]);
    for before in 0..3u8 {
        expected.insert(before, 3);
    }
    assert!(rt; table == expected);
    barrier.lay(open.graph(), 3, &mut table);
    assert!(rt;
        table == Relation::empty(),
        "orders beyond the last stay empty"
    );
    let pile = Strong::new(barrier, 0b01);
    assert_eq!(rt; pile.orders(), 3);
    pile.lay(open.graph(), 0, &mut table);
    expected.insert(2, 4);
    assert!(rt; table == expected, "thread 1 over the fence");
    Ok(())
}

#[test]
fn a_strong_thread_keeps_its_order(rt: HostRuntime) -> Result<(), Fail> {
    let open = example()?;
    let mut table = Relation::empty();
    Strong::new(Threefold, 0b10).lay(open.graph(), 0, &mut table);
    let mut expected = coherence();
    add(&mut expected, 5, &[6]);
    add(&mut expected, 6, &[7, 8]);
    assert!(rt;
        table == expected,
        "thread 2 alone, and from no initial write"
    );
    Ok(())
}
