//! Prints the orders of two small graphs under each model. What it must print was worked out by hand.
#![tactic(auto)]

use boards::{Board, C11, Ra};
use event::{Denial, Kind, Size};
use graph::{Graph, Open};
use model::{Model, Synchronising};
use relation::Relation;
use std::io;

const RELAXED: u32 = 1;

const ACQUIRE: u32 = 2;

const RELEASE: u32 = 3;

const ACQUIRE_RELEASE: u32 = 4;

const SEQ_CST: u32 = 5;

/// Message passing that reads an old value, with an update, a fence, a read of its own thread's write and an open write.
///
/// The initial writes of x and y are 0 and 1. Thread 1 has 2: x := 1, 3: y := 1, 8: x := 9 and 9, which reads 8.
/// Thread 2 has 4, which reads 3, then 5, which updates the initial x to 5, the fence 6, and 7, which reads 5.
/// The modification order of x is 0, 5, 2, and 8 is open; that of y is 1, 3.
fn message_passing(mode: u32) -> Result<Open, Denial> {
    let mut open = Open::new(Size::new(2, 2)?);
    open.record(Kind::Write, [1, 0, 0, 1, RELAXED].into())?;
    open.record(Kind::Write, [1, 1, 0, 1, RELEASE].into())?;
    open.record(Kind::Read, [2, 1, 1, 0, mode].into())?;
    open.record(Kind::Update, [2, 0, 0, 5, ACQUIRE_RELEASE].into())?;
    open.record(Kind::Fence, [2, 0, 0, 0, SEQ_CST].into())?;
    open.record(Kind::Read, [2, 0, 5, 0, RELAXED].into())?;
    open.record(Kind::Write, [1, 0, 0, 9, RELAXED].into())?;
    open.record(Kind::Read, [1, 0, 9, 0, RELAXED].into())?;
    join(&mut open)?;
    Ok(open)
}

/// The links and placements of message passing.
fn join(open: &mut Open) -> Result<(), Denial> {
    open.link(4, 3)?;
    open.link(5, 0)?;
    open.link(7, 5)?;
    open.link(9, 8)?;
    open.place(5, 0)?;
    open.place(2, 5)?;
    open.place(3, 1)
}

/// Load buffering: each thread reads what the other writes after its own read. The initial writes are 0 and 1.
/// Thread 1 has 2, which reads 5, and 3: y := 1. Thread 2 has 4, which reads 3, and 5: x := 1. Both writes are open.
fn load_buffering() -> Result<Open, Denial> {
    let mut open = Open::new(Size::new(2, 2)?);
    open.record(Kind::Read, [1, 0, 1, 0, RELAXED].into())?;
    open.record(Kind::Write, [1, 1, 0, 1, RELAXED].into())?;
    open.record(Kind::Read, [2, 1, 1, 0, RELAXED].into())?;
    open.record(Kind::Write, [2, 0, 0, 1, RELAXED].into())?;
    open.link(2, 5)?;
    open.link(4, 3)?;
    Ok(open)
}

/// Each event with those that it is paired with, if any.
fn show(rt: &impl Print, table: &Relation) -> io::Result<()> {
    for a in 0..16u8 {
        let row = table.row(a);
        if !row.is_empty() {
            print!(rt; "{a}:")?;
            for b in row {
                print!(rt; " {b}")?;
            }
            println!(rt; "")?;
        }
    }
    Ok(())
}

/// Each order of the model of that number, and one beyond, laid over a table that held another pair.
fn show_model(rt: &impl Print, number: u32, graph: &Graph) -> io::Result<()> {
    match Board::try_from(number) {
        Ok(board) => {
            for order in 0..=board.orders() {
                let mut table = Relation::empty();
                table.insert(9, 0);
                board.lay(graph, order, &mut table);
                println!(rt; "model {number}, order {order}")?;
                show(rt, &table)?;
            }
            Ok(())
        }
        Err(denial) => println!(rt; "model {number}: denial {}", denial.number()),
    }
}

fn show_all(rt: &impl Print, title: &str, built: Result<Open, Denial>) -> io::Result<()> {
    println!(rt; "{title}")?;
    if let Ok(open) = built {
        for number in 0..6u32 {
            show_model(rt, number, open.graph())?;
        }
        let mut table = Relation::empty();
        C11.lay_happens_before(open.graph(), &mut table);
        println!(rt; "C11 happens-before")?;
        show(rt, &table)?;
        Ra.lay_happens_before(open.graph(), &mut table);
        println!(rt; "RA happens-before")?;
        show(rt, &table)?;
    }
    Ok(())
}

fn main(rt: HostRuntime) -> io::Result<()> {
    show_all(
        &rt,
        "message passing by an acquire read",
        message_passing(ACQUIRE),
    )?;
    show_all(
        &rt,
        "message passing by a relaxed read",
        message_passing(RELAXED),
    )?;
    show_all(&rt, "load buffering", load_buffering())
}
