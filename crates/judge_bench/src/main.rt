//! Times judges on graphs of 256 events with eight open writes.
//! Standard output has the verdicts, standard error how long they take. The argument is the number of rounds.
#![tactic(auto)]

ghost use Rattle.std.specs.Prelude.{◌<◌};

use boards::Board;
use event::{Denial, Kind, Size};
use graph::Open;
use judge::Judge;
use std::io;
use verdict::Verdict;

/// What the eight open writes are.
#[derive(Clone, Copy)]
enum Writes {
    /// One in each of eight threads.
    Free,
    /// All in one thread.
    OneThread,
    /// The two of these numbers are updates of one source, and the others free.
    TwoUpdates(u32, u32),
}

impl Writes {
    /// The thread of the open write of a number from 0 to 7.
    fn thread(self, number: u32) -> u32
        requires { number < 8 }
    {
        match self {
            Writes::OneThread => 9,
            Writes::Free | Writes::TwoUpdates(..) => 9 + number,
        }
    }

    fn kind(self, number: u32) -> Kind {
        match self {
            Writes::TwoUpdates(a, b) if number == a || number == b => Kind::Update,
            _ => Kind::Write,
        }
    }
}

/// Eight placed writes of location 0, 238 reads of location 1, and then the open writes, to location 0 again.
/// The numbers of an event are its thread, location, value read, value written and mode.
fn build(writes: Writes) -> Result<Open, Denial> {
    let mut graph = Open::new(Size::new(16, 2)?);
    for i in 0..8u32 {
        graph.record(Kind::Write, [1 + i, 0, 0, 5, 1].into())?;
        let after = if i == 0 { 0 } else { 1 + i };
        graph.place(2 + i, after)?;
    }
    for i in 0..238u32 {
        graph.record(Kind::Read, [1 + i % 4, 1, 0, 0, 1].into())?;
    }
    for i in 0..8u32 {
        let kind = writes.kind(i);
        let event = graph.record(kind, [writes.thread(i), 0, 5, 6, 1].into())?;
        if matches!(kind, Kind::Update) {
            graph.link(event.into(), 5)?;
        }
    }
    Ok(graph)
}

fn judged(graph: &Open) -> Result<Verdict, Denial> {
    graph.judge(&Board::Tso, &mut [0u16; 1280])
}

/// Tells the verdict, and the least time that it took.
fn measure(rt: &HostRuntime, name: &str, writes: Writes, rounds: u32) -> io::Result<()> {
    let Ok(graph) = build(writes) else {
        return println!(rt; "{name}: not built");
    };
    let least = timing::least(rt, rounds, |_| {
        let _ = judged(&graph);
    })?;
    // Without a round there is no time, and the largest number stands for it.
    let micros = if rounds == 0 {
        u128::MAX
    } else {
        least.as_micros()
    };
    eprintln!(rt; "{name}: {micros} us")?;
    match judged(&graph) {
        Ok(verdict) => println!(rt; "{name}: {verdict}"),
        Err(_) => println!(rt; "{name}: denied"),
    }
}

fn main(rt: HostRuntime) -> io::Result<()> {
    let rounds = timing::rounds(&rt)?;
    for (name, writes) in [
        ("eight that fit at once", Writes::Free),
        ("eight of one thread", Writes::OneThread),
        ("two updates first", Writes::TwoUpdates(0, 1)),
        ("two updates in the middle", Writes::TwoUpdates(3, 4)),
        ("two updates apart", Writes::TwoUpdates(1, 6)),
        ("two updates at the ends", Writes::TwoUpdates(0, 7)),
        ("two updates last", Writes::TwoUpdates(6, 7)),
    ] {
        measure(&rt, name, writes, rounds)?;
    }
    Ok(())
}
