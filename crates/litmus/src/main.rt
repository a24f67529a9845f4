//! Judges litmus tests by every model, bare and under each layer, and prints the verdicts as one table.
//! The arguments are the names of the recordings; the strong set, the barrier and the model of a recording do not count.
#![tactic(auto)]

use anyhow::anyhow;
use boards::Board;
use graph::Closed;
use judge::Judge;
use piles::Pile;
use std::{env, fs, io};
use verdict::Verdict;

/// The set of all threads.
const ALL: u16 = u16::MAX;

/// The columns of the table: a name, a model, whether the barrier layer is over it, and the threads of the strong layer.
// Tuples, since fourteen piles written out would be no plainer.
const COLUMNS: [(&str, Board, bool, u16); 14] = [
    ("COH", Board::Coh, false, 0),
    ("C11", Board::C11, false, 0),
    ("RA", Board::Ra, false, 0),
    ("TSO", Board::Tso, false, 0),
    ("SC", Board::Sc, false, 0),
    ("COH+b", Board::Coh, true, 0),
    ("C11+b", Board::C11, true, 0),
    ("RA+b", Board::Ra, true, 0),
    ("TSO+b", Board::Tso, true, 0),
    ("SC+b", Board::Sc, true, 0),
    ("COH+s", Board::Coh, false, ALL),
    ("C11+s", Board::C11, false, ALL),
    ("RA+s", Board::Ra, false, ALL),
    ("TSO+s", Board::Tso, false, ALL),
];

fn main(rt: HostRuntime) -> anyhow::Result<()> {
    run(&rt)
}

fn run(rt: &HostRuntime) -> anyhow::Result<()> {
    print!(rt; "{:28}", "")?;
    for (name, _, _, _) in COLUMNS {
        print!(rt; "{name:>6}")?;
    }
    println!(rt; "")?;
    for file in env::args(rt)?.skip(1) {
        row(rt, file.as_str())?;
    }
    Ok(())
}

/// The row of one test: its name and a cell for each column.
fn row(rt: &HostRuntime, file: &str) -> anyhow::Result<()> {
    let bytes = fs::read(rt, file)?;
    let Ok(recording) = recording::read(bytes.as_slice()) else {
        return Err(anyhow!(format!(in rt.alloc(); "{file} is no recording")?));
    };
    let name = file.strip_suffix(".txt").unwrap_or(file);
    print!(rt; "{name:<28}")?;
    for (_, board, barrier, strong) in COLUMNS {
        cell(rt, &recording.graph, &Pile::new(board, barrier, strong))?;
    }
    println!(rt; "")?;
    Ok(())
}

/// One letter for the verdict by a pile, in its column.
fn cell(rt: &HostRuntime, graph: &Closed, pile: &Pile) -> io::Result<()> {
    let mut sheet = [0u16; 1280];
    let letter = match graph.judge(pile, &mut sheet) {
        Ok(Verdict::Allowed) => "A",
        Ok(Verdict::Cycle { .. }) => "X",
        Ok(Verdict::NoPlacement) => "N",
        Err(_) => "D",
    };
    print!(rt; "{letter:>6}")
}
