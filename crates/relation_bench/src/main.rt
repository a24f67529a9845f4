//! Times closing, the test for cycles, listing and the cycle search on relations of up to 256 events.
//! Standard output has what the calls answer, standard error how long they take. The argument is the number of rounds.
#![tactic(auto)]

mod shapes;

use relation::Relation;
use shapes::Shape;
use std::io;

/// How many pairs there are.
fn pairs(table: &Relation) -> usize {
    (0..=u8::MAX).fold(0usize, |pairs, a| {
        table.row(a).fold(pairs, |pairs, _| pairs.saturating_add(1))
    })
}

/// How many of the first `n` events are listed.
fn listed(table: &Relation, n: usize) -> usize {
    table.list(n).map_or(0, |events| events.len())
}

/// How many events the first cycle has.
fn on_cycle(table: &Relation) -> usize {
    table.first_cycle().map_or(0, |events| events.len())
}

/// Tells the least time of a task, building included, over relations of 256 and 255 events in turn.
/// The task answers a number that depends on all of its work.
fn measure<T: Fn(&mut Relation, usize) -> usize>(
    rt: &HostRuntime,
    rounds: u32,
    shape: Shape,
    name: &str,
    task: T,
) -> io::Result<()>
    requires { (f : T) (table : _) (n : _) → T.pre f table n }
{
    let mut sum = 0usize;
    let least = timing::least(rt, rounds, |round| {
        let n = 256 - round as usize % 2;
        sum = sum.wrapping_add(task(&mut shape.over(n), n));
    })?;
    // Without a round there is no time, and the largest number stands for it.
    let nanos = if rounds == 0 {
        u128::MAX
    } else {
        least.as_nanos()
    };
    eprintln!(rt; "{shape} {name}: {nanos} ns (sum {sum})")
}

/// What the calls answer on a relation of 256 events.
fn answers(rt: &HostRuntime, shape: Shape) -> io::Result<()> {
    let table = shape.over(256);
    let mut closed = table;
    closed.close();
    let before = pairs(&table);
    let after = pairs(&closed);
    let acyclic = table.is_acyclic();
    let listed = listed(&table, 256);
    let cycle = on_cycle(&table);
    println!(rt;
        "{shape}: {before} pairs, {after} closed, acyclic {acyclic}, {listed} listed, cycle of {cycle}"
    )
}

fn main(rt: HostRuntime) -> io::Result<()> {
    let rounds = timing::rounds(&rt)?;
    for shape in Shape::ALL {
        answers(&rt, shape)?;
        measure(&rt, rounds, shape, "build", |table, _| {
            usize::from(table.contains(1, 0))
        })?;
        measure(&rt, rounds, shape, "close", |table, _| {
            table.close();
            usize::from(table.contains(255, 0)) + usize::from(table.contains(0, 255))
        })?;
        measure(&rt, rounds, shape, "is_acyclic", |table, _| {
            usize::from(table.is_acyclic())
        })?;
        measure(&rt, rounds, shape, "list", |table, n| listed(table, n))?;
        measure(&rt, rounds, shape, "first_cycle", |table, _| {
            on_cycle(table)
        })?;
    }
    Ok(())
}
