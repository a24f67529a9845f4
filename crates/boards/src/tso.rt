//! TSO: total store order.
ghost use Rattle.std.specs.Prelude.{◌≡◌, not, ◌&&◌, ◌||◌, ◌==◌};
ghost use Rattle.execution.specs.Content.{thread_of};
ghost use Rattle.graph.specs.View.{view};
ghost use Rattle.event_set.specs.Sets.{has, HasJust};
ghost use Rattle.relation.specs.Table.{holds, Is};
ghost use Rattle.boards.specs.Tso.{tso, ppo, rfe, plain_write, plain_read};
ghost use Rattle.boards.specs.OfTso.{tso_rules};

use crate::coh::Coh;
use event::Label;
use event_set::EventSet;
use graph::Graph;
use model::Model as MemoryModel;
use model::laying::{
    add_modification_order, add_program_order, add_reads_before, add_reads_from_where, add_rows,
    events_where,
};
use relation::Relation;

/// A write may be delayed past later reads of its thread.
#[derive(Clone, Copy)]
pub struct Tso;

impl MemoryModel for Tso {
    ghost meaning = { λ _. tso };

    ghost rules = { λ _. tso_rules };

    fn orders(&self) -> usize {
        2
    }

    fn lay(&self, graph: &Graph, order: usize, table: &mut Relation) {
        Coh.lay(graph, order, table);
        if order == 1 {
            add_preserved_program_order(graph, table);
            add_external_reads_from(graph, table);
            add_modification_order(graph, table);
            add_reads_before(graph, table);
        }
    }
}

/// Adds program order but for the pairs from a plain write to a plain read.
fn add_preserved_program_order(graph: &Graph, table: &mut Relation)
    ensures { Is table.new (λ a b. ppo (view graph.now) a b || holds table.old a b) }
{
    let mut po = Relation::empty();
    add_program_order(graph, &mut po);
    let writes = events_where(graph, is_plain_write);
    let reads = events_where(graph, is_plain_read);
    add_rows(graph, |a| preserved_row(&po, &writes, &reads, a), table);
}

/// All that is after an event, but after a plain write no plain read.
// Not shared with `fenced_row` of the barrier layer: that one keeps what is in a set, this one takes it away.
fn preserved_row(po: &Relation, writes: &EventSet, reads: &EventSet, a: u8) -> EventSet
    ensures { HasJust result (λ b. holds po.now a b && not (has writes.now a && has reads.now b)) }
{
    let mut row = po.row(a);
    if writes.contains(a) {
        row.difference_with(reads);
    }
    row
}

/// Adds the pairs of reads-from between different threads.
fn add_external_reads_from(graph: &Graph, table: &mut Relation)
    ensures { Is table.new (λ a b. rfe (view graph.now) a b || holds table.old a b) }
{
    add_reads_from_where(
        graph,
        |source, read| different_threads(graph, source, read),
        table,
    );
}

fn different_threads(graph: &Graph, a: u8, b: u8) -> bool
    ensures { result ≡ not (thread_of (view graph.now) a == thread_of (view graph.now) b) }
{
    thread_of(graph, a) != thread_of(graph, b)
}

/// The thread of an event. Past the last one it is 0, the thread of no recorded event.
fn thread_of(graph: &Graph, event: u8) -> u8
    ensures { result ≡ thread_of (view graph.now) event }
{
    graph
        .events()
        .get(usize::from(event))
        .map_or(0, |event| event.thread)
}

fn is_plain_write(label: Label) -> bool
    ensures { result ≡ plain_write label }
{
    label.writes() && !label.reads()
}

fn is_plain_read(label: Label) -> bool
    ensures { result ≡ plain_read label }
{
    label.reads() && !label.writes()
}
