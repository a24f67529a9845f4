//! Program order.
ghost use Rattle.std.specs.Prelude.{◌||◌};
ghost use Rattle.execution.specs.Content.{po};
ghost use Rattle.graph.specs.View.{view};
ghost use Rattle.relation.specs.Table.{holds, Is};
ghost use Rattle.model.specs.Orders.{thread_order, initial_order};

use event_set::EventSet;
use graph::Graph;
use relation::Relation;

/// Adds program order: each thread's events by number, and the initial writes before all others.
pub fn add_program_order(graph: &Graph, table: &mut Relation)
    ensures adds_exactly_program_order { Is table.new (λ a b. po (view graph.now) a b || holds table.old a b) }
{
    add_thread_order(graph, table);
    add_initial_order(graph, table);
}

/// Adds the initial writes before all recorded events.
fn add_initial_order(graph: &Graph, table: &mut Relation)
    ensures { Is table.new (λ a b. initial_order (view graph.now) a b || holds table.old a b) }
{
    let locations = graph.locations();
    let mut others = EventSet::below(graph.events().len());
    others.difference_with(&EventSet::below(locations as usize));
    // A location's initial write has the location's number.
    for write in 0..locations {
        table.join_row(write, &others);
    }
}

/// Adds each thread's events by number: from the last event back, each before the later ones of its thread.
pub(crate) fn add_thread_order(graph: &Graph, table: &mut Relation)
    ensures adds_each_thread_by_number { Is table.new (λ a b. thread_order (view graph.now) a b || holds table.old a b) }
{
    let mut later = Relation::empty();
    for (a, event) in graph.events().iter().enumerate().rev() {
        table.join_row(a as u8, &later.row(event.thread));
        later.insert(event.thread, a as u8);
    }
}
