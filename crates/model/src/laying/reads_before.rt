//! Reads-before.
ghost use Rattle.std.specs.Prelude.{◌||◌};
ghost use Rattle.execution.specs.Content.{rb};
ghost use Rattle.graph.specs.View.{view};
ghost use Rattle.relation.specs.Table.{holds, Is};

use crate::laying::modification_order::add_modification_order;
use graph::Graph;
use relation::Relation;

/// Adds reads-before: each linked read before what overwrites its source, but for itself.
pub fn add_reads_before(graph: &Graph, table: &mut Relation)
    ensures adds_exactly_reads_before { Is table.new (λ a b. rb (view graph.now) a b || holds table.old a b) }
{
    let mut order = Relation::empty();
    add_modification_order(graph, &mut order);
    for (read, source) in graph.sources().iter().enumerate() {
        if let Some(source) = *source {
            let mut overwriting = order.row(source);
            overwriting.remove(read as u8);
            table.join_row(read as u8, &overwriting);
        }
    }
}
