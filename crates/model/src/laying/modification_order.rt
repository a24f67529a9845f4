//! Modification order.
ghost use Rattle.std.specs.Prelude.{◌||◌};
ghost use Rattle.execution.specs.Content.{mo};
ghost use Rattle.graph.specs.View.{view};
ghost use Rattle.relation.specs.Table.{holds, Is};

use crate::laying::locations::location_of;
use graph::Graph;
use relation::Relation;

/// Adds modification order: from the last placed write back, each before the later ones of its location.
pub fn add_modification_order(graph: &Graph, table: &mut Relation)
    ensures adds_exactly_modification_order { Is table.new (λ a b. mo (view graph.now) a b || holds table.old a b) }
{
    let mut later = Relation::empty();
    for &write in graph.placed().iter().rev() {
        if let Some(location) = location_of(graph, write) {
            table.join_row(write, &later.row(location));
            later.insert(location, write);
        }
    }
}
