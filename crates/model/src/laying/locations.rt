//! Accesses by their locations.
ghost use Rattle.std.specs.Prelude.{◌≡◌, ◌&&◌, ◌||◌, Some};
ghost use Rattle.event.specs.Labels.{agree, location};
ghost use Rattle.execution.specs.Content.{label_of, same_location};
ghost use Rattle.graph.specs.View.{view};
ghost use Rattle.relation.specs.Table.{holds, Is};

use graph::Graph;
use relation::Relation;

/// The location that an event accesses, if it stands and is no fence.
pub fn location_of(graph: &Graph, event: u8) -> Option<u8>
    ensures of_every_access { result ≡ location (label_of (view graph.now) event) }
{
    graph
        .label(u32::from(event))
        .and_then(|label| label.location())
}

/// Adds the pairs of `order` that join accesses of one location.
pub fn add_at_one_location(graph: &Graph, order: &Relation, table: &mut Relation)
    ensures adds_exactly_those_of_one_location { Is table.new (λ a b. (holds order.now a b && same_location (view graph.now) a b) || holds table.old a b) }
{
    let accesses = accesses_by_location(graph);
    for (a, event) in graph.events().iter().enumerate() {
        if let Some(location) = event.label.location() {
            let mut row = order.row(a as u8);
            row.intersect_with(&accesses.row(location));
            table.join_row(a as u8, &row);
        }
    }
}

/// Each location with the events that access it.
fn accesses_by_location(graph: &Graph) -> Relation
    ensures { Is result (λ l b. agree (location (label_of (view graph.now) b)) (Some l)) }
{
    let mut accesses = Relation::empty();
    for (a, event) in graph.events().iter().enumerate() {
        if let Some(location) = event.label.location() {
            accesses.insert(location, a as u8);
        }
    }
    accesses
}
