//! Orders with a cycle.
//! Graph and model are two parameters here too: a search asks about a new graph at every step.
ghost use Rattle.std.specs.Prelude.{MatchBool};
ghost use Rattle.cycles.specs.Cycles.{Acyclic, Cyclic};
ghost use Rattle.graph.specs.View.{view};
ghost use Rattle.relation.specs.Table.{Is};
ghost use Rattle.search.specs.Orders.{LowestCyclic};

use graph::Graph;
use model::Model;
use relation::Relation;

/// The lowest order that has a cycle as the placements stand.
pub fn lowest_cyclic<M: Model>(graph: &Graph, model: &M) -> Option<usize>
    ensures the_lowest_or_none_exactly_when_no_order_has_a_cycle { LowestCyclic (M.Model.meaning model.now) (view graph.now) result }
{
    (0..model.orders()).find(|order| has_cycle(graph, model, *order))
}

/// Whether an order has a cycle.
fn has_cycle<M: Model>(graph: &Graph, model: &M, order: usize) -> bool
    ensures { MatchBool result (Cyclic ((M.Model.meaning model.now).pairs (view graph.now) order)) (Acyclic ((M.Model.meaning model.now).pairs (view graph.now) order)) }
{
    !table_of(graph, model, order).is_acyclic()
}

/// The table of an order's pairs.
pub fn table_of<M: Model>(graph: &Graph, model: &M, order: usize) -> Relation
    ensures has_exactly_the_pairs { Is result ((M.Model.meaning model.now).pairs (view graph.now) order) }
{
    let mut table = Relation::empty();
    model.lay(graph, order, &mut table);
    table
}
