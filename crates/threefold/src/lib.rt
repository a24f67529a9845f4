//! A model from outside, to show that the interface is open: three orders, with and without layers over it.
#![tactic(auto)]

pub mod happens_before;
#[cfg(test)]
mod tests;

ghost use Rattle.std.specs.Prelude.{◌||◌};
ghost use Rattle.graph.specs.View.{view};
ghost use Rattle.relation.specs.Table.{holds, Is};
ghost use Rattle.threefold.specs.Threefold.{coherence, threefold};
ghost use Rattle.threefold.specs.Kept.{threefold_rules};

use graph::Graph;
use model::Model as MemoryModel;
use model::laying::{
    add_at_one_location, add_modification_order, add_program_order, add_reads_before,
    add_reads_from,
};
use relation::Relation;

/// Coherence, no cycle of program order and reads-from, and none of program order and modification order.
#[derive(Clone, Copy)]
pub struct Threefold;

impl MemoryModel for Threefold {
    ghost meaning = { λ _. threefold };

    ghost rules = { λ _. threefold_rules };

    fn orders(&self) -> usize {
        3
    }

    fn lay(&self, graph: &Graph, order: usize, table: &mut Relation) {
        *table = Relation::empty();
        // In the interface of a model an order is a number, so it is told apart by a match.
        match order {
            0 => add_coherence(graph, table),
            1 => {
                add_program_order(graph, table);
                add_reads_from(graph, table);
            }
            2 => {
                add_program_order(graph, table);
                add_modification_order(graph, table);
            }
            _ => {}
        }
    }
}

/// Adds program order between accesses of one location, and rf, mo and rb.
// As COH has it, written again: a model from outside stands on the interface, and on no board.
fn add_coherence(graph: &Graph, table: &mut Relation)
    ensures { Is table.new (λ a b. coherence (view graph.now) a b || holds table.old a b) }
{
    let mut order = Relation::empty();
    add_program_order(graph, &mut order);
    add_at_one_location(graph, &order, table);
    add_reads_from(graph, table);
    add_modification_order(graph, table);
    add_reads_before(graph, table);
}
