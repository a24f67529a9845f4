//! RA: release and acquire.
ghost use Rattle.std.specs.Prelude.{◌&&◌, ◌||◌};
ghost use Rattle.execution.specs.Content.{same_location};
ghost use Rattle.graph.specs.View.{view};
ghost use Rattle.relation.specs.Table.{holds, Is};
ghost use Rattle.boards.specs.Ra.{ra, ra_hb};
ghost use Rattle.boards.specs.OfRa.{ra_rules};

use crate::synchronising::happens_before_by;
use graph::Graph;
use model::laying::{add_at_one_location, add_modification_order, add_reads_before};
use model::{Model as MemoryModel, Synchronising};
use relation::Relation;

/// Every read synchronises with its source.
#[derive(Clone, Copy)]
pub struct Ra;

impl MemoryModel for Ra {
    ghost meaning = { λ _. ra };

    ghost rules = { λ _. ra_rules };

    fn orders(&self) -> usize {
        1
    }

    fn lay(&self, graph: &Graph, order: usize, table: &mut Relation) {
        *table = Relation::empty();
        if order == 0 {
            add_happens_before_at_one_location(graph, table);
            add_modification_order(graph, table);
            add_reads_before(graph, table);
        }
    }
}

impl Synchronising for Ra {
    ghost hb = { λ _. ra_hb };

    fn lay_happens_before(&self, graph: &Graph, table: &mut Relation) {
        *table = happens_before(graph);
    }
}

/// Adds happens-before between accesses of one location, and of an access with itself.
fn add_happens_before_at_one_location(graph: &Graph, table: &mut Relation)
    ensures { Is table.new (λ a b. (ra_hb (view graph.now) a b && same_location (view graph.now) a b) || holds table.old a b) }
{
    add_at_one_location(graph, &happens_before(graph), table);
}

/// One or more steps of program order or reads-from.
fn happens_before(graph: &Graph) -> Relation
    ensures { Is result (ra_hb (view graph.now)) }
{
    happens_before_by(graph, |_, _| true)
}
