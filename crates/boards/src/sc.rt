//! SC: sequential consistency.
ghost use Rattle.boards.specs.Sc.{sc};
ghost use Rattle.boards.specs.OfSc.{sc_rules};

use graph::Graph;
use model::Model as MemoryModel;
use model::laying::{add_modification_order, add_program_order, add_reads_before, add_reads_from};
use relation::Relation;

/// All events in one order.
#[derive(Clone, Copy)]
pub struct Sc;

impl MemoryModel for Sc {
    ghost meaning = { λ _. sc };

    ghost rules = { λ _. sc_rules };

    fn orders(&self) -> usize {
        1
    }

    fn lay(&self, graph: &Graph, order: usize, table: &mut Relation) {
        *table = Relation::empty();
        if order == 0 {
            add_program_order(graph, table);
            add_reads_from(graph, table);
            add_modification_order(graph, table);
            add_reads_before(graph, table);
        }
    }
}
