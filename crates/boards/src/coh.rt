//! COH: coherence.
// Each model's file lists the parts of its order whole, as the rules do, though other models have some of them.
ghost use Rattle.boards.specs.Coh.{coh};
ghost use Rattle.boards.specs.OfCoh.{coh_rules};

use graph::Graph;
use model::Model as MemoryModel;
use model::laying::{
    add_at_one_location, add_modification_order, add_program_order, add_reads_before,
    add_reads_from,
};
use relation::Relation;

/// Each location by itself is sequentially consistent.
#[derive(Clone, Copy)]
pub struct Coh;

impl MemoryModel for Coh {
    ghost meaning = { λ _. coh };

    ghost rules = { λ _. coh_rules };

    fn orders(&self) -> usize {
        1
    }

    fn lay(&self, graph: &Graph, order: usize, table: &mut Relation) {
        *table = Relation::empty();
        if order == 0 {
            let mut po = Relation::empty();
            add_program_order(graph, &mut po);
            add_at_one_location(graph, &po, table);
            add_reads_from(graph, table);
            add_modification_order(graph, table);
            add_reads_before(graph, table);
        }
    }
}
