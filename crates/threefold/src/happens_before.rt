//! What happens before what, in a model without synchronisation.
ghost use Rattle.execution.specs.Content.{po};

use crate::Threefold;
use graph::Graph;
use model::Synchronising;
use model::laying::add_program_order;
use relation::Relation;

/// Program order alone.
impl Synchronising for Threefold {
    ghost hb = { λ _ g. po g };

    fn lay_happens_before(&self, graph: &Graph, table: &mut Relation) {
        *table = Relation::empty();
        add_program_order(graph, table);
    }
}
