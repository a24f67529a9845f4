//! The barrier layer: fences of mode 5 keep program order.
ghost use Rattle.std.specs.Prelude.{◌≡◌, ◌&&◌, ◌||◌};
ghost use Rattle.graph.specs.View.{view};
ghost use Rattle.event_set.specs.Sets.{has, HasJust};
ghost use Rattle.relation.specs.Table.{holds, Is};
ghost use Rattle.model.specs.Meaning.{Over};
ghost use Rattle.model.specs.Layers.{strong_fence, fenced, barrier, Piles};
ghost use Rattle.model.specs.Layered.{layer_rules, fenced_grows};

use crate::interface::Model as MemoryModel;
use crate::laying::{add_program_order, add_rows, events_where};
use event::{Label, Mode};
use event_set::EventSet;
use graph::Graph;
use relation::Relation;

/// A model with program order to and from fences of mode 5 in every order.
#[derive(Clone, Copy)]
pub struct Barrier<M> {
    below: M,
}

impl<M: MemoryModel> Barrier<M> {
    pub fn new(below: M) -> Barrier<M>
        ensures holds_the_model_below { result.below ≡ below }
        ensures stands_over_the_model_below { Over (barrier (M.Model.meaning result.below)) (M.Model.meaning below) }
        ensures piles_to_any_height { Piles }
    {
        Barrier { below }
    }
}

impl<M: MemoryModel> MemoryModel for Barrier<M> {
    ghost meaning = { λ m. barrier (M.Model.meaning m.below) };

    ghost rules = { λ m. layer_rules fenced _ fenced_grows (M.Model.rules m.below) };

    fn orders(&self) -> usize {
        self.below.orders()
    }

    fn lay(&self, graph: &Graph, order: usize, table: &mut Relation) {
        self.below.lay(graph, order, table);
        if order < self.orders() {
            add_fenced(graph, table);
        }
    }
}

/// Adds program order to and from fences of mode 5.
fn add_fenced(graph: &Graph, table: &mut Relation)
    ensures { Is table.new (λ a b. fenced (view graph.now) a b || holds table.old a b) }
{
    let mut order = Relation::empty();
    add_program_order(graph, &mut order);
    let fences = events_where(graph, is_strong_fence);
    add_rows(graph, |a| fenced_row(&order, &fences, a), table);
}

/// All that is after a fence, and the fences after any other event.
fn fenced_row(order: &Relation, fences: &EventSet, a: u8) -> EventSet
    ensures { HasJust result (λ b. holds order.now a b && (has fences.now a || has fences.now b)) }
{
    let mut row = order.row(a);
    if !fences.contains(a) {
        row.intersect_with(fences);
    }
    row
}

fn is_strong_fence(label: Label) -> bool
    ensures { result ≡ strong_fence label }
{
    matches!(label, Label::Fence { mode: Mode::SeqCst })
}
