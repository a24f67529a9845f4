//! A graph under a model: what the verdict shows of its orders.
ghost use Rattle.std.specs.Prelude.{MatchOption};
ghost use Rattle.graph.specs.View.{view};
ghost use Rattle.sequence.specs.Sequences.{items};
ghost use Rattle.relation.specs.Sequences.{events};
ghost use Rattle.cycles.specs.Cycles.{Acyclic, FirstCycle};
ghost use Rattle.model.specs.Meaning.{Serves};
ghost use Rattle.verdict.specs.Completions.{Allowed};
ghost use Rattle.judge.specs.Judges.{AllowedShown, FirstFound, ListsShown, OrderShown};

use crate::showing::{Shown, add, add_modification_orders};
use graph::Graph;
use model::Model;
use search::{search, table_of};

/// A graph under a model.
#[derive_where(Clone, Copy)]
pub(crate) struct Under<'a, M> {
    pub(crate) graph: &'a Graph,
    pub(crate) model: &'a M,
}

impl<M: Model> Under<'_, M> {
    /// The lowest order that has a cycle, with its first cycle.
    pub(crate) fn first_cycle(&self) -> Option<(usize, relation::Sequence)>
        ensures { FirstFound (M.Model.meaning self.now.model.now) (view self.now.graph.now) result }
    {
        (0..self.model.orders()).find_map(|order| Some((order, self.cycle(order)?)))
    }

    /// The first cycle of an order.
    fn cycle(&self, order: usize) -> Option<relation::Sequence>
        ensures { MatchOption result (Acyclic ((M.Model.meaning self.now.model.now).pairs (view self.now.graph.now) order)) (λ c. FirstCycle ((M.Model.meaning self.now.model.now).pairs (view self.now.graph.now) order) (events c)) }
    {
        table_of(self.graph, self.model, order).first_cycle()
    }

    /// What an allowed graph is shown with, of its first full modification order; none where the graph is not allowed.
    pub(crate) fn allowed(&self) -> Option<Shown>
        ensures { MatchOption result (Allowed (M.Model.meaning self.now.model.now) (view self.now.graph.now) → ⊥) (λ s. AllowedShown (M.Model.meaning self.now.model.now) (view self.now.graph.now) (items s)) }
    {
        let full = search(self.graph, self.model)?;
        Under {
            graph: &full,
            model: self.model,
        }
        .shown()
    }

    /// The list of all events for each order, order by order, and then each location's modification order;
    /// none where an order has a cycle.
    fn shown(&self) -> Option<Shown>
        ensures { MatchOption result (Serves (M.Model.meaning self.now.model.now) (view self.now.graph.now) → ⊥) (λ s. OrderShown (M.Model.meaning self.now.model.now) (view self.now.graph.now) (items s)) }
    {
        let mut shown = self.lists()?;
        add_modification_orders(self.graph, &mut shown).ok()?;
        Some(shown)
    }

    /// The lists alone.
    fn lists(&self) -> Option<Shown>
        ensures { MatchOption result (Serves (M.Model.meaning self.now.model.now) (view self.now.graph.now) → ⊥) (λ s. ListsShown (M.Model.meaning self.now.model.now) (view self.now.graph.now) (M.Model.meaning self.now.model.now).orders (items s)) }
    {
        let mut shown = Shown::empty(0);
        for order in 0..self.model.orders() {
            let list = table_of(self.graph, self.model, order).list(self.graph.events().len())?;
            add(list.as_slice(), &mut shown).ok()?;
        }
        Some(shown)
    }
}
