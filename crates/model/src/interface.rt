//! What a memory model is.
ghost use Rattle.std.specs.Prelude.{◌≡◌, ℕ, Bool};
ghost use Rattle.execution.specs.Content.{Content};
ghost use Rattle.graph.specs.View.{view};
ghost use Rattle.relation.specs.Table.{Is};
ghost use Rattle.model.specs.Meaning.{Meaning, Rules};

use graph::Graph;
use relation::Relation;

/// A memory model: one to four orders, each a set of pairs of events for every graph.
/// An execution is allowed where some full modification order leaves every order free of cycles.
pub trait Model {
    /// What the model means.
    ghost meaning: { Self → Meaning };

    /// How many orders there are.
    fn orders(&self) -> usize
        ensures as_many_as_it_means { result ≡ (meaning self.now).orders };

    /// Leaves in `table` the pairs of that order, whatever it held. An order beyond the last is empty.
    /// The table is the caller's, so that a layer adds to what the model below has laid there.
    fn lay(&self, graph: &Graph, order: usize, table: &mut Relation)
        ensures lays_exactly_the_pairs { Is table.new ((meaning self.now).pairs (view graph.now) order) };

    ghost rules: { (m : Self) → Rules (meaning m) };
}

/// A model that also tells which events happen before which.
pub trait Synchronising: Model {
    /// Happens-before.
    ghost hb: { Self → Content → ℕ → ℕ → Bool };

    /// Leaves happens-before in `table`, whatever it held.
    fn lay_happens_before(&self, graph: &Graph, table: &mut Relation)
        ensures lays_exactly_the_pairs { Is table.new (hb self.now (view graph.now)) };
}
