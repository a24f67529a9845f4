//! A table filled row by row.
ghost use Rattle.std.specs.Prelude.{ℕ, Bool, ◌||◌};
ghost use Rattle.graph.specs.View.{view};
ghost use Rattle.relation.specs.Table.{holds, Is};
ghost use Rattle.model.specs.Telling.{TellsRows};

use event_set::EventSet;
use graph::Graph;
use relation::Relation;

/// Pairs each event with those of its row too.
pub fn add_rows<F: Fn(u8) -> EventSet>(graph: &Graph, row: F, table: &mut Relation)
    requires { F.IsAlwaysCallable row }
    ensures adds_exactly_the_rows { (r : ℕ → ℕ → Bool) → TellsRows (F.post row) (view graph.now) r → Is table.new (λ a b. r a b || holds table.old a b) }
{
    // Counted in `usize`, since the bound may be 256, which is no byte.
    for a in 0..graph.events().len() {
        table.join_row(a as u8, &row(a as u8));
    }
}
