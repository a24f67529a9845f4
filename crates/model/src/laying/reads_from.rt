//! Reads-from.
ghost use Rattle.std.specs.Prelude.{ℕ, Bool, ◌||◌};
ghost use Rattle.execution.specs.Content.{rf};
ghost use Rattle.graph.specs.View.{view};
ghost use Rattle.relation.specs.Table.{holds, Is};
ghost use Rattle.model.specs.Telling.{TellsPairs};

use graph::Graph;
use relation::Relation;

/// Adds reads-from: each source with its read.
pub fn add_reads_from(graph: &Graph, table: &mut Relation)
    ensures adds_exactly_reads_from { Is table.new (λ a b. rf (view graph.now) a b || holds table.old a b) }
{
    add_reads_from_where(graph, |_, _| true, table);
}

/// Adds the pairs of reads-from, a source and its read, that pass a test.
pub fn add_reads_from_where<F: Fn(u8, u8) -> bool>(graph: &Graph, passes: F, table: &mut Relation)
    requires { F.IsAlwaysCallable passes }
    ensures adds_exactly_those_that_pass { (r : ℕ → ℕ → Bool) → TellsPairs (F.post passes) (rf (view graph.now)) r → Is table.new (λ a b. r a b || holds table.old a b) }
{
    for (read, source) in graph.sources().iter().enumerate() {
        if let Some(source) = *source {
            if passes(source, read as u8) {
                table.insert(source, read as u8);
            }
        }
    }
}
