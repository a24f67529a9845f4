//! Happens-before of the models in which some reads synchronise with their sources.
ghost use Rattle.std.specs.Prelude.{ℕ, Bool};
ghost use Rattle.execution.specs.Content.{po, rf};
ghost use Rattle.graph.specs.View.{view};
ghost use Rattle.relation.specs.Table.{Is};
ghost use Rattle.model.specs.Telling.{TellsPairs};
ghost use Rattle.boards.specs.Relations.{◌∪◌, steps};

use graph::Graph;
use model::laying::{add_program_order, add_reads_from_where};
use relation::Relation;

/// One or more steps of program order or of the pairs of reads-from, a source and its read, that synchronise.
pub(crate) fn happens_before_by<F: Fn(u8, u8) -> bool>(graph: &Graph, synchronizes: F) -> Relation
    requires { F.IsAlwaysCallable synchronizes }
    ensures one_or_more_steps { (r : ℕ → ℕ → Bool) → TellsPairs (F.post synchronizes) (rf (view graph.now)) r → Is result (steps (view graph.now) (po (view graph.now) ∪ r)) }
{
    let mut hb = Relation::empty();
    add_program_order(graph, &mut hb);
    add_reads_from_where(graph, synchronizes, &mut hb);
    hb.close();
    hb
}
