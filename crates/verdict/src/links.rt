//! Reads without a source.
ghost use Rattle.std.specs.Prelude.{◌≡◌, length};
ghost use Rattle.graph.specs.View.{view};
ghost use Rattle.verdict.specs.Numbers.{lowest};
ghost use Rattle.verdict.specs.Denials.{unlinked};

use graph::Graph;

/// The lowest read without a source, for which a closed graph is denied.
pub fn lowest_unlinked_read(graph: &Graph) -> Option<u8>
    ensures the_lowest_read_without_a_source { result ≡ lowest (length (view graph.now).events) (unlinked (view graph.now)) }
{
    graph
        .events()
        .iter()
        .zip(graph.sources())
        .position(|(event, source)| event.label.reads() && source.is_none())
        .map(|read| read as u8)
}
