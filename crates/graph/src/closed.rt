//! The graph that takes no more entries.

ghost use Rattle.std.specs.Prelude.{◌≡◌};

use crate::tables::Graph;

/// A graph that takes no more entries.
#[derive(Drop)]
pub struct Closed {
    graph: Graph,
}

impl Closed {
    // No `From`: it would be public, and would close tables that no open graph holds.
    pub(crate) fn of(graph: Graph) -> Closed
        ensures { result.graph ≡ graph }
    {
        Closed { graph }
    }

    pub fn graph(&self) -> &Graph
        ensures its_graph { result.now ≡ self.now.graph }
    {
        &self.graph
    }
}
