//! The graph that takes entries.

ghost use Rattle.std.specs.Prelude.{◌≡◌, length, IfOk};
ghost use Rattle.execution.specs.Content.{opening};
ghost use Rattle.execution.specs.Entries.{denial, step, record_event, link, place, StepsKeepAndGrow};
ghost use Rattle.event.specs.Denials.{refusal};
ghost use Rattle.graph.specs.View.{of_open, of_closed};

use crate::closed::Closed;
use crate::tables::Graph;
use event::{Arguments, Denial, Kind, Size};

/// A graph that takes entries.
#[derive(Drop)]
pub struct Open {
    graph: Graph,
}

impl Open {
    pub fn new(size: Size) -> Open
        ensures initial_writes_placed_and_no_link { of_open result ≡ opening size.threads size.locations }
        ensures every_entry_keeps_a_graph_sound_and_only_adds { StepsKeepAndGrow }
    {
        Open {
            graph: Graph::new(size),
        }
    }

    /// Appends an event, and answers its number.
    pub fn record(&mut self, kind: Kind, arguments: Arguments) -> Result<u8, Denial>
        ensures denied_exactly_in_its_cases { refusal result ≡ denial (of_open self.old) (record_event kind arguments) }
        ensures one_step { of_open self.new ≡ step (of_open self.old) (record_event kind arguments) }
        ensures answers_the_next_number { IfOk result (λ n. n ≡ length (of_open self.old).events) }
    {
        self.graph.record(kind, arguments)
    }

    /// Gives a read its source.
    pub fn link(&mut self, read: u32, source: u32) -> Result<(), Denial>
        ensures denied_exactly_in_its_cases { refusal result ≡ denial (of_open self.old) (link read source) }
        ensures one_step { of_open self.new ≡ step (of_open self.old) (link read source) }
    {
        self.graph.link(read, source)
    }

    /// Puts a write directly after a placed one, in its location's modification order.
    pub fn place(&mut self, write: u32, after: u32) -> Result<(), Denial>
        ensures denied_exactly_in_its_cases { refusal result ≡ denial (of_open self.old) (place write after) }
        ensures one_step { of_open self.new ≡ step (of_open self.old) (place write after) }
    {
        self.graph.place(write, after)
    }

    pub fn close(self) -> Closed
        ensures keeps_everything { of_closed result ≡ of_open self }
    {
        let Open { graph } = self;
        Closed::of(graph)
    }

    pub fn graph(&self) -> &Graph
        ensures its_graph { result.now ≡ self.now.graph }
    {
        &self.graph
    }
}
