//! A graph as it is opened.

ghost use Rattle.std.specs.Prelude.{◌≡◌};
ghost use Rattle.execution.specs.Content.{opening};
ghost use Rattle.event.specs.Labels.{initial_write};
ghost use Rattle.graph.specs.View.{view};

use crate::tables::Graph;
use event::{Event, Label, Mode, Size};
use sequence::Sequence;

/// The write of 0 that a location begins with.
fn initial_write(location: u8) -> Event
    ensures { result ≡ initial_write location }
{
    Event {
        thread: 0,
        label: Label::Write {
            location,
            value: 0,
            mode: Mode::NonAtomic,
        },
    }
}

impl Graph {
    pub(crate) fn new(size: Size) -> Graph
        ensures opens { view result ≡ opening size.threads size.locations }
    {
        let mut events = Sequence::empty(initial_write(0));
        let mut sources = Sequence::empty(None);
        let mut placed = Sequence::empty(0);
        for location in 0..size.locations() {
            events.push(initial_write(location)).unwrap();
            sources.push(None).unwrap();
            placed.push(location).unwrap();
        }
        Graph {
            threads: size.threads(),
            locations: size.locations(),
            events,
            sources,
            placed,
        }
    }
}
