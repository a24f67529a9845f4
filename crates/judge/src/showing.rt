//! What a verdict is shown with: events, one behind the other.
ghost use Rattle.std.specs.Prelude.{◌≡◌, ◌≤◌, length};
ghost use Rattle.graph.specs.View.{view};
ghost use Rattle.sequence.specs.Sequences.{items};
ghost use Rattle.verdict.specs.Shown.{modification_order, modification_orders};
ghost use Rattle.verdict.specs.Answers.{joined, laid};
ghost use Rattle.judge.specs.Sheets.{Added, at_location};

use graph::Graph;
use model::laying::locations::location_of;
use sequence::{Full, Sequence};

/// How many events are shown at most: four lists of 256, and 256 writes.
pub(crate) const ROOM: usize = 1280;

/// Events to show.
pub(crate) type Shown = Sequence<u8, ROOM>;

/// Writes events from the start of the sheet on.
pub(crate) fn write(events: &[u8], sheet: &mut [u16])
    requires { length events.now ≤ length sheet.old }
    ensures { sheet.new ≡ laid events.now sheet.old }
{
    // By index: after `zip` over `iter_mut` nothing is known of the sheet.
    for (i, event) in events.iter().enumerate() {
        sheet[i] = u16::from(*event);
    }
}

/// Adds events, where there is room for them.
pub(crate) fn add(events: &[u8], shown: &mut Shown) -> Result<(), Full>
    ensures { Added events.now (items shown.old) result (items shown.new) }
{
    for event in events {
        shown.push(*event)?;
    }
    Ok(())
}

/// Adds each location's modification order, location by location. Locations are numbers, and no list has them.
pub(crate) fn add_modification_orders(graph: &Graph, shown: &mut Shown) -> Result<(), Full>
    ensures { Added (joined (modification_orders (view graph.now))) (items shown.old) result (items shown.new) }
{
    for location in 0..graph.locations() {
        add_modification_order(graph, location, shown)?;
    }
    Ok(())
}

/// Adds a location's modification order.
fn add_modification_order(graph: &Graph, location: u8, shown: &mut Shown) -> Result<(), Full>
    ensures { Added (modification_order (view graph.now) location) (items shown.old) result (items shown.new) }
{
    for write in graph.placed() {
        if accesses(graph, *write, location) {
            shown.push(*write)?;
        }
    }
    Ok(())
}

/// Whether an event accesses a location.
fn accesses(graph: &Graph, event: u8, location: u8) -> bool
    ensures { result ≡ at_location (view graph.now) location event }
{
    location_of(graph, event) == Some(location)
}
