//! When a judge is denied.
ghost use Rattle.std.specs.Prelude.{◌≡◌, ◌&&◌, length, Some, nat_lt};
ghost use Rattle.event.specs.Labels.{is_write, agree, location as its_location};
ghost use Rattle.execution.specs.Content.{is_open, label_of};
ghost use Rattle.event.specs.Denials.{refusal};
ghost use Rattle.graph.specs.View.{view};
ghost use Rattle.verdict.specs.Numbers.{count};
ghost use Rattle.verdict.specs.Denials.{unread, wide_at, too_wide, judge_denial};
ghost use Rattle.verdict.specs.States.{as_open};
ghost use Rattle.judge.specs.Widths.{recorded_writes, crowded};

use crate::showing::ROOM;
use event::{Denial, Label};
use graph::Graph;
use model::laying::locations::location_of;
use verdict::lowest_unlinked_read;

/// The first reason why a judge on a sheet of so many numbers is denied, whether the graph is open or closed.
pub(crate) fn check_judge(graph: &Graph, sheet: usize) -> Result<(), Denial>
    ensures first_test_that_fails { refusal result ≡ judge_denial (as_open (view graph.now)) sheet }
{
    if sheet < ROOM {
        return Err(Denial::Sheet);
    }
    if is_too_wide(graph) {
        return Err(Denial::Wide);
    }
    Ok(())
}

/// On a closed graph every read is linked.
pub(crate) fn check_links(graph: &Graph) -> Result<(), Denial>
    ensures { refusal result ≡ unread (view graph.now) }
{
    match lowest_unlinked_read(graph) {
        Some(read) => Err(Denial::Unread(read)),
        None => Ok(()),
    }
}

/// Whether there are over 8 open writes, or an open write goes to a location with over 16 writes besides its initial one.
fn is_too_wide(graph: &Graph) -> bool
    ensures { result ≡ too_wide (view graph.now) }
{
    open_writes(graph) > 8 || has_wide_location(graph)
}

/// How many writes are open. Events are numbered past a byte here, since their count may be 256.
fn open_writes(graph: &Graph) -> usize
    ensures { result ≡ count (length (view graph.now).events) (is_open (view graph.now)) }
{
    let events = graph.events().len() as u32;
    (0..events).filter(|event| graph.is_open(*event)).count()
}

/// Whether some open write goes to a crowded location.
fn has_wide_location(graph: &Graph) -> bool
    ensures { result ≡ nat_lt 0 (count (view graph.now).locations (wide_at (view graph.now))) }
{
    let events = graph.events().len() as u32;
    (0..events).any(|event| is_open_and_crowded(graph, event))
}

/// Whether an event is an open write to a location with over 16 writes besides its initial one.
fn is_open_and_crowded(graph: &Graph, event: u32) -> bool
    ensures { result ≡ (is_open (view graph.now) event && crowded (view graph.now) (its_location (label_of (view graph.now) event))) }
{
    graph.is_open(event)
        && location_of(graph, event as u8).is_some_and(|location| recorded_writes(graph, location)
            > 16)
}

/// How many writes a location has besides its initial one.
fn recorded_writes(graph: &Graph, location: u8) -> usize
    ensures { result ≡ recorded_writes (view graph.now) location }
{
    let recorded = graph.events().iter().skip(graph.locations() as usize);
    recorded
        .filter(|event| writes_to(event.label, location))
        .count()
}

fn writes_to(label: Label, location: u8) -> bool
    ensures { result ≡ (is_write label && agree (its_location label) (Some location)) }
{
    label.writes() && label.location() == Some(location)
}
