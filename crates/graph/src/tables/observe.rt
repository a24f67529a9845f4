//! What a graph tells of itself.

ghost use Rattle.std.specs.Prelude.{◌≡◌, ◌≤◌, length, is_some, if◌then◌else◌, Some, None, count_by};
ghost use Rattle.execution.specs.Content.{label_of, is_open, NextOpen};
ghost use Rattle.execution.specs.Entries.{stands};
ghost use Rattle.graph.specs.View.{view};

use crate::tables::Graph;
use crate::tables::place::place_of;
use event::{Event, Label};

impl Graph {
    pub fn threads(&self) -> u8
        ensures its_threads { result ≡ (view self.now).threads }
    {
        self.threads
    }

    pub fn locations(&self) -> u8
        ensures its_locations { result ≡ (view self.now).locations }
    {
        self.locations
    }

    /// What an event does, if one of that number stands.
    pub fn label(&self, event: u32) -> Option<Label>
        ensures of_every_event_that_stands { result ≡ (if stands (view self.now) event then Some (label_of (view self.now) event) else None) }
    {
        self.events().get(event as usize).map(|event| event.label)
    }

    /// The events by number.
    pub fn events(&self) -> &[Event]
        ensures all_events_in_order { result.now ≡ (view self.now).events }
        ensures at_most_256 { length result.now ≤ 256 }
    {
        self.events.as_slice()
    }

    /// For each event the write that it is linked to.
    pub fn sources(&self) -> &[Option<u8>]
        ensures all_sources_in_order { result.now ≡ (view self.now).sources }
        ensures at_most_256 { length result.now ≤ 256 }
    {
        self.sources.as_slice()
    }

    /// Every placed write. Those of one location stand in its modification order.
    pub fn placed(&self) -> &[u8]
        ensures placed_writes_in_order { result.now ≡ (view self.now).placed }
        ensures at_most_256 { length result.now ≤ 256 }
    {
        self.placed.as_slice()
    }

    /// How many reads are linked.
    pub fn links(&self) -> usize
        ensures number_of_linked_reads { result ≡ count_by is_some (view self.now).sources }
    {
        self.sources()
            .iter()
            .filter(|source| source.is_some())
            .count()
    }

    /// Whether the event is a write that is not placed.
    pub fn is_open(&self, event: u32) -> bool
        ensures write_that_is_not_placed { result ≡ is_open (view self.now) event }
    {
        self.label(event).is_some_and(Label::writes) && place_of(self.placed(), event).is_none()
    }

    /// The lowest open write from a number on.
    pub fn next_open(&self, from: u32) -> Option<u32>
        ensures lowest_open_write_from_there { NextOpen (view self.now) from result }
    {
        (from..self.events.len() as u32).find(|event| self.is_open(*event))
    }
}
