//! The plain line that tells what was read.

ghost use Rattle.graph.specs.View.{view};
ghost use Rattle.report.specs.Tallies.{tallied};
ghost use Rattle.std.specs.Prelude.{◌≡◌, length, is_some, Some, count_by};

use graph::Graph;
use std::fmt;

/// What a graph has, counted.
#[derive(Clone, Copy)]
pub struct Tally {
    threads: u8,
    locations: u8,
    events: usize,
    links: usize,
    placed: usize,
}

impl Tally {
    // No `From`, which would promise all five counts in one member.
    pub fn of(graph: &Graph) -> Tally
        ensures counts_its_threads { result.threads ≡ (view graph.now).threads }
        ensures counts_its_locations { result.locations ≡ (view graph.now).locations }
        ensures counts_its_events { result.events ≡ length (view graph.now).events }
        ensures counts_its_links { result.links ≡ count_by is_some (view graph.now).sources }
        ensures counts_its_placed_writes { result.placed ≡ length (view graph.now).placed }
    {
        Tally {
            threads: graph.threads(),
            locations: graph.locations(),
            events: graph.events().len(),
            links: graph.links(),
            placed: graph.placed().len(),
        }
    }
}

impl fmt::Display for Tally {
    ghost output = { λ t. Some (tallied t.threads t.locations t.events t.links t.placed) };

    fn fmt<W: fmt::Write>(&self, f: &mut fmt::Formatter<W>) -> fmt::Result {
        write!(
            f,
            "read: {} threads, {} locations, {} events, {} links, {} placed writes",
            self.threads, self.locations, self.events, self.links, self.placed
        )
    }
}
