//! When two events race.
ghost use Rattle.std.specs.Prelude.{◌≡◌};
ghost use Rattle.execution.specs.Content.{label_of};
ghost use Rattle.graph.specs.View.{view};
ghost use Rattle.relation.specs.Table.{holds};
ghost use Rattle.races.specs.Races.{conflict, non_atomic, may_race, concurrent, races};

use event::{Label, Mode};
use graph::Graph;
use relation::Relation;

/// Two events that race, the lower first.
#[derive(Clone, Copy, PartialEq, Eq, Debug)]
pub struct Race {
    pub first: u8,
    pub second: u8,
}

/// A graph with the happens-before of its events.
#[derive(Clone, Copy)]
pub(crate) struct Ordered<'a> {
    pub graph: &'a Graph,
    pub happens_before: &'a Relation,
}

impl Ordered<'_> {
    // Two events and no `Race`, which they are only if the answer is yes.
    pub fn is_race(&self, a: u8, b: u8) -> bool
        ensures { result ≡ races (view self.now.graph.now) (holds self.now.happens_before.now) a b }
    {
        self.may_race(a, b) && self.are_concurrent(a, b)
    }

    /// Whether both are events, they conflict, and one of them is not atomic.
    fn may_race(&self, a: u8, b: u8) -> bool
        ensures { result ≡ may_race (label_of (view self.now.graph.now) a) (label_of (view self.now.graph.now) b) }
    {
        let labels = self.graph.label(a as u32).zip(self.graph.label(b as u32));
        labels.is_some_and(|(x, y)| may_race(x, y))
    }

    fn are_concurrent(&self, a: u8, b: u8) -> bool
        ensures { result ≡ concurrent (holds self.now.happens_before.now) a b }
    {
        a != b && !self.happens_before.contains(a, b) && !self.happens_before.contains(b, a)
    }
}

/// Whether the two conflict, and one of them is not atomic.
fn may_race(a: Label, b: Label) -> bool
    ensures { result ≡ may_race a b }
{
    conflicts(a, b) && (is_non_atomic(a) || is_non_atomic(b))
}

/// Whether both access one location, and one of them writes.
fn conflicts(a: Label, b: Label) -> bool
    ensures { result ≡ conflict a b }
{
    a.shares_location(b) && (a.writes() || b.writes())
}

fn is_non_atomic(label: Label) -> bool
    ensures { result ≡ non_atomic label }
{
    label.mode() == Mode::NonAtomic
}
