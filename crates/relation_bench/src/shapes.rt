//! The relations that are timed.
ghost use Rattle.std.specs.Prelude.{◌<◌, ◌≤◌};

use event_set::EventSet;
use relation::Relation;
use std::fmt;

#[derive(Clone, Copy)]
pub enum Shape {
    /// Sixteen threads, each in its order, with a step from each event to the next thread's event after it.
    Threads,
    /// Each event before the next.
    Rising,
    /// Each event after the next.
    Falling,
    /// Each event before all later ones.
    Dense,
    /// Every pair.
    Full,
    /// Each event before the next, and the last before the first.
    Ring,
    /// The first 170 events as in `Dense`, the others as in `Ring`.
    Both,
}

impl Shape {
    pub const ALL: [Shape; 7] = [
        Shape::Threads,
        Shape::Rising,
        Shape::Falling,
        Shape::Dense,
        Shape::Full,
        Shape::Ring,
        Shape::Both,
    ];

    /// The events that the shape, on the first `n` events, pairs `a` with.
    fn row(self, n: usize, a: usize) -> EventSet
        requires { (a < n) × (n ≤ 256) }
    {
        match self {
            Shape::Threads => {
                let mut seconds = span(a + 1, n.min(a / 16 * 16 + 16));
                seconds.union_with(&span(a + 17, n.min(a + 18)));
                seconds
            }
            Shape::Rising => span(a + 1, n.min(a + 2)),
            Shape::Falling => span(a.max(1) - 1, a),
            Shape::Dense => span(a + 1, n),
            Shape::Full => span(0, n),
            Shape::Ring => ring(0, n, a),
            Shape::Both => {
                if a < 170 {
                    span(a + 1, n.min(170))
                } else {
                    ring(170, n, a)
                }
            }
        }
    }

    /// The relation of this shape on the first `n` events.
    pub fn over(self, n: usize) -> Relation {
        let mut table = Relation::empty();
        let count = n.min(256);
        // Counted in `usize`, since the bound may be 256, which is no byte.
        for a in 0..count {
            table.join_row(a as u8, &self.row(count, a));
        }
        table
    }
}

impl fmt::Display for Shape {
    fn fmt<W: fmt::Write>(&self, f: &mut fmt::Formatter<W>) -> fmt::Result {
        f.write_str(match self {
            Shape::Threads => "threads",
            Shape::Rising => "rising",
            Shape::Falling => "falling",
            Shape::Dense => "dense",
            Shape::Full => "full",
            Shape::Ring => "ring",
            Shape::Both => "both",
        })
    }
}

/// The events from `low` on that are below `high`.
fn span(low: usize, high: usize) -> EventSet {
    let mut events = EventSet::below(high);
    events.difference_with(&EventSet::below(low));
    events
}

/// The event after `a` in the ring of the events from `low` on that are below `high`.
fn ring(low: usize, high: usize, a: usize) -> EventSet
    requires { (a < high) × (high ≤ 256) }
{
    if a + 1 < high {
        span(a + 1, a + 2)
    } else {
        span(low, high.min(low.min(255) + 1))
    }
}
