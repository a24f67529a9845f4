//! The events that pass a test.
ghost use Rattle.std.specs.Prelude.{ℕ, Bool};
ghost use Rattle.graph.specs.View.{view};
ghost use Rattle.event_set.specs.Sets.{HasJust};
ghost use Rattle.model.specs.Telling.{TellsEvents};

use event::Label;
use event_set::EventSet;
use graph::Graph;

/// The events whose labels pass a test.
pub fn events_where<F: Fn(Label) -> bool>(graph: &Graph, passes: F) -> EventSet
    requires { F.IsAlwaysCallable passes }
    ensures has_exactly_those_that_pass { (s : ℕ → Bool) → TellsEvents (F.post passes) (view graph.now) s → HasJust result s }
{
    let mut found = EventSet::empty();
    for (a, event) in graph.events().iter().enumerate() {
        if passes(event.label) {
            found.insert(a as u8);
        }
    }
    found
}
