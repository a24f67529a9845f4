//! Listing the events in an order that the relation keeps.
ghost use Rattle.std.specs.Prelude.{◌≡◌, ℕ, ◌<◌, min, T, length, IfSome, MatchBool, MatchOption};
ghost use Rattle.event_set.specs.Sets.{has, LeadsOn};
ghost use Rattle.relation.specs.Table.{holds};
ghost use Rattle.cycles.specs.Cycles.{Cyclic, Acyclic};
ghost use Rattle.cycles.specs.Listings.{among, Listing};
ghost use Rattle.relation.specs.Sequences.{events};
ghost use Rattle.cycles.specs.Laws.{ListedExactlyWithoutCycles, OneListing};

use crate::Sequence;
use crate::table::Relation;
use event_set::EventSet;

impl Relation {
    /// The first `n` events, each the lowest whose predecessors among them all stand before it; none where they have a cycle.
    /// There are 256 events, so a larger `n` means 256.
    pub fn list(&self, n: usize) -> Option<Sequence>
        ensures none_exactly_when_they_have_a_cycle { MatchOption result (Cyclic (among (min n 256) (holds self.now))) (λ _. Acyclic (among (min n 256) (holds self.now))) }
        ensures else_each_is_the_lowest_that_is_ready { IfSome result (λ s. Listing (holds self.now) (min n 256) (events s)) }
        ensures the_list_has_each_event_once { IfSome result (λ s. length (events s) ≡ min n 256) }
        ensures there_is_a_list_exactly_when_there_is_no_cycle { ListedExactlyWithoutCycles }
        ensures there_is_one_list_at_most { OneListing }
    {
        let back = self.transposed();
        let mut left = EventSet::below(n);
        let mut listed = Sequence::empty(0);
        // No `for`: `left` changes as it is walked.
        while let Some(event) = back.lowest_free(left) {
            listed.push(event).ok()?;
            left.remove(event);
        }
        if left.is_empty() { Some(listed) } else { None }
    }

    /// The lowest event of `left` that is paired with none of `left`.
    fn lowest_free(&self, left: EventSet) -> Option<u8>
        ensures { MatchOption result ((x : ℕ) → T (has left x) → LeadsOn (holds self.now) left x) (λ a. T (has left a) × (LeadsOn (holds self.now) left a → ⊥) × ((x : ℕ) → x < a → T (has left x) → LeadsOn (holds self.now) left x)) }
    {
        left.into_iter().find(|event| self.is_free(*event, &left))
    }

    /// Whether `event` is paired with none of `left`.
    fn is_free(&self, event: u8, left: &EventSet) -> bool
        ensures { MatchBool result (LeadsOn (holds self.now) left.now event → ⊥) (LeadsOn (holds self.now) left.now event) }
    {
        self.row(event).is_disjoint(left)
    }
}
