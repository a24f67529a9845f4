//! The quick test for freedom from cycles.
ghost use Rattle.std.specs.Prelude.{◌≡◌, ℕ, true, false, T, MatchBool};
ghost use Rattle.event_set.specs.Sets.{has};
ghost use Rattle.relation.specs.Table.{holds};
ghost use Rattle.cycles.specs.Steps.{Plus, Goes};
ghost use Rattle.cycles.specs.Cycles.{Acyclic, Cyclic};
ghost use Rattle.cycles.specs.Laws.{CyclesAreReturns};

use crate::table::Relation;
use event_set::EventSet;

/// So many steps on end come by some event twice.
const TOO_MANY: usize = 257;

impl Relation {
    /// Whether there is no cycle. Most steps lead to higher numbers, so the highest event is looked at first.
    pub fn is_acyclic(&self) -> bool
        ensures true_exactly_when_there_is_no_cycle { MatchBool result (Acyclic (holds self.now)) (Cyclic (holds self.now)) }
        ensures there_is_a_cycle_exactly_when_an_event_reaches_itself { CyclesAreReturns }
    {
        let mut left = EventSet::full();
        // Not `0..=u8::MAX`: it ends by a last step of its own, which each proof would have to tell again.
        for a in (0..256usize).rev() {
            if left.contains(a as u8) && !self.unwind(a as u8, &mut left, TOO_MANY) {
                return false;
            }
        }
        true
    }

    /// Takes `event` out of `left`, once nothing that it leads to is left; gives up where steps lead on `limit` times.
    fn unwind(&self, event: u8, left: &mut EventSet, limit: usize) -> bool
        ensures takes_it_or_steps_lead_on { MatchBool result (has left.new event ≡ false) (Goes (holds self.now) limit event) }
        ensures adds_none { (x : ℕ) → T (has left.new x) → T (has left.old x) }
        ensures keeps_what_returns { ((x : ℕ) → Plus (holds self.now) x x → T (has left.old x)) → (x : ℕ) → Plus (holds self.now) x x → T (has left.new x) }
    {
        if limit == 0 {
            return false;
        }
        // No `for`: `left` changes as it is walked.
        while let Some(next) = self.lowest_into(event, *left) {
            if !self.unwind(next, left, limit - 1) {
                return false;
            }
        }
        left.remove(event);
        true
    }
}
