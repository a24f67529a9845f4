//! The cycle that is shown: the shortest, and of those the first by event numbers.
ghost use Rattle.std.specs.Prelude.{◌≡◌, ℕ, ◌<◌, ◌≤◌, false, T, IfSome, IsSomeAnd, Decides, MatchOption};
ghost use Rattle.event_set.specs.Sets.{has};
ghost use Rattle.relation.specs.Table.{holds};
ghost use Rattle.cycles.specs.Steps.{Then};
ghost use Rattle.cycles.specs.Cycles.{Acyclic, Cyclic, FirstCycle, FirstReturn, Way};
ghost use Rattle.relation.specs.Sequences.{events};
ghost use Rattle.cycles.specs.Laws.{OneFirstCycle};

use crate::Sequence;
use crate::table::Relation;
use event_set::EventSet;

impl Relation {
    /// The shortest cycle, told from its lowest event, and of those as short the first by event numbers from left to right;
    /// none where there is no cycle.
    pub fn first_cycle(&self) -> Option<Sequence>
        ensures none_exactly_when_there_is_no_cycle { MatchOption result (Acyclic (holds self.now)) (λ _. Cyclic (holds self.now)) }
        ensures else_the_shortest_and_of_those_the_first { IfSome result (λ s. FirstCycle (holds self.now) (events s)) }
        ensures there_is_one_first_cycle_at_most { OneFirstCycle }
    {
        // Where there is no cycle, the ways would be followed to their ends.
        if self.is_acyclic() {
            return None;
        }
        // The pairs that ways by `between` events join.
        let mut ways = *self;
        // Not `0..=u8::MAX`: it ends by a last step of its own, which each proof would have to tell again.
        for between in 0..256usize {
            if let Some(start) = ways.lowest_return() {
                return self.told_from(start, between as u8);
            }
            ways = self.composed(&ways);
        }
        None
    }

    /// The lowest event that is paired with itself.
    fn lowest_return(&self) -> Option<u8>
        ensures { MatchOption result ((x : ℕ) → holds self.now x x ≡ false) (λ a. T (holds self.now a a) × ((x : ℕ) → x < a → holds self.now x x ≡ false)) }
    {
        EventSet::full().find(|a| self.contains(*a, *a))
    }

    /// The pairs that a step here and then one of `other` join.
    fn composed(&self, other: &Relation) -> Relation
        ensures { (x y : ℕ) → Decides (holds result x y) (Then (holds self.now) (holds other.now) x y) }
    {
        let mut all = Relation::empty();
        // Not `EventSet::full()`, tried: a cycle of 256 events is found 14 % later than by this range.
        for a in 0..256usize {
            all.join_row(a as u8, &other.image(self.row(a as u8)));
        }
        all
    }

    /// The events that some event of `firsts` is paired with.
    fn image(&self, firsts: EventSet) -> EventSet
        ensures { (y : ℕ) → Decides (has result y) ((m : ℕ) × T (has firsts m) × T (holds self.now m y)) }
    {
        let mut all = EventSet::empty();
        for m in firsts {
            all.union_with(&self.row(m));
        }
        all
    }

    /// The first way from `start` by `between` events back to it: there is one, and it fits.
    fn told_from(&self, start: u8, between: u8) -> Option<Sequence>
        requires first { FirstReturn (holds self.now) between start }
        ensures { IsSomeAnd result (λ s. FirstCycle (holds self.now) (events s)) }
    {
        let ways = self.ways_to(start, between);
        let mut cycle = Sequence::empty(0);
        cycle.push(start).ok()?;
        let mut here = start;
        for k in (0..between).rev() {
            here = self.lowest_into(here, ways.row(k))?;
            cycle.push(here).ok()?;
        }
        Some(cycle)
    }

    /// Row k, for each k below `limit`: the events from which a way by k events leads to `target`.
    fn ways_to(&self, target: u8, limit: u8) -> Relation
        ensures { (k x : ℕ) → k < limit → Decides (holds result k x) (Way (holds self.now) k x target) }
    {
        let back = self.transposed();
        let mut ways = Relation::empty();
        let mut layer = back.row(target);
        for k in 0..limit {
            ways.join_row(k, &layer);
            layer = back.image(layer);
        }
        ways
    }
}
