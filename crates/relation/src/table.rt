//! The table of pairs, and what adds to it.
ghost use Rattle.std.specs.Prelude.{◌≡◌, ℕ, ◌+◌, ◌*◌, ◌/◌, ◌%◌, ◌<◌, false, ◌&&◌, ◌||◌, T, MatchOption, ◌==◌};
ghost use Rattle.event_set.specs.Sets.{has, HasJust};
ghost use Rattle.relation.specs.Table.{holds, Is};
ghost use Rattle.cycles.specs.Laws.{LargerKeepsCycles};

use event_set::EventSet;
use std::array;

/// The pair (a, b) is bit b mod 64 of word 4a + b div 64.
#[derive(Clone, Copy, PartialEq, Eq)]
pub struct Relation {
    words: [u64; 1024],
}

impl Relation {
    /// The relation with no pair.
    pub fn empty() -> Relation
        ensures holds_no_pair { Is result (λ _ _. false) }
    {
        Relation { words: [0; 1024] }
    }

    /// Whether (a, b) is in the relation.
    pub fn contains(&self, a: u8, b: u8) -> bool
        ensures tells_whether_it_holds_it { result ≡ holds self.now a b }
    {
        let word = self.words[4 * a as usize + b as usize / 64];
        (word >> (b % 64)) & 1 == 1
    }

    /// Adds (a, b).
    pub fn insert(&mut self, a: u8, b: u8)
        ensures adds_just_this_pair { Is self.new (λ x y. (x == a && y == b) || holds self.old x y) }
    {
        self.words[4 * a as usize + b as usize / 64] |= 1 << (b % 64);
    }

    /// The events that `a` is paired with.
    pub fn row(&self, a: u8) -> EventSet
        ensures has_just_the_seconds_of_a { HasJust result (λ y. holds self.now a y) }
    {
        EventSet::from(array::from_fn(|i| self.words[4 * a as usize + i]))
    }

    /// The lowest event of `events` that `a` is paired with.
    pub(crate) fn lowest_into(&self, a: u8, events: EventSet) -> Option<u8>
        ensures { MatchOption result ((x : ℕ) → (holds self.now a x && has events x) ≡ false) (λ m. T (holds self.now a m) × T (has events m) × ((x : ℕ) → x < m → (holds self.now a x && has events x) ≡ false)) }
    {
        let mut seconds = self.row(a);
        seconds.intersect_with(&events);
        seconds.next()
    }

    /// Pairs `a` with each event of `seconds` too.
    pub fn join_row(&mut self, a: u8, seconds: &EventSet)
        ensures adds_just_those_pairs_of_a { Is self.new (λ x y. holds self.old x y || (x == a && has seconds.now y)) }
    {
        let row = <[u64; 4]>::from(*seconds);
        for (i, word) in row.iter().enumerate() {
            self.words[4 * a as usize + i] |= word;
        }
    }

    /// Adds the pairs of `other`.
    pub fn union_with(&mut self, other: &Relation)
        ensures holds_the_pairs_of_either { Is self.new (λ x y. holds self.old x y || holds other.now x y) }
        ensures a_larger_relation_keeps_every_cycle { LargerKeepsCycles }
    {
        // Not `zip`: after it no contract says what was written through `iter_mut`.
        for (i, word) in self.words.iter_mut().enumerate() {
            *word |= other.words[i];
        }
    }

    /// The pairs turned round.
    pub fn transposed(&self) -> Relation
        ensures holds_each_pair_turned { Is result (λ x y. holds self.now y x) }
    {
        let mut back = Relation::empty();
        for a in EventSet::full() {
            for b in self.row(a) {
                back.insert(b, a);
            }
        }
        back
    }
}
