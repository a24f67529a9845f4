//! A set of events, walked from its lowest event up.
ghost use Rattle.std.specs.Prelude.{◌≡◌, ℕ, ◌+◌, ◌-◌, ◌*◌, ◌/◌, ◌%◌, ◌^◌, ◌<◌, false, not, ◌&&◌, ◌||◌, T, MatchBool, ◌==◌, nat_lt, slice_index};
ghost use Rattle.event_set.specs.Sets.{bit, has, HasJust, Gives, weight};
ghost use Rattle.std.specs.Iterator.{at_most};

use std::array;

mod words;

/// Event x is bit x mod 64 of word x div 64.
#[derive(Clone, Copy, PartialEq, Eq)]
pub struct EventSet {
    words: [u64; 4],
}

impl EventSet {
    /// The set with no event.
    pub fn empty() -> EventSet
        ensures has_no_event { HasJust result (λ _. false) }
    {
        EventSet { words: [0; 4] }
    }

    /// The set with all 256 events.
    pub fn full() -> EventSet
        ensures has_every_event { HasJust result (λ x. nat_lt x 256) }
    {
        EventSet {
            words: [u64::MAX; 4],
        }
    }

    /// The events below `n`: all 256, where `n` is larger.
    pub fn below(n: usize) -> EventSet
        ensures has_just_those_below { HasJust result (λ x. nat_lt x 256 && nat_lt x n) }
    {
        EventSet {
            words: array::from_fn(|i| lowest_digits(n.saturating_sub(64 * i))),
        }
    }

    /// Whether `event` is in the set.
    pub fn contains(&self, event: u8) -> bool
        ensures tells_whether_it_has_it { result ≡ has self.now event }
    {
        (self.words[event as usize / 64] >> (event % 64)) & 1 == 1
    }

    /// Adds `event`.
    pub fn insert(&mut self, event: u8)
        ensures adds_just_this_one { HasJust self.new (λ x. (x == event) || has self.old x) }
    {
        self.words[event as usize / 64] |= 1 << (event % 64);
    }

    /// Takes `event` away.
    pub fn remove(&mut self, event: u8)
        ensures takes_just_this_one { HasJust self.new (λ x. not (x == event) && has self.old x) }
    {
        self.words[event as usize / 64] &= !(1 << (event % 64));
    }

    /// Adds the events of `other`.
    pub fn union_with(&mut self, other: &EventSet)
        ensures has_the_events_of_either { HasJust self.new (λ x. has self.old x || has other.now x) }
    {
        *self = self.word_by_word(other, |a, b| a | b);
    }

    /// Keeps the events that are in `other` too.
    pub fn intersect_with(&mut self, other: &EventSet)
        ensures has_the_events_of_both { HasJust self.new (λ x. has self.old x && has other.now x) }
    {
        *self = self.word_by_word(other, |a, b| a & b);
    }

    /// Takes the events of `other` away.
    pub fn difference_with(&mut self, other: &EventSet)
        ensures has_the_events_of_this_alone { HasJust self.new (λ x. has self.old x && not (has other.now x)) }
    {
        *self = self.word_by_word(other, |a, b| a & !b);
    }

    /// The set whose words `op` gives of those of both sets.
    fn word_by_word<F: Fn(u64, u64) -> u64>(&self, other: &EventSet, op: F) -> EventSet
        requires { F.IsAlwaysCallable op }
        ensures gives_each_word { (i : ℕ) → i < 4 → F.post op (slice_index self.now.words i) (slice_index other.now.words i) (slice_index result.words i) }
        ensures of_words_of_64_bits { (i : ℕ) → i < 4 → slice_index other.now.words i < 2 ^ 64 }
    {
        EventSet {
            words: array::from_fn(|i| op(self.words[i], other.words[i])),
        }
    }

    /// Whether no event is in the set.
    pub fn is_empty(&self) -> bool
        ensures true_exactly_when_it_has_none { MatchBool result (HasJust self.now (λ _. false)) ((x : ℕ) × T (has self.now x)) }
    {
        let mut rest = *self;
        rest.next().is_none()
    }

    /// Whether no event is in both sets.
    pub fn is_disjoint(&self, other: &EventSet) -> bool
        ensures true_exactly_when_none_is_in_both { MatchBool result ((x : ℕ) → T (has self.now x) → T (has other.now x) → ⊥) ((x : ℕ) × T (has self.now x) × T (has other.now x)) }
    {
        let mut both = *self;
        both.intersect_with(other);
        both.is_empty()
    }
}

/// Gives the events of the set, from the lowest up; what is left is the set without them.
impl Iterator for EventSet {
    type Item = u8;

    ghost next_gives = { λ s r t. Gives s r t };

    ghost remaining = { λ s. at_most (weight s) };

    fn next(&mut self) -> Option<u8> {
        // Not `position` and `?`, tried: closing and listing take up to a third longer than by this loop.
        for (i, &word) in self.words.iter().enumerate() {
            if word != 0 {
                self.words[i] = word & (word - 1);
                return Some((64 * i + word.trailing_zeros() as usize) as u8);
            }
        }
        None
    }
}

/// The word whose lowest `count` digits are 1: all 64, where `count` is larger.
fn lowest_digits(count: usize) -> u64
    ensures { (k : ℕ) → k < 64 → bit result k ≡ nat_lt k count }
{
    if count < 64 {
        (1 << count) - 1
    } else {
        u64::MAX
    }
}
