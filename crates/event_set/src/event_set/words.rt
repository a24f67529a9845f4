//! The four words that tell a set, for a table whose rows are sets.
ghost use Rattle.std.specs.Prelude.{◌≡◌};

use super::EventSet;

impl From<[u64; 4]> for EventSet {
    ghost from_gives = { λ words set. set.words ≡ words };

    fn from(words: [u64; 4]) -> EventSet {
        EventSet { words }
    }
}

impl From<EventSet> for [u64; 4] {
    ghost from_gives = { λ set words. words ≡ set.words };

    fn from(set: EventSet) -> [u64; 4] {
        set.words
    }
}
