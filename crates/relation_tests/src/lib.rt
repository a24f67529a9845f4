//! Hand-made relations, with the answers worked out by hand.
#![tactic(auto)]

#[cfg(test)]
mod cycling;
#[cfg(test)]
mod listings;
#[cfg(test)]
mod pairs;

use relation::Relation;

/// The relation with these pairs.
pub fn related(pairs: &[(u8, u8)]) -> Relation {
    let mut table = Relation::empty();
    for &(a, b) in pairs {
        table.insert(a, b);
    }
    table
}

/// The relation with every pair.
pub fn full() -> Relation {
    let mut table = Relation::empty();
    for a in 0..=u8::MAX {
        for b in 0..=u8::MAX {
            table.insert(a, b);
        }
    }
    table
}
