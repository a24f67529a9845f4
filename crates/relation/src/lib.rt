//! Relations on at most 256 events: sets of pairs, held as a table of bits.
#![tactic(auto)]

mod acyclic;
mod closing;
mod first_cycle;
mod listing;
mod table;

pub use table::Relation;

/// Events in an order: a cycle that is told, or a list.
pub type Sequence = sequence::Sequence<u8, 256>;
