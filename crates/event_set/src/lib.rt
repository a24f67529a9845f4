//! Sets of at most 256 events, held as bits.
#![tactic(auto)]

mod event_set;

pub use event_set::EventSet;
