//! The race search on a closed graph.
#![tactic(auto)]

pub mod race;
pub mod search;

pub use race::Race;
pub use search::find_race;
