//! Execution graphs: the entries that build one, and its tables with what every graph keeps.
#![tactic(auto)]

pub mod closed;
pub mod open;
pub mod tables;

pub use closed::Closed;
pub use open::Open;
pub use tables::Graph;
