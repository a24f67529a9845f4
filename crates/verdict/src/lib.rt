//! What a verdict is: its definitions, the law over all dealings with a graph, and its line.
#![tactic(auto)]

pub mod laws;
pub mod links;
pub mod verdict;

pub use links::lowest_unlinked_read;
pub use verdict::Verdict;
