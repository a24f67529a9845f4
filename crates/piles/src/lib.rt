//! Piles of layers over a board.
#![tactic(auto)]

mod pile;

pub use pile::Pile;
