//! Files of recordings behind title lines.
#![tactic(auto)]

mod cutting;
mod titled;

pub use titled::{Recordings, Titled};
