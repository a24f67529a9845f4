//! Lists of a bounded length in fixed memory.
#![tactic(auto)]

mod sequence;

pub use sequence::{Full, Sequence};

#[cfg(test)]
mod tests;
