//! Right-justified decimal numbers in fixed-width fields of bytes, read and written.
#![tactic(auto)]

mod reading;
mod writing;

pub use reading::read;
pub use writing::{TooNarrow, write};

#[cfg(test)]
mod tests;
