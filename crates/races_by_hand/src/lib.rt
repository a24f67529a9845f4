//! The race search, on graphs worked out by hand.
#![tactic(auto)]

#[cfg(test)]
mod tests;
