//! Layers: models over any model, with more pairs in every order.
// Two structs, not one over a trait of layers: what they share is two short methods.
pub mod barrier;
pub mod strong;
