//! Memory models behind one interface: what a model means and keeps, laying of the four relations, and layers.
#![tactic(auto)]

pub mod interface;
pub mod layers;
pub mod laying;

pub use interface::{Model, Synchronising};
pub use layers::barrier::Barrier;
pub use layers::strong::Strong;
