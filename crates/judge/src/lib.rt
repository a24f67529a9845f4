//! Judging an execution graph, open or closed, under any memory model.
#![tactic(auto)]

mod denial;
mod judging;
mod showing;
mod under;

pub use judging::Judge;
