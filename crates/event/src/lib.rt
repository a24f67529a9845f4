//! Events: what a thread did, why a call is denied, and the sizes that a graph may have.
#![tactic(auto)]

pub mod denial;
pub mod event;
pub mod size;

pub use denial::Denial;
pub use event::{Arguments, Event, Kind, Label, Mode};
pub use size::Size;
