//! The search for the full modification order to show.
#![tactic(auto)]

mod cyclic;
mod filling;

pub use cyclic::{lowest_cyclic, table_of};
pub use filling::search;
