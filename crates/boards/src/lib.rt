//! The five memory models, one file each, and the choice of one by its number.
#![tactic(auto)]

pub mod board;
pub mod c11;
pub mod coh;
pub mod ra;
pub mod sc;
mod synchronising;
pub mod tso;

pub use board::Board;
pub use c11::C11;
pub use coh::Coh;
pub use ra::Ra;
pub use sc::Sc;
pub use tso::Tso;
