//! Recordings: the lines of a file, what each says, and the graph that they make.
#![tactic(auto)]

pub mod fault;
pub mod header;
pub mod layout;
pub mod line;
pub mod reader;
pub mod whole;

pub use fault::Fault;
pub use header::Header;
pub use reader::Reader;
pub use whole::{Recording, read};
