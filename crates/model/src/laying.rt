//! The four relations of a graph, each added to a table row by row.
// Graph and table are two parameters and no struct: one graph is laid into several tables,
// and parts of one table are added to another.
pub mod events;
pub mod locations;
pub mod modification_order;
pub mod program_order;
pub mod reads_before;
pub mod reads_from;
pub mod rows;

pub use events::events_where;
pub use locations::add_at_one_location;
pub use modification_order::add_modification_order;
pub use program_order::add_program_order;
pub use reads_before::add_reads_before;
pub use reads_from::{add_reads_from, add_reads_from_where};
pub use rows::add_rows;
