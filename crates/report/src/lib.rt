//! The page: lines of the report, laid at the start of the caller's slice of bytes.
#![tactic(auto)]

mod column;
pub mod denied;
pub mod judged;
mod line;
mod lists;
mod named;
mod page;
pub mod printing;
mod row;
pub mod tally;
pub mod task;
mod verdicts;

pub use denied::{PAGE, denial_line};
pub use judged::judge_recording;
pub use printing::print;
pub use tally::Tally;
pub use task::{INPUT, check_recording};
