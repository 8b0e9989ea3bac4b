//! The run behind the commands that write changes: those that were selected, or what undoes them, as a log or as SQL.
#![tactic(auto)]

mod fault;
mod writing;
mod written;

pub use fault::WritingFault;
pub use writing::Writing;
pub use written::{write_changes, write_groups};
