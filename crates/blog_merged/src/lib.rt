//! A log whose undo takes a mistake back, out of rows that were changed since too.
#![tactic(auto)]

mod counts;
mod fault;
mod gathering;
mod laws;
mod merged;
mod updates;
mod writing;

pub use counts::{rows_merged, rows_staying};
pub use fault::MergeFault;
pub use laws::undo_of_a_merge_updates_rows_last;
pub use merged::MergedLog;
pub use writing::merged_log;
