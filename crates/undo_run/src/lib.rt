//! The run behind `undo` and `redo`: the changes of a part of a server's logs, or what undoes them, and a report of them.
#![tactic(auto)]

mod chosen;
mod fault;
mod later;
mod laws;
mod lines;
mod log_names;
mod merged;
mod merged_part;
mod missing;
mod opening;
mod part;
mod reports;
mod request;
mod seen;
mod several;
mod since;
mod tables;
mod tracked;
mod untouched;
mod written_part;

pub use fault::{FurtherFault, LogsFault, OpeningFault, PartFault};
pub use laws::{what_is_merged_is_what_is_undone, what_is_written_is_what_is_undone};
pub use request::UnitRequest;
pub use written_part::write_part;
