//! The arguments of `binlog`: every option that it knows, and what they ask for.
#![tactic(auto)]

mod all_options;
mod arguments;
mod help;
mod list_arguments;
mod options;
mod outputs;
mod report_arguments;
mod selections;
mod show_arguments;
mod sql_arguments;
mod undo_arguments;
mod unit_choice;
mod zones;

pub use arguments::{ArgumentsFault, Asked, Making, NewLogTask, read_arguments};
pub use list_arguments::ListTask;
pub use report_arguments::ReportTask;
pub use show_arguments::ShowTask;
pub use sql_arguments::SqlTask;
pub use undo_arguments::PartTask;
pub use unit_choice::UnitChoice;
pub use zones::{Zone, zone_in};
