//! The commands of `binlog`: its runs, and its lines on standard error.
#![tactic(auto)]

mod commands;
mod lines;
mod list_runs;
mod log_file;
mod part_runs;
mod reasons;
mod report_runs;
mod schemas;
mod show_runs;

pub use commands::{Failure, NewLogFault, Process, command};
pub use log_file::LogFault;
