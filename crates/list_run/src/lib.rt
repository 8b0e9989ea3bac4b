//! The run behind `list`: the units of one log or of several, each of which is read when its turn comes.
#![tactic(auto)]

mod fault;
mod given;
mod listed;

pub use fault::ListFault;
pub use given::GivenLog;
pub use listed::{earlier, list_logs, look, read_source};
