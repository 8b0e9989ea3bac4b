//! The groups of several ranges, of one log or of several, gathered in one log.
#![tactic(auto)]

mod fault;
mod gathered;
mod laws;

pub use fault::GatherFault;
pub use gathered::Gathered;
pub use laws::{gathered_changes_are_those_of_the_ranges, gathered_groups_are_those_of_the_ranges};
