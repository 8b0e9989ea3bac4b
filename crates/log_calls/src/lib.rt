//! Calls on a log that several tests make: the log that undoes it and its normal form, what its index shows, its changes
//! applied to tables, and the selections for them.
#![tactic(auto)]

pub mod calls;
pub mod index_view;
pub mod replay;
pub mod selections;
