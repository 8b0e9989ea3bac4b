//! Which units of a log the options of a command choose: by position, time, thread, global transaction id and tables.
#![tactic(auto)]

mod ids;
mod passing;
mod wanted;

pub use ids::GlobalIds;
pub use passing::is_passed_over;
pub use wanted::{Concern, Wanted, is_before};
