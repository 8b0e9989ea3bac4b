//! The groups of a log of which rows are left out, written as a log in memory.
#![tactic(auto)]

mod fault;
mod kept_rows;
mod laws;
mod leaving;
mod left_out;
mod writing;

pub use fault::LeaveOutFault;
pub use laws::{
    all_that_stay_are_all, changes_are_those_that_stay, groups_are_those_that_stay,
    logs_of_those_that_stay_are_accepted,
};
pub use leaving::leave_out;
pub use left_out::LeftOut;
