//! The differences that the selected changes of a log make which aren't undone by themselves.
#![tactic(auto)]

mod among;
mod laws;
mod others;
mod selected;

pub use among::pairs_among;
pub use laws::changes_that_are_not_undone_are_those_outside_of_the_part;
