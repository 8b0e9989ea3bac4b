//! Changes of others that can make a difference to the pairs of a merge, followed through logs.
//!
//! Rows are followed by fingerprints: those that selected changes left, and each row that a change of others leaves which takes a followed one. Only
//! these changes have to be kept.
#![tactic(auto)]

mod adding;
mod followed;
mod held;
mod kept;
mod laws;
mod logs;
mod maps;
mod prints;
mod rows;
mod seen;
mod units;

pub use followed::Followed;
pub use laws::{
    changes_of_followed_rows_suffice, changes_of_others_are_those_of_their_units,
    fingerprints_decide_what_is_followed, real_rows_are_followed,
    rows_are_followed_through_several_lists,
};
