//! What an undo takes back, by what came after it.
#![tactic(auto)]

mod laws;
mod part_laws;
mod pass_laws;

pub use laws::untouched_changes_are_taken_back;
pub use part_laws::{
    changes_left_out_are_touched, untouched_part_is_greatest, untouched_part_is_taken_back,
};
pub use pass_laws::{fingerprints_suffice, rows_left_decide};
