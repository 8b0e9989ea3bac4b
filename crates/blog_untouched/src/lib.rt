//! Which of some selected row changes can be undone although others came later.
//!
//! From the last change to the first, a selected change is kept if no change after it takes the row that it left, other than kept
//! changes.
//! Rows are compared by fingerprints. The changes that are kept are the part that can be undone while all others are left.
#![tactic(auto)]

mod keeping;
mod laws;
mod record;
mod rows;
mod selected;
mod takers;

pub use keeping::{Kept, kept_changes};
pub use laws::{
    all_are_kept_if_none_is_touched, changes_left_out_are_touched_by_fingerprints,
    part_by_fingerprints_is_greatest, part_by_fingerprints_is_taken_back,
    records_of_steps_are_those_of_their_changes,
};
pub use record::ChangeRecord;
pub use rows::{SelectedRow, TakenRow, Taker, Touched};
pub use selected::selected_rows;
