//! What rows would be had a mistake not been made, by what others changed since.
#![tactic(auto)]

mod laws;
mod row_laws;

pub use laws::{
    greatest_part_is_undone_and_rest_merged, nothing_selected_makes_no_difference,
    pairs_are_the_difference, part_by_fingerprints_is_undone_and_rest_merged,
    part_is_undone_and_rest_merged, rows_of_pairs_differ, untouched_rows_make_no_difference,
    updates_merge,
};
pub use row_laws::{columns_are_restored, own_row_is_updated, rows_are_merged_by_column};
