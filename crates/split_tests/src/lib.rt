//! Tests that cross the crates: logs whose statements are cut.
#![tactic(auto)]

#[cfg(test)]
mod cut_log_tests;
#[cfg(test)]
mod memory_tests;
#[cfg(test)]
mod piece_tests;
#[cfg(test)]
mod splits;
#[cfg(test)]
mod undoing_tests;
#[cfg(test)]
mod writing_tests;
