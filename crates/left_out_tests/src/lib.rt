//! Tests of logs of which rows are left out.
#![tactic(auto)]

#[cfg(test)]
mod memory_tests;
#[cfg(test)]
mod pattern_tests;
#[cfg(test)]
mod rows_left;
#[cfg(test)]
mod text_tests;
