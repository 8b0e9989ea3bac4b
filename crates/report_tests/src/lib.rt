//! Tests of reports.
#![tactic(auto)]

#[cfg(test)]
mod bar_tests;
#[cfg(test)]
mod line_tests;
#[cfg(test)]
mod memory_tests;
#[cfg(test)]
mod page_tests;
#[cfg(test)]
mod rank_tests;
#[cfg(test)]
mod sample;
#[cfg(test)]
mod size_tests;
