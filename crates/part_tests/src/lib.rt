//! Tests of parts of logs that are undone, or made once more.
#![tactic(auto)]

#[cfg(test)]
mod later_tests;
#[cfg(test)]
mod merge_tests;
#[cfg(test)]
mod place_tests;
#[cfg(test)]
mod refusal_tests;
#[cfg(test)]
mod report_tests;
#[cfg(test)]
mod runs;
#[cfg(test)]
mod several_tests;
#[cfg(test)]
mod wanted_tests;
#[cfg(test)]
mod zone_tests;
