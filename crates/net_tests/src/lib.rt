//! Tests of logs with the net effect of a mistake.
#![tactic(auto)]

#[cfg(test)]
mod logs;
#[cfg(test)]
mod memory_tests;
#[cfg(test)]
mod other_updates_tests;
#[cfg(test)]
mod unfit_tests;
#[cfg(test)]
mod written_tests;
