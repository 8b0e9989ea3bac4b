//! Tests that cross the crates: cut logs, memory that runs out, large logs, and rows events of version 1. Refused logs are scripts in
//! `log_scripts`.
#![tactic(auto)]

#[cfg(test)]
mod damage_tests;
#[cfg(test)]
mod event_refusal_tests;
#[cfg(test)]
mod large_run_tests;
#[cfg(test)]
mod large_tests;
#[cfg(test)]
mod memory_tests;
#[cfg(test)]
mod refusing_calls;
#[cfg(test)]
mod short_reads;
#[cfg(test)]
mod version_one_tests;
