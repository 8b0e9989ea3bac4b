//! Tests of result files.
#![tactic(auto)]

#[cfg(test)]
mod existing_file_tests;
#[cfg(test)]
mod folders;
#[cfg(test)]
mod naming_tests;
#[cfg(test)]
mod refused_call_tests;
#[cfg(test)]
mod refusing_files;
#[cfg(test)]
mod same_file_tests;
