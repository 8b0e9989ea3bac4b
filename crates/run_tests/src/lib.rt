//! Tests of reading and writing, and of runs over devices that fail. Answers to small logs are scripts in `log_scripts`.
#![tactic(auto)]

#[cfg(test)]
mod answer_tests;
#[cfg(test)]
mod device_tests;
#[cfg(test)]
mod printing_tests;
#[cfg(test)]
mod reading_and_writing_tests;
