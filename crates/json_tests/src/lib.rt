//! Tests of lists as JSON, and of lists of changed logs.
#![tactic(auto)]

#[cfg(test)]
mod changed_log_tests;
#[cfg(test)]
mod json_form_tests;
#[cfg(test)]
mod json_lines;
