//! Tests of rows in each form.
#![tactic(auto)]

#[cfg(test)]
mod form_tests;
#[cfg(test)]
mod memory_tests;
#[cfg(test)]
mod orders;
