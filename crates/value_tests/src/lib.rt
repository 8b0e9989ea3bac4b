//! Tests of the values of columns and of their texts.
#![tactic(auto)]

#[cfg(test)]
mod checks;
#[cfg(test)]
mod decimal_tests;
#[cfg(test)]
mod length_tests;
#[cfg(test)]
mod memory_tests;
#[cfg(test)]
mod number_tests;
#[cfg(test)]
mod server_tests;
#[cfg(test)]
mod time_tests;
#[cfg(test)]
mod value_tests;
