//! Tests of which units are wanted: of choices of tables and of ids, of the units of logs and of undoing their ranges, and of why none
//! is wanted.
#![tactic(auto)]

#[cfg(test)]
mod calls;
#[cfg(test)]
mod choice_tests;
#[cfg(test)]
mod ids_tests;
#[cfg(test)]
mod memory_tests;
#[cfg(test)]
mod near_tests;
#[cfg(test)]
mod order_tests;
#[cfg(test)]
mod range_tests;
#[cfg(test)]
mod told_tests;
#[cfg(test)]
mod walk_tests;
