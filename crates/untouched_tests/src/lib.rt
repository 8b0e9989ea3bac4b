//! Tests of which selected changes can be undone although others came later.
#![tactic(auto)]

#[cfg(test)]
mod chain_tests;
#[cfg(test)]
mod changes;
#[cfg(test)]
mod index_tests;
#[cfg(test)]
mod list_tests;
#[cfg(test)]
mod memory_tests;
