//! Tests of scripts.
#![tactic(auto)]

#[cfg(test)]
mod script_tests;
