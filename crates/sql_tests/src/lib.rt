//! Tests of logs as SQL.
#![tactic(auto)]

#[cfg(test)]
mod sql_tests;
