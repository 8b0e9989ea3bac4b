//! Tests of `binlog`: what no script says of its arguments, its lines, and what each command writes.
#![tactic(auto)]

#[cfg(test)]
mod argument_tests;
#[cfg(test)]
mod large_log_tests;
#[cfg(test)]
mod line_tests;
#[cfg(test)]
mod size_tests;
#[cfg(test)]
mod split_tests;
#[cfg(test)]
mod sql_tests;
#[cfg(test)]
mod zone_tests;
