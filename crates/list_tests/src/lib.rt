//! Tests of lists: of times, of several logs, of ids that are asked for, of the room of a line, and of lists that are sorted.
#![tactic(auto)]

#[cfg(test)]
mod id_tests;
#[cfg(test)]
mod logs_tests;
#[cfg(test)]
mod room_tests;
#[cfg(test)]
mod run_tests;
#[cfg(test)]
mod seed_tests;
#[cfg(test)]
mod sort_tests;
#[cfg(test)]
mod time_tests;
