//! Tests of `binlog` over files and devices: logs that can't be opened, result files, terminals, writers that fail, and memory
//! that is refused.
#![tactic(auto)]

#[cfg(test)]
mod failing_files;
#[cfg(test)]
mod failing_reader_tests;
#[cfg(test)]
mod failing_writer_tests;
#[cfg(test)]
mod file_line_tests;
#[cfg(test)]
mod limit_tests;
#[cfg(test)]
mod log_file_tests;
#[cfg(test)]
mod memory_tests;
#[cfg(test)]
mod result_file_tests;
#[cfg(test)]
mod terminal_tests;
