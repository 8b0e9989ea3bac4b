//! Tests of the bytes of events, of table maps and rows events, of tagged GTIDs, and of checksums.
#![tactic(auto)]

#[cfg(test)]
mod bodies;
#[cfg(test)]
mod bytes;
#[cfg(test)]
mod column_tests;
#[cfg(test)]
mod event_tests;
#[cfg(test)]
mod going_tests;
#[cfg(test)]
mod gtid_body_tests;
#[cfg(test)]
mod image_tests;
#[cfg(test)]
mod logs;
#[cfg(test)]
mod opening_tests;
#[cfg(test)]
mod plain_tests;
#[cfg(test)]
mod rows_event_tests;
#[cfg(test)]
mod rows_tests;
#[cfg(test)]
mod source_calls;
#[cfg(test)]
mod source_fault_tests;
#[cfg(test)]
mod source_logs;
#[cfg(test)]
mod source_reading_tests;
#[cfg(test)]
mod source_tests;
#[cfg(test)]
mod sum_tests;
#[cfg(test)]
mod table_map_tests;
#[cfg(test)]
mod tagged_tests;
