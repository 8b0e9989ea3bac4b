//! Tests of documents of MySQL's binary JSON as text.
#![tactic(auto)]

#[cfg(test)]
mod faulty_tests;
#[cfg(test)]
mod large_tests;
#[cfg(test)]
mod memory_tests;
#[cfg(test)]
mod printing;
#[cfg(test)]
mod server_documents;
#[cfg(test)]
mod server_tests;
