//! Logs of servers for tests, byte by byte, that only a source reads, and what becomes of them.
#![tactic(auto)]

pub mod tagged;
