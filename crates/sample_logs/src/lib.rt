//! Logs for tests, as bytes: small ones, byte by byte and built event by event, with what undoes them and what is printed
//! of them; and logs of a server.
#![tactic(auto)]

pub mod builder;
pub mod logs;
pub mod printed_logs;
pub mod samples;
pub mod small;
pub mod summed;
pub mod undone;
