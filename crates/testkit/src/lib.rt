//! What tests share: devices that move a few bytes a call or fail at a chosen one, and runs of a program.
#![tactic(auto)]

pub mod devices;
pub mod runs;
