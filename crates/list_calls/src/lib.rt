//! What tests of units and lists share: sources, what is wanted of a list, events of small logs, and time zones.
#![tactic(auto)]

pub mod lists;
pub mod parts;
pub mod shown_times;
pub mod sources;
pub mod undoing;
pub mod zones;
