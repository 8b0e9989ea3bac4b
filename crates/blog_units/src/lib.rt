//! The units of a MySQL binary log: its transactions, and what stands between them and can't be undone, each with the rows
//! that it changes or the reason why it is refused.
#![tactic(auto)]

mod laws;
mod part;
mod unit;
mod unit_facts;
mod units;

pub use laws::{transactions_are_in_units, units_hold_the_events};
pub use unit::{GlobalId, Unit};
pub use unit_facts::UnitFacts;
pub use units::Units;
