//! Why nothing of some logs is listed or selected.
#![tactic(auto)]

mod asked;
mod named;
mod near;
mod reason;
mod reasons;
mod tables;
mod units;

pub use near::NearTable;
pub use reason::Reason;
pub use reasons::Reasons;
