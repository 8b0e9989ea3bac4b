//! The pairs of a merge: what rows are, and what they would be had a mistake not been made.
#![tactic(auto)]

mod changed;
mod columns;
mod fault;
mod held;
mod keys;
mod merging;
mod nulls;
mod pairs;
mod places;
mod putting;
mod row_pair;
mod rows;
mod slots;
mod spelling;
mod steps;
mod tables;
mod updates;
mod values;

pub use columns::Columns;
pub use fault::PairFault;
pub use pairs::PairTable;
pub use row_pair::{RowPair, UpdateParts};
