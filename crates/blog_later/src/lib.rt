//! What came after changes: whether it takes the rows that they left, and what of it can't be looked into.
#![tactic(auto)]

mod laws;
mod leaving;
mod left;
mod looked;
mod looking;
mod prints;
mod touched;

pub use laws::{fingerprints_of_left_rows_suffice, fingerprints_of_rows_left_before_suffice};
pub use leaving::Leaving;
pub use left::LeftRows;
pub use looked::Looked;
pub use looking::{first_mark, look, look_among};
pub use prints::{print_of, table_hasher};
pub use touched::TouchedRows;
