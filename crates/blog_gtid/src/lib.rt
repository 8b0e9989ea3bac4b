//! The body of a tagged GTID event of a MySQL binary log, and the body of the Gtid event that it becomes.
#![tactic(auto)]

mod integers;
mod laws;
mod tagged;

pub use laws::{a_gtid_body_fits, reading_a_tagged_event_is_exact, reading_an_integer_is_exact};
pub use tagged::{TaggedId, gtid_body, tagged_id};
