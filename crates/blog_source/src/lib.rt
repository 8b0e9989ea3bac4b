//! A server's log as a source: its checksums are checked, and a log without them is handed out, each of whose events knows
//! where in the server's log it stands.
#![tactic(auto)]

mod append;
mod becoming;
mod form;
mod front;
mod laws;
mod plain_copy;
mod plain_laws;
mod putting;
mod reading;
mod source;
mod walk;
mod whole;

pub use append::AppendFault;
pub use laws::{
    handed_log_has_the_events, handed_logs_open, places_are_of_the_source,
    unsummed_logs_keep_their_places, whole_reading_finds_the_sums_faults,
};
pub use plain_copy::plain;
pub use plain_laws::{
    plain_log_has_the_events, plain_log_is_its_own, plain_logs_open, unsummed_logs_are_plain,
};
pub use reading::Reading;
pub use source::Source;
pub use walk::DAMAGED_EVENT;
