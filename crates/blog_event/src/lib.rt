//! Events of a MySQL binary log of version 4, and their bytes.
#![tactic(auto)]

pub mod constants;
mod event;
mod events;
mod fault;
mod format;
mod laws;
mod log;
mod reading;
mod writing;

pub use event::{Event, Header};
pub use events::Events;
pub use fault::Fault;
pub use laws::{
    events_left_are_determined, fronts_grow_to_the_read_list, items_are_the_events_left,
    opened_log_is_read_on, opened_logs_have_their_parts, read_list_is_longest,
    reading_an_event_is_exact,
};
pub use log::{Log, format_description};
pub use reading::{HEADER_LEN, event_at};
pub use writing::{header_bytes, open_event, open_event_from, put_event, put_event_from};
