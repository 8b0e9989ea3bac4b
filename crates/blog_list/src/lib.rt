//! Lists of the units of a MySQL binary log, as text or as JSON: where each starts and stops, when it was, and which rows it
//! changes, or why it can't be undone.
#![tactic(auto)]

mod beginning;
mod column;
mod fault_events;
mod json;
mod laws;
mod lines;
mod list_end;
mod list_writer;
mod listing;
mod places;
mod ranking;
mod texts;
mod times;
mod totals;

pub use laws::parts_are_a_list;
pub use lines::{put_name, put_refusal};
pub use list_end::early_end;
pub use list_writer::{ListWriter, open_log, write_full};
pub use listing::{Form, Sorting, Style, list, list_counted};
pub use places::wanted_inside;
pub use times::{Side, TimeFault, rfc_3339_text, seconds_of, time_text};
pub use totals::Totals;
