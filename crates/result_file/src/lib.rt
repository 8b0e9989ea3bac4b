//! A result file that appears whole or not at all: its bytes go to a temporary file beside it, which gets the name once all is
//! written and synced.
#![tactic(auto)]

mod fault;
mod file_id;
mod found;
mod names;
mod naming;
mod noted;
mod whole_file;

pub use fault::FileFault;
pub use file_id::{FileId, are_same, first_repeated};
pub use found::{Found, Refusal, Way, way_to};
pub use names::{folder_of, temporary_name};
pub use noted::Noted;
pub use whole_file::{ResultFile, Wanted};
