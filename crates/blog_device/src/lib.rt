//! Reading a log from a device and writing to one, where a device is a reader or a writer that remembers whether one of
//! its calls failed.
//!
//! A call of a device that fails is never tried again, so the loops over `read` and `write` are
//! this crate's own: those of std try an interrupted call again.
#![tactic(auto)]

mod devices;
mod fault;
mod reading;
mod writing;

pub use devices::Watched;
pub use fault::RunFault;
pub use reading::{read_log, read_up_to};
pub use writing::{make_room, put, put_part};
