//! The net effect of a mistake on rows, written as a log in memory: each row is updated from what it would be without the mistake to what
//! it is.
#![tactic(auto)]

mod fault;
mod matching;
mod net;
mod putting;
mod update;
mod writing;

pub use fault::NetFault;
pub use matching::has_updates;
pub use net::NetLog;
pub use update::NetUpdate;
pub use writing::net_log;
