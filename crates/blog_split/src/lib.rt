//! A log with the same changes in statements of bounded size.
#![tactic(auto)]

mod cut_events;
mod cut_log;
mod fault;
mod laws;
mod most;
mod piece_maps;
mod room;
mod used_maps;
mod written_cut;

pub use cut_events::CutEvents;
pub use cut_log::cut_groups_of;
pub use fault::{SplitFault, SplitRunFault};
pub use laws::{split_keeps_changes, split_of_small_is_normal, written_cuts_are_split};
pub use written_cut::write_cut;
