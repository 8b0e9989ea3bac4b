//! The log that undoes a selection of a log's changes.
#![tactic(auto)]

mod digits;
mod laid_out;
mod log_sizes;
mod modes;
mod printed;
mod put_sql;
mod put_summary;
mod runs;
mod theorems;
mod written_event;
mod written_events;
mod written_out;

pub use blog_device::{RunFault, Watched, put};
pub use blog_event::Fault;
pub use blog_trans::Selection;
pub use laid_out::{add_events, front, lay_out};
pub use log_sizes::{LogSizes, sizes_of};
pub use modes::{Mode, answer, answer_seeded, flashback, forward, selected, sql, summary};
pub use printed::put_table;
pub use runs::{prepare, prepare_seeded, run, run_by_chunks, run_seeded};
pub use theorems::{
    every_stop_stands, flashback_undoes, forward_is_normal, groups_show_each_event_once,
    maps_agree_on_layouts, written_changes_are_inverse, written_logs_are_no_longer,
};
pub use written_event::{WrittenEvent, WrittenRows};
pub use written_events::{WrittenEvents, WrittenGroups};
pub use written_out::{CHUNK_LEN, write_out};
