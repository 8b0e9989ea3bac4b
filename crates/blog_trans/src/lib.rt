//! The index of a log: its transactions under a selection, or its first fault.
#![tactic(auto)]

mod builder;
mod checker;
mod counts;
mod group_events;
mod groups;
mod laws;
mod layouts;
mod lists;
mod place;
mod seeded;
mod selection;
mod table_ids;
mod table_name;

pub use blog_row::{EventKind, event_kind, query_text};
pub use builder::{index, index_from};
pub use group_events::{GroupEvent, GroupEvents, GroupRows, SkippedEvent, SkippedRows};
pub use groups::{Index, TableCount};
pub use laws::{
    accepted_logs_have_groups, groups_are_of_events, opening_asks_the_first_lines,
    progress_gives_groups, statements_are_those_since, statements_have_used_maps,
};
pub use lists::Entry;
pub use place::Place;
pub use selection::Selection;
