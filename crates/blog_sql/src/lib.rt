//! A log as SQL: a text that the `mysql` client runs, all or nothing.
#![tactic(auto)]

mod base64_lines;
mod changed;
mod chunk;
mod full_line;
mod laws;
mod of_index;
mod options;
mod output;
mod schemas;
mod sizes;
mod written_sql;

pub use laws::{binlogs_are_read_back, texts_are_read_back};
pub use of_index::write_index;
pub use options::{Renamed, SqlOptions};
pub use schemas::without_schema;
pub use sizes::sql_sizes;
pub use written_sql::{NAME_AND_VERSION, write_sql};
