//! Rows that a log changes, each with the names and the values of its columns: as lines for people, as JSON, or as CSV.
#![tactic(auto)]

mod cells;
mod csv_cells;
mod csv_fields;
mod csv_rows;
mod forms;
mod json_cells;
mod json_rows;
mod labels;
mod line_rows;
mod lines;
mod names;
mod room;
mod scratch;
mod tables;
mod texts;
mod values;

pub use csv_fields::put_csv_field;
pub use forms::{RowForm, RowStyle};
pub use lines::put_unit;
pub use room::LineRoom;
pub use tables::LastMap;
